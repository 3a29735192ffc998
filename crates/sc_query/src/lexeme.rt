//! The tokens of a text, one at a time.

ghost use Rattle.std.specs.Prelude.{◌≡◌, ◌<◌, ◌≤◌, [], ◌∷◌, length, drop, IfOk, IfNone, IfSome, string_bytes};
ghost use Rattle.std.specs.Str.{IsCharBoundary};
ghost use Rattle.sc_query.specs.Grammar.{query_limit};
ghost use Rattle.sc_query.specs.Tokens.{is_space, ends_run, ends_field, ends_quoted, up_to, plain};
ghost use Rattle.sc_query.specs.Tokens.{is_cut_short, opens_quoted, opens_value};
ghost use Rattle.sc_query.specs.Tokens.{token_of, run_token, quoted_leaf, word_at, token_at, placed, tokens_from};

use std::alloc::{AllocError, Global};

/// What stands at a place of a text: a token, or what is none. A value still has its backslashes.
#[derive(Clone, Copy)]
pub enum Lexeme<'a> {
    Open,
    Close,
    And,
    Or,
    Not,
    Every,
    Leaf { field: &'a str, value: &'a str },
    Broken,
}

/// A lexeme of a text, with the place of its first byte and of the byte after its last.
#[derive(Clone, Copy)]
pub struct Found<'a> {
    pub lexeme: Lexeme<'a>,
    pub at: u32,
    pub after: usize,
}

// A part of a text that goes up to a byte that ends it.
#[derive(Clone, Copy)]
enum Part {
    Field,
    Run,
    Quoted,
}

fn is_space(byte: u8) -> bool
    ensures { result ≡ is_space byte }
{
    byte == b' ' || byte == b'\t' || byte == b'\r' || byte == b'\n'
}

fn ends_run(byte: u8) -> bool
    ensures { result ≡ ends_run byte }
{
    is_space(byte) || byte == b'(' || byte == b')'
}

fn ends(part: Part, byte: u8) -> bool
    ensures field { part ≡ Part.Field → result ≡ ends_field byte }
    ensures run { part ≡ Part.Run → result ≡ ends_run byte }
    ensures quoted { part ≡ Part.Quoted → result ≡ ends_quoted byte }
{
    match part {
        Part::Field => byte == b':' || byte == b'"' || byte == b'\\' || ends_run(byte),
        Part::Run => ends_run(byte),
        Part::Quoted => byte == b'"',
    }
}

// How many bytes come before the first that ends the part.
fn len_up_to(part: Part, bytes: &[u8]) -> usize
    ensures field { part ≡ Part.Field → result ≡ length (up_to ends_field bytes.now) }
    ensures run { part ≡ Part.Run → result ≡ length (up_to ends_run bytes.now) }
    ensures quoted { part ≡ Part.Quoted → result ≡ length (up_to ends_quoted bytes.now) }
    ensures within { result ≤ length bytes.now }
{
    let mut at = 0;
    while at < bytes.len() && !ends(part, bytes[at]) {
        at += if bytes[at] == b'\\' && at + 1 < bytes.len() {
            2
        } else {
            1
        };
    }
    at
}

fn is_cut_short(bytes: &[u8]) -> bool
    ensures { result ≡ is_cut_short bytes.now }
{
    let mut at = 0;
    while at < bytes.len() {
        if bytes[at] == b'\\' {
            if at + 1 == bytes.len() {
                return true;
            }
            at += 2;
        } else {
            at += 1;
        }
    }
    false
}

/// The text that a value with backslashes stands for.
pub fn plain(alloc: Global, value: &str) -> Result<String, AllocError>
    ensures { IfOk result (λ text. string_bytes text ≡ plain value.now) }
{
    let bytes = value.as_bytes();
    let mut text = String::new(alloc);
    let mut from = 0;
    let mut at = 0;
    while at < bytes.len() {
        if bytes[at] == b'\\' && at + 1 < bytes.len() {
            text.push_str(&value[from..at])?;
            from = at + 1;
            at += 2;
        } else {
            at += 1;
        }
    }
    text.push_str(&value[from..])?;
    Ok(text)
}

// A colon and a quote stand at the place.
fn opens_quoted(bytes: &[u8], at: usize) -> bool
    ensures { result ≡ opens_quoted (drop at bytes.now) }
{
    matches!(bytes.get(at..), Some([b':', b'"', ..]))
}

// A colon and at least one byte more stand at the place.
fn opens_value(bytes: &[u8], at: usize) -> bool
    ensures { result ≡ opens_value (drop at bytes.now) }
{
    matches!(bytes.get(at..), Some([b':', _, ..]))
}

// The token of a run of bytes outside quotes, which begins with the field.
fn run_lexeme<'a>(field: &'a str, run: &'a str) -> Lexeme<'a>
    ensures { token_of result ≡ run_token field.now run.now }
{
    if run == "AND" {
        return Lexeme::And;
    }
    if run == "OR" {
        return Lexeme::Or;
    }
    if run == "NOT" {
        return Lexeme::Not;
    }
    if run == "*:*" {
        return Lexeme::Every;
    }
    if field.is_empty() || is_cut_short(run.as_bytes()) {
        return Lexeme::Broken;
    }
    if opens_value(run.as_bytes(), field.len()) {
        let value = &run[field.len() + 1..];
        return Lexeme::Leaf { field, value };
    }
    Lexeme::Broken
}

// A leaf whose value is quoted, from the value's first byte on, and how many bytes it takes with its field.
fn quoted_lexeme<'a>(field: &'a str, text: &'a str) -> (Lexeme<'a>, usize)
    requires field { length field.now ≤ query_limit }
    requires text { length text.now ≤ query_limit }
    ensures token { token_of result.0 ≡ (quoted_leaf field.now (up_to ends_quoted text.now) text.now).0 }
    ensures len { result.1 ≡ (quoted_leaf field.now (up_to ends_quoted text.now) text.now).1 }
{
    let inside = len_up_to(Part::Quoted, text.as_bytes());
    if field.is_empty() || inside == text.len() || inside == 0 {
        return (Lexeme::Broken, field.len() + 2 + text.len());
    }
    let value = &text[..inside];
    (Lexeme::Leaf { field, value }, field.len() + 3 + inside)
}

// A token that is no parenthesis, and how many bytes it takes.
fn word_at(text: &str) -> (Lexeme<'_>, usize)
    requires { length text.now ≤ query_limit }
    ensures token { token_of result.0 ≡ (word_at (up_to ends_field text.now) text.now).0 }
    ensures len { result.1 ≡ (word_at (up_to ends_field text.now) text.now).1 }
{
    let bytes = text.as_bytes();
    let len = len_up_to(Part::Field, bytes);
    let field = &text[..len];
    if opens_quoted(bytes, len) {
        return quoted_lexeme(field, &text[len + 2..]);
    }
    let len = len_up_to(Part::Run, bytes);
    (run_lexeme(field, &text[..len]), len)
}

// The token that begins with a text's first byte, which is no space, and how many bytes it takes.
fn lexeme_at(text: &str) -> (Lexeme<'_>, usize)
    requires some { 0 < length text.now }
    requires in_limit { length text.now ≤ query_limit }
    ensures token { token_of result.0 ≡ (token_at text.now).0 }
    ensures len { result.1 ≡ (token_at text.now).1 }
{
    match text.as_bytes()[0] {
        b'(' => (Lexeme::Open, 1),
        b')' => (Lexeme::Close, 1),
        _ => word_at(text),
    }
}

/// The first token from a place of a text on; None where only spaces are left.
pub fn next(text: &str, from: usize) -> Option<Found<'_>>
    requires in_limit { length text.now ≤ query_limit }
    requires start { IsCharBoundary text.now from }
    ensures none { IfNone result (tokens_from 0 from (drop from text.now) ≡ []) }
    ensures some { IfSome result (λ found. tokens_from 0 from (drop from text.now)
        ≡ placed found.at (token_of found.lexeme) ∷ tokens_from 0 found.after (drop found.after text.now)) }
    ensures forward { IfSome result (λ found. from < found.after) }
    ensures boundary { IfSome result (λ found. IsCharBoundary text.now found.after) }
{
    let bytes = text.as_bytes();
    let mut at = from;
    while at < bytes.len() {
        if !is_space(bytes[at]) {
            let (lexeme, len) = lexeme_at(&text[at..]);
            return Some(Found {
                lexeme,
                at: at as u32,
                after: at + len,
            });
        }
        at += 1;
    }
    None
}
