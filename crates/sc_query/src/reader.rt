//! A query is read one token at a time, without recursion: what is open stands in a vector of levels, one for each parenthesis.

ghost use Rattle.std.specs.Prelude.{◌≡◌, ℕ, ◌+◌, ◌-◌, ◌≤◌, nat_lt, length, if◌then◌else◌, Ok, Err, None, IfOk, IfNone, IfSome};
ghost use Rattle.sc_query.specs.Tokens.{plain};
ghost use Rattle.sc_query.specs.Tree.{Tree, tree_of, negated};
ghost use Rattle.sc_query.specs.Grammar.{query_limit, HasTree, HasFault};
ghost use Rattle.sc_query.specs.declared.fault.QueryFault.TheVariants.{At};

use crate::fault::QueryFault;
use crate::lexeme::{self, Found, Lexeme};
use crate::query::{self, Query};
use sc_record::Text as Word;
use std::alloc::{AllocError, Global};

/// How many parentheses and NOTs may be open at once.
const DEPTH: u32 = 32;

/// What stands before an operand, back to the parenthesis that is open: what is joined to it by OR and by AND, and its NOTs.
///
/// `room` is how many parentheses and NOTs could be open here without these NOTs.
#[derive(Drop)]
struct Level {
    either: Option<Query>,
    both: Option<Query>,
    room: u32,
    negations: u32,
}

impl Level {
    fn new(either: Option<Query>, both: Option<Query>, room: u32) -> Level
        ensures { result ≡ record { either = either; both = both; room = room; negations = 0 } }
    {
        Level {
            either,
            both,
            room,
            negations: 0,
        }
    }

    // How many more may be open within a parenthesis that opens at the place.
    fn room_within(&self, at: u32) -> Result<u32, QueryFault>
        ensures { result ≡ (if nat_lt self.now.negations self.now.room
            then Ok (self.now.room - (self.now.negations + 1)) else Err (At at)) }
    {
        if self.negations >= self.room {
            return Err(QueryFault::At { at });
        }
        Ok(self.room - (self.negations + 1))
    }

    // One NOT more opens at the place.
    fn with_not(self, at: u32) -> Result<Level, QueryFault>
        ensures { result ≡ (if nat_lt self.negations self.room
            then Ok (record self { negations = self.negations + 1 }) else Err (At at)) }
    {
        if self.negations >= self.room {
            return Err(QueryFault::At { at });
        }
        let mut level = self;
        level.negations += 1;
        Ok(level)
    }
}

// The query under so many NOTs.
fn negated(alloc: Global, query: Query, negations: u32) -> Result<Query, AllocError>
    ensures { IfOk result (λ found. tree_of found ≡ negated negations (tree_of query)) }
{
    let mut query = query;
    for _ in 0..negations {
        query = Query::Not(Box::new(alloc, query)?);
    }
    Ok(query)
}

// The operand under its NOTs, joined by AND to what stands before it.
fn conjunction(
    alloc: Global,
    both: Option<Query>,
    negations: u32,
    operand: Query,
) -> Result<Query, AllocError>
    ensures alone { IfNone both
        (IfOk result (λ found. tree_of found ≡ negated negations (tree_of operand))) }
    ensures joined { IfSome both (λ left. IfOk result
        (λ found. tree_of found ≡ Tree.And (tree_of left) (negated negations (tree_of operand)))) }
{
    let query = negated(alloc, operand, negations)?;
    match both {
        None => Ok(query),
        Some(left) => query::and(alloc, left, query),
    }
}

// The query, joined by OR to what stands before it.
fn or_with(alloc: Global, either: Option<Query>, query: Query) -> Result<Query, AllocError>
    ensures alone { IfNone either (IfOk result (λ found. tree_of found ≡ tree_of query)) }
    ensures joined { IfSome either (λ left.
        IfOk result (λ found. tree_of found ≡ Tree.Or (tree_of left) (tree_of query))) }
{
    match either {
        None => Ok(query),
        Some(left) => {
            let left = Box::new(alloc, left)?;
            let right = Box::new(alloc, query)?;
            Ok(Query::Or(left, right))
        }
    }
}

// A leaf, whose value still has its backslashes.
fn leaf(alloc: Global, field: &str, value: &str, at: u32) -> Result<Query, AllocError>
    ensures { IfOk result (λ query. tree_of query ≡ Tree.Leaf field.now (plain value.now) at) }
{
    let field = Word::new(alloc, field)?;
    let value = Word::from_string(alloc, lexeme::plain(alloc, value)?)?;
    Ok(Query::Leaf { field, value, at })
}

/// Reads a whole text that is no longer than a query may be.
pub fn read(alloc: Global, text: &str) -> Result<Query, QueryFault>
    requires { length text.now ≤ query_limit }
    ensures tree { IfOk result (λ query. HasTree text.now (tree_of query)) }
    ensures fault { (at : ℕ) → result ≡ Err (At at) → HasFault text.now at }
{
    // The levels round the innermost, the innermost itself, and the operand that was read last in it.
    let mut outer: Vec<Level> = Vec::new(alloc);
    let mut level = Level::new(None, None, DEPTH);
    let mut operand: Option<Query> = None;
    let mut from = 0;
    while let Some(Found { lexeme, at, after }) = lexeme::next(text, from) {
        from = after;
        match operand {
            None => match lexeme {
                Lexeme::Open => {
                    let room = level.room_within(at)?;
                    outer.push(level)?;
                    level = Level::new(None, None, room);
                }
                Lexeme::Not => level = level.with_not(at)?,
                Lexeme::Every => operand = Some(Query::All),
                Lexeme::Leaf { field, value } => operand = Some(leaf(alloc, field, value, at)?),
                _ => return Err(QueryFault::At { at }),
            },
            Some(query) => {
                let query = conjunction(alloc, level.both, level.negations, query)?;
                match lexeme {
                    Lexeme::And => {
                        level = Level::new(level.either, Some(query), level.room);
                        operand = None;
                    }
                    Lexeme::Or => {
                        let query = or_with(alloc, level.either, query)?;
                        level = Level::new(Some(query), None, level.room);
                        operand = None;
                    }
                    Lexeme::Close => {
                        operand = Some(or_with(alloc, level.either, query)?);
                        level = outer.pop().ok_or(QueryFault::At { at })?;
                    }
                    _ => return Err(QueryFault::At { at }),
                }
            }
        }
    }
    let end = text.len() as u32;
    match operand {
        None => Err(QueryFault::At { at: end }),
        Some(query) => {
            if !outer.is_empty() {
                return Err(QueryFault::At { at: end });
            }
            let query = conjunction(alloc, level.both, level.negations, query)?;
            Ok(or_with(alloc, level.either, query)?)
        }
    }
}
