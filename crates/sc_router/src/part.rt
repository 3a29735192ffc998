//! The parts of a composite id. Each is hashed once, as it is read from its start: by words of four bytes up
//! to the first that has `!` or `/`, and from there byte by byte.

ghost use Rattle.std.specs.Prelude.{◌≡◌, ◌≢◌, ◌+◌, ◌<◌, ◌≤◌, ◌^◌, ◌↔◌, length, take, MatchOption, IsTrue, ⊤};
ghost use Rattle.std.proofs.Props.{props};
ghost use Rattle.sc_hash.specs.Hash.{murmur3};
ghost use Rattle.sc_hash.specs.Hasher.{progress};
ghost use Rattle.sc_router.specs.Parts.{before_mark, after_mark, occurrences};
ghost use Rattle.sc_router.specs.Slash.{IsFirstSlash};

use sc_hash::Hasher;

/// Where the first `/` of a part stands, and the hash of what stands before it.
#[derive(Clone, Copy)]
pub(crate) struct Slash {
    pub at: usize,
    pub hash: u32,
}

/// A part of an id with what its bytes gave when they were read.
#[derive(Clone, Copy)]
pub(crate) struct Part<'a> {
    pub text: &'a [u8],
    pub hash: u32,
    pub slash: Option<Slash>,
    ghost whole: { hash ≡ murmur3 text.now 0 },
    ghost first: { IsFirstSlash slash text.now } by { Prim.hlevel props },
}

fn is_plain(byte: u8) -> bool
    ensures { IsTrue result ↔ (byte ≢ 33) × (byte ≢ 47) }
{
    (byte != b'!') & (byte != b'/')
}

// Whether no byte of a word is `!` or `/`. All four are tested, without a branch between them.
fn is_plain_word(word: [u8; 4]) -> bool
    ensures { IsTrue result → (occurrences 33 word ≡ 0) × (occurrences 47 word ≡ 0) }
{
    let [a, b, c, d] = word;
    is_plain(a) & is_plain(b) & is_plain(c) & is_plain(d)
}

// Reads a text by words up to the first that has `!` or `/`, and says where that is.
fn read_words(text: &[u8]) -> (Hasher, usize)
    ensures read { result.0 ≡ progress 0 (take result.1 text.now) }
    ensures marks { occurrences 33 (take result.1 text.now) ≡ 0 }
    ensures slashes { occurrences 47 (take result.1 text.now) ≡ 0 }
    ensures within { result.1 ≤ length text.now }
{
    let mut hasher = Hasher::new(0);
    let word_count = text.len() / 4;
    for i in 0..word_count {
        let at = 4 * i;
        let word = [text[at], text[at + 1], text[at + 2], text[at + 3]];
        if !is_plain_word(word) {
            return (hasher, at);
        }
        hasher.write_word(word);
    }
    (hasher, 4 * word_count)
}

/// The part that a text begins with, up to the first `!` or the end, and what comes after that `!`.
pub(crate) fn first_part(text: &[u8]) -> (Part<'_>, Option<&[u8]>)
    requires { length text.now < 2 ^ 32 }
    ensures part { result.0.text.now ≡ before_mark 33 text.now }
    ensures rest { MatchOption result.1 (occurrences 33 text.now ≡ 0)
        (λ rest. rest.now ≡ after_mark 33 text.now) }
    ensures found { MatchOption result.1 ⊤ (λ rest. occurrences 33 text.now ≡ 1 + occurrences 33 rest.now) }
    ensures length { MatchOption result.1 ⊤ (λ rest. length rest.now < length text.now) }
{
    let (mut hasher, start) = read_words(text);
    let mut slash = None;
    for i in start..text.len() {
        let byte = text[i];
        if byte == b'!' {
            let part = Part {
                text: &text[..i],
                hash: hasher.finish(),
                slash,
            };
            return (part, Some(&text[i + 1..]));
        }
        if byte == b'/' && slash.is_none() {
            let hash = hasher.finish();
            slash = Some(Slash { at: i, hash });
        }
        hasher.write(byte);
    }
    let part = Part {
        text,
        hash: hasher.finish(),
        slash,
    };
    (part, None)
}
