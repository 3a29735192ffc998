//! What the program's arguments ask for.
//!
//! It depends on `sc_collection`, whose `Shape` says how a collection is laid out, and on `clap`, which finds the options of a command
//! among the words after it. The first word is read here, and so are the numbers: clap's own take a sign and more digits than the usage
//! has. The layer above uses the clause `asked` of `asked_of`: which arguments ask for what, and that no others ask for anything.
//!
//! Proved: `asked_of`: what all words ask for, both ways, unless memory runs out, and that each number of it is in its range. For that,
//! clap's walk over the words (`specs/Walk` of `clap`) is shown to find the options that `specs/Options` defines, or to fail where they
//! are none (`proofs/WalkLemmas`). Three laws, of all words, also of those that are refused: the options that are taken are those of the
//! command, each with a number and none twice (`options_are_taken_once`); `--name value` and `--name=value` are one
//! (`options_have_two_forms`); and the order of the options changes nothing (`options_come_in_any_order`). `proofs/ArgumentExamples` has
//! arguments at the borders of each range with what they ask for.
//!
//! Tested alone: that `asked_of` does not say that memory ran out while there is some, by the program's stored run.
//!
//! Neither: how the words come from the system.
#![tactic(auto)]

mod asked;
mod command;
mod laws;
mod numbers;
mod options;
mod ranges;

pub use asked::{Asked, Demo, Script, Server, asked_of};
pub use laws::{options_are_taken_once, options_come_in_any_order, options_have_two_forms};
