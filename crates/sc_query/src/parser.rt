ghost use Rattle.std.specs.Prelude.{◌≡◌, ℕ, ◌⊎◌, IsOkAnd, IfOk, Err};
ghost use Rattle.sc_query.specs.Tree.{Tree, tree_of};
ghost use Rattle.sc_query.specs.Grammar.{HasTree, HasFault};
ghost use Rattle.sc_query.specs.declared.fault.QueryFault.TheVariants.{At, Memory};

use crate::fault::QueryFault;
use crate::query::Query;
use crate::reader;
use std::alloc::Global;

/// The longest text that is read, in bytes.
const LONGEST: usize = 4096;

/// Reads a query text of at most `LONGEST` bytes: words `field:value` and `*:*` under `NOT`, `AND` and `OR`, the tightest first,
/// and parentheses. A backslash stands for the character after it, and a value in quotes may hold spaces and parentheses.
/// `AND` and `OR` group to the left, and parentheses and `NOT`s may be open at once up to the limit of the grammar. Places count bytes from 0.
///
/// It takes time in proportion to the text's length, and no recursion.
pub fn parse(alloc: Global, text: &str) -> Result<Query, QueryFault>
    // What is read is a query of the grammar, with its tree.
    ensures tree { IfOk result (λ query. HasTree text.now (tree_of query)) }
    // A fault is where the definition has it.
    ensures fault { (at : ℕ) → result ≡ Err (At at) → HasFault text.now at }

    // Every query of the grammar is read, and every fault is reported, unless memory runs out.
    ensures reads { (t : Tree) → HasTree text.now t →
        (result ≡ Err Memory) ⊎ IsOkAnd result (λ query. tree_of query ≡ t) }
    ensures refuses { (at : ℕ) → HasFault text.now at →
        (result ≡ Err Memory) ⊎ (result ≡ Err (At at)) }
{
    if text.len() > LONGEST {
        return Err(QueryFault::At { at: LONGEST as u32 });
    }
    reader::read(alloc, text)
}
