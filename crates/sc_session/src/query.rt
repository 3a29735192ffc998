ghost use Rattle.std.specs.Prelude.{◌≡◌, ◌<◌, ℕ, Err, IfOk, length};
ghost use Rattle.sc_eval.specs.Criteria.{criterion_of};
ghost use Rattle.sc_eval.specs.declared.fault.BindFault.TheVariants.{At};
ghost use Rattle.sc_query.specs.Grammar.{HasTree, HasFault};
ghost use Rattle.sc_query.specs.Tree.{tree_of};
ghost use Rattle.sc_session.specs.Queries.{HaveCriterion, HaveFault, HaveJoined, HasTextFault};

use sc_eval::{BindFault, Bound, bind};
use sc_query::{Query, QueryFault, and, parse};
use sc_record::Text;
use std::alloc::Global;

/// The criterion that the texts of a search's queries are, all joined by AND; or the place of the first fault, in its own text. A
/// text that is no query goes before a leaf that can't be bound.
pub(crate) fn criterion(alloc: Global, texts: &[Text]) -> Result<Bound, BindFault>
    requires { 0 < length texts.now }
    ensures criterion { IfOk result (λ found. HaveCriterion texts.now (criterion_of found)) }
    ensures fault { (at : ℕ) → result ≡ Err (At at) → HaveFault texts.now at }
{
    let query = joined(alloc, texts)?;
    bind(alloc, &query)
}

/// The texts' queries, joined by AND in their order; or the place of the fault of the first text that is none.
fn joined(alloc: Global, texts: &[Text]) -> Result<Query, BindFault>
    requires { 0 < length texts.now }
    ensures tree { IfOk result (λ query. HaveJoined texts.now (tree_of query)) }
    ensures fault { (at : ℕ) → result ≡ Err (At at) → HasTextFault texts.now at }
{
    let mut query = read(alloc, &texts[0])?;
    for text in &texts[1..] {
        let next = read(alloc, text)?;
        query = and(alloc, query, next)?;
    }
    Ok(query)
}

/// The query of a text, or the place of its fault.
fn read(alloc: Global, text: &Text) -> Result<Query, BindFault>
    ensures tree { IfOk result (λ query. HasTree text.now (tree_of query)) }
    ensures fault { (at : ℕ) → result ≡ Err (At at) → HasFault text.now at }
{
    match parse(alloc, text.as_str()) {
        Ok(query) => Ok(query),
        Err(QueryFault::At { at }) => Err(BindFault::At { at }),
        Err(QueryFault::Memory) => Err(BindFault::Memory),
    }
}
