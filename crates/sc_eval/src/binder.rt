//! A query is bound from left to right. What waits to the right of the operand that is bound stands in a vector, so that a long
//! row of AND and OR takes no stack: only a NOT and a right operand take some, and those nest as parentheses do.

ghost use Rattle.std.specs.Prelude.{◌≡◌, ℕ, ◌+◌, ◌≤◌, [], IfOk, Ok, Err, Some, None};
ghost use Rattle.sc_query.specs.Tree.{tree_of};
ghost use Rattle.sc_eval.specs.Criteria.{criterion_of};
ghost use Rattle.sc_eval.specs.Binding.{bound, leaf_term};
ghost use Rattle.sc_eval.specs.Spine.{linked_by, operand_bound, bound_with, nodes, operand_nodes, waiting_nodes};
ghost use Rattle.sc_eval.specs.declared.fault.BindFault.TheVariants.{At};

use crate::bound::Bound;
use crate::fault::BindFault;
use sc_query::{Query, Word};
use sc_record::{Term, kind_of};
use sc_schema::key_of;
use sc_snapshot::TermKey;
use std::alloc::{AllocError, Global};

/// What joins two operands.
#[derive(Clone, Copy)]
pub(crate) enum Link {
    And,
    Or,
}

/// The right operand of a query whose left one is being bound.
#[derive(Clone, Copy)]
pub(crate) struct Waiting<'a> {
    pub(crate) link: Link,
    pub(crate) right: &'a Query,
}

/// A query that is no AND and no OR.
#[derive(Clone, Copy)]
pub(crate) enum Operand<'a> {
    All,
    Leaf {
        field: &'a Word,
        value: &'a Word,
        at: u32,
    },
    Not(&'a Query),
}

/// Binds the leaves of a query to the fields of the collection: what is asked of `id` is the value as it is, and what is
/// asked of a dynamic field is the key that the value writes in a field of its kind.
///
/// A row of ANDs and ORs takes memory in proportion to its length, and no stack.
pub fn bind(alloc: Global, query: &Query) -> Result<Bound, BindFault>
    ensures bound { IfOk result (λ found. bound (tree_of query.now) ≡ Ok (criterion_of found)) }
    ensures fault { (at : ℕ) → result ≡ Err (At at) → bound (tree_of query.now) ≡ Err at }
{
    let mut waiting = Vec::new(alloc);
    let mut found = match first_operand(&mut waiting, query)? {
        Operand::All => Bound::All,
        Operand::Leaf { field, value, at } => Bound::Leaf(TermKey {
            term: term(alloc, field, value, at)?,
        }),
        Operand::Not(operand) => Bound::Not(Box::new(alloc, bind(alloc, operand)?)?),
    };
    while let Some(Waiting { link, right }) = waiting.pop() {
        let right = bind(alloc, right)?;
        found = joined(alloc, link, found, right)?;
    }
    Ok(found)
}

// The operand that stands leftmost in a query. What is to the right of it waits, the innermost last.
fn first_operand<'a>(
    waiting: &mut Vec<Waiting<'a>>,
    query: &'a Query,
) -> Result<Operand<'a>, AllocError>
    requires { waiting.old.items ≡ [] }
    ensures bound { IfOk result (λ operand. bound (tree_of query.now) ≡ bound_with waiting.new.items (operand_bound operand)) }
    ensures smaller { IfOk result (λ operand.
        waiting_nodes waiting.new.items + operand_nodes operand ≤ nodes (tree_of query.now)) }
{
    let mut query = query;
    loop {
        match query {
            Query::All => return Ok(Operand::All),
            Query::Leaf { field, value, at } => {
                return Ok(Operand::Leaf {
                    field,
                    value,
                    at: *at,
                });
            }
            Query::Not(operand) => return Ok(Operand::Not(operand)),
            Query::And(left, right) => {
                waiting.push(Waiting {
                    link: Link::And,
                    right,
                })?;
                query = left;
            }
            Query::Or(left, right) => {
                waiting.push(Waiting {
                    link: Link::Or,
                    right,
                })?;
                query = left;
            }
        }
    }
}

// The term that a leaf asks for.
fn term(alloc: Global, field: &Word, value: &Word, at: u32) -> Result<Term, BindFault>
    ensures term { IfOk result (λ found. leaf_term field.now value.now ≡ Some found) }
    ensures fault { (place : ℕ) → result ≡ Err (At place) → (leaf_term field.now value.now ≡ None) × (place ≡ at) }
{
    if field.as_str() == "id" {
        return Ok(Term {
            field: field.clone()?,
            key: value.clone()?,
        });
    }
    let Some((kind, _)) = kind_of(field.as_str()) else {
        return Err(BindFault::At { at });
    };
    match key_of(alloc, kind, value.as_str())? {
        Some(key) => Ok(Term {
            field: field.clone()?,
            key,
        }),
        None => Err(BindFault::At { at }),
    }
}

// The two queries, joined.
fn joined(alloc: Global, link: Link, left: Bound, right: Bound) -> Result<Bound, AllocError>
    ensures { IfOk result (λ found. criterion_of found ≡ linked_by link (criterion_of left) (criterion_of right)) }
{
    let left = Box::new(alloc, left)?;
    let right = Box::new(alloc, right)?;
    match link {
        Link::And => Ok(Bound::And(left, right)),
        Link::Or => Ok(Bound::Or(left, right)),
    }
}
