//! A bound query is gone through from left to right, as it was bound: what is to the right of the operand that is looked up
//! stands in a vector, so that a long row of AND and OR takes no stack. A query that joins two terms is known without a vector.

ghost use Rattle.std.specs.Prelude.{◌≡◌, [], IfOk, IfSome};
ghost use Rattle.sc_eval.specs.Criteria.{Criterion, criterion_of};
ghost use Rattle.sc_eval.specs.Operands.{criterion_with, operand_criterion, pair_criterion, joined_by};

use crate::bound::Bound;
use sc_rows::Kept;
use sc_snapshot::TermKey;
use std::alloc::AllocError;

/// An operand whose left one is being looked up, and which rows of both are then kept.
#[derive(Clone, Copy)]
pub(crate) struct Right<'a> {
    pub(crate) how: Kept,
    pub(crate) operand: &'a Bound,
}

/// A bound query that is no AND and no OR.
#[derive(Clone, Copy)]
pub(crate) enum Operand<'a> {
    All,
    Leaf(&'a TermKey),
    Not(&'a Bound),
}

/// Two terms that a query joins, and which rows of both are kept.
#[derive(Clone, Copy)]
pub(crate) struct Pair<'a> {
    pub(crate) how: Kept,
    pub(crate) left: &'a TermKey,
    pub(crate) right: &'a TermKey,
}

/// The two terms that a query joins, where it asks no more.
pub(crate) fn pair_of_terms(query: &Bound) -> Option<Pair<'_>>
    ensures { IfSome result (λ pair. criterion_of query.now ≡ pair_criterion pair) }
{
    match query {
        Bound::And(left, right) => both_terms(left, joined_by_and(right)),
        Bound::Or(left, right) => both_terms(
            left,
            Right {
                how: Kept::Either,
                operand: right,
            },
        ),
        _ => None,
    }
}

// The terms of two operands, where both are terms.
fn both_terms<'a>(left: &'a Bound, right: Right<'a>) -> Option<Pair<'a>>
    ensures { IfSome result (λ pair. joined_by right.entry.how (criterion_of left.now) (criterion_of right.entry.operand.now) ≡ pair_criterion pair) }
{
    match (left, right.operand) {
        (Bound::Leaf(one), Bound::Leaf(other)) => Some(Pair {
            how: right.how,
            left: one,
            right: other,
        }),
        _ => None,
    }
}

/// The operand that stands leftmost in a query. What is to the right of it waits, the innermost last.
pub(crate) fn first_operand<'a>(
    waiting: &mut Vec<Right<'a>>,
    query: &'a Bound,
) -> Result<Operand<'a>, AllocError>
    requires { waiting.old.items ≡ [] }
    ensures { IfOk result (λ operand. criterion_of query.now ≡ criterion_with waiting.new.items (operand_criterion operand)) }
{
    let mut query = query;
    loop {
        match query {
            Bound::All => return Ok(Operand::All),
            Bound::Leaf(key) => return Ok(Operand::Leaf(key)),
            Bound::Not(operand) => return Ok(Operand::Not(operand)),
            Bound::And(left, right) => {
                waiting.push(joined_by_and(right))?;
                query = left;
            }
            Bound::Or(left, right) => {
                waiting.push(Right {
                    how: Kept::Either,
                    operand: right,
                })?;
                query = left;
            }
        }
    }
}

// The right operand of an AND. Of a NOT it is the operand that is looked up, and what is found by it is left out.
fn joined_by_and(right: &Bound) -> Right<'_>
    ensures { (left : Criterion) → joined_by result.how left (criterion_of result.operand.now) ≡ Criterion.And left (criterion_of right.now) }
{
    match right {
        Bound::Not(operand) => Right {
            how: Kept::LeftAlone,
            operand,
        },
        _ => Right {
            how: Kept::Both,
            operand: right,
        },
    }
}
