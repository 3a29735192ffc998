ghost use Rattle.std.specs.Prelude.{◌≡◌, IfOk};
ghost use Rattle.sc_query.specs.Tree.{Tree, tree_of};

use sc_record::Text as Word;
use std::alloc::{AllocError, Global};
use std::mem;

/// A query: which live documents it finds.
pub enum Query {
    /// `*:*`, every document.
    All,
    /// `field:value`, where `at` is the place of its first byte in the text, counted in bytes from 0.
    Leaf { field: Word, value: Word, at: u32 },
    /// Every document that the operand doesn't find.
    Not(Box<Query>),
    /// What both operands find.
    And(Box<Query>, Box<Query>),
    /// What one of the operands finds, or both.
    Or(Box<Query>, Box<Query>),
}

// A loop goes down the left sides. What is to the right of them waits in one box: the box of each left side that is entered
// takes its right side and what waited before. So no depth takes stack, and no step memory. Each query is looked at once, and
// each AND or OR that waits once more.
impl Drop for Query {
    fn drop(mut self) {
        let mut later: Option<Box<Query>> = None;
        loop {
            match self {
                Query::All => {}
                Query::Leaf {
                    field: _,
                    value: _,
                    at: _,
                } => {}
                Query::Not(operand) => {
                    self = Box::into_inner(operand);
                    continue;
                }
                Query::And(mut left, right) | Query::Or(mut left, right) => {
                    match later {
                        None => {
                            self = Box::into_inner(left);
                            later = Some(right);
                        }
                        Some(after) => {
                            self = mem::replace(&mut *left, Query::And(right, after));
                            later = Some(left);
                        }
                    }
                    continue;
                }
            }
            match later {
                None => return,
                Some(next) => self = Box::into_inner(next),
            }
            later = None;
        }
    }
}

/// The query that finds what both queries find.
pub fn and(alloc: Global, left: Query, right: Query) -> Result<Query, AllocError>
    ensures { IfOk result (λ query. tree_of query ≡ Tree.And (tree_of left) (tree_of right)) }
{
    let left = Box::new(alloc, left)?;
    let right = Box::new(alloc, right)?;
    Ok(Query::And(left, right))
}
