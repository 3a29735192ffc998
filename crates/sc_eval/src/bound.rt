use sc_snapshot::TermKey;
use std::mem;

/// A query whose leaves are bound to fields: which live documents it finds.
pub enum Bound {
    /// Every document.
    All,
    /// Every document that is found by the term of the key, which is made once for all searchers.
    Leaf(TermKey),
    /// Every document that the operand doesn't find.
    Not(Box<Bound>),
    /// What both operands find.
    And(Box<Bound>, Box<Bound>),
    /// What one of the operands finds, or both.
    Or(Box<Bound>, Box<Bound>),
}

// A loop goes down the left sides. What is to the right of them waits in one box: the box of each left side that is entered
// takes its right side and what waited before. So no depth takes stack, and no step memory.
impl Drop for Bound {
    fn drop(mut self) {
        let mut later: Option<Box<Bound>> = None;
        loop {
            match self {
                Bound::All => {}
                Bound::Leaf(_) => {}
                Bound::Not(operand) => {
                    self = Box::into_inner(operand);
                    continue;
                }
                Bound::And(mut left, right) | Bound::Or(mut left, right) => {
                    match later {
                        None => {
                            self = Box::into_inner(left);
                            later = Some(right);
                        }
                        Some(after) => {
                            self = mem::replace(&mut *left, Bound::And(right, after));
                            later = Some(left);
                        }
                    }
                    continue;
                }
            }
            match later {
                None => return,
                Some(next) => self = Box::into_inner(next),
            }
            later = None;
        }
    }
}
