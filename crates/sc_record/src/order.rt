ghost use Rattle.sc_record.specs.Orders.{IsChangeOfOrder, IsChange-prop};

use crate::document::Doc;
use crate::id::Id;
use sc_values::{List, Text, Value};

/// The most orders of an update.
pub const MAX_ORDERS: usize = 4_096;

/// How an atomic update changes the values of one field (Solr Reference Guide, "Atomic Updates").
#[derive(Debug, Drop)]
pub enum How {
    /// These values in the place of those that stand; none of them removes the field.
    Set(List<Value>),
    /// These values after those that stand.
    Add(List<Value>),
    /// Of these values, in order, each that does not stand yet.
    AddDistinct(List<Value>),
    /// All values that stand and equal one of these go.
    Remove(List<Value>),
    /// The number that stands and this one together; this one where none stands.
    Inc(i64),
}

/// A change of one field of a document.
#[derive(Debug, Drop)]
pub struct FieldChange {
    pub name: Text,
    pub how: How,
}

/// What an order does to a document.
#[derive(Debug, Drop)]
pub enum Change {
    /// The document is this one from then on.
    Whole(Doc),
    /// An atomic update: these fields change and the others stay. Their names ascend by their bytes.
    Parts(List<FieldChange>),
    /// The document is deleted.
    Delete,
}

/// An order to change one document, under a condition on its version (Solr Reference Guide, "Optimistic Concurrency"):
/// 0 asks nothing, a number above 1 that the document has just this version, 1 that it is there, and a number below 0 that
/// it is not.
#[derive(Debug, Drop)]
pub struct Order {
    pub id: Id,
    pub condition: i64,
    pub change: Change,
    pub ghost lawful: { IsChangeOfOrder change } by { IsChange-prop change },
}
