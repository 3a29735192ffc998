use sc_values::Text;

/// What a document is found by: a field and a key in it (Lucene, "Term"). Terms ascend by field, then by key.
#[derive(Debug, Drop, PartialEq, Eq, PartialOrd, Ord)]
pub struct Term {
    pub field: Text,
    pub key: Text,
}
