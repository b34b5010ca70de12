//! Names with an open tail.

use dns_data::{Label, Name};

/// A known name and, where there is a tail, a label directly below it: then it stands for every name of an open class
/// in the same place.
#[derive(Debug, Drop)]
pub struct SymName {
    pub known: Name,
    pub tail: Option<Label>,
}
