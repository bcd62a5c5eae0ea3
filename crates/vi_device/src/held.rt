//! One domain.
use crate::table::Table;

/// A domain that exists, with the table of its mappings.
#[derive(Drop)]
pub struct Held {
    pub id: u32,
    pub bypass: bool,
    pub table: Table,
}
