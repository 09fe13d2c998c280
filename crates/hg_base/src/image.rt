//! What a version holds.

use crate::row::Row;

/// A row, or none where the record is deleted.
#[derive(Debug, Drop)]
pub struct Image {
    pub row: Option<Row>,
}
