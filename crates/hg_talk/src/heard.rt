//! What a host is given to answer.

use csv::ByteRecord;

/// What a host is given to answer: a record, or that one had more bytes than a record may have.
#[derive(Clone, Copy, Drop)]
pub enum Heard<'a> {
    Record(&'a ByteRecord),
    Long,
}
