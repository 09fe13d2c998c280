//! What the rows of a scan have in common.

ghost use Rattle.std.specs.Prelude.{◌≡◌, ◌≤◌, ◌++◌, OnOk, codes, decimal, drop, length, map};
ghost use Rattle.hg_base.specs.declared.value.Value.TheVariants.{Number};
ghost use Rattle.hg_base.specs.Text.{row_fields};
ghost use Rattle.hg_records.specs.Bytes.{field_bytes, further_bytes, record_bytes};
ghost use Rattle.hg_transcript.specs.Piece.{behind};

use crate::number_fields::{put_number, put_values};
use crate::record::write_row;
use hg_base::{NoMemory, Row};
use itoa::write_digits;

// A session, a place and the word of a row take no more bytes.
const START_ROOM: usize = 48;

// That start, a key, two numbers and the end of a record take no more bytes.
const RECORD_ROOM: usize = 128;

/// What the record of each row of a scan begins with: it is written once for all of them. It lies at the end of its bytes.
#[derive(Drop)]
pub(crate) struct RowStart {
    session: u32,
    place: u64,
    bytes: [u8; START_ROOM],
    from: usize,
    ghost begun: { (from ≤ 48) × (drop from bytes ≡ (field_bytes (decimal session) ++ further_bytes (decimal place)) ++ further_bytes (codes "row")) },
}

impl RowStart {
    pub fn new(session: u32, place: u64) -> RowStart
        ensures { (result.session ≡ session) × (result.place ≡ place) }
    {
        let mut bytes = [0; START_ROOM];
        bytes[START_ROOM - 4..].copy_from_slice(b",row");
        let after = put_number(place, &mut bytes, START_ROOM - 4);
        let from = write_digits(u64::from(session), &mut bytes, after);
        RowStart {
            session,
            place,
            bytes,
            from,
        }
    }

    // Writes itself so that it ends at `end`, and returns where it starts.
    fn put(&self, bytes: &mut [u8], end: usize) -> usize
        requires { (48 ≤ end) × (end ≤ length bytes.old) }
        ensures written { drop result bytes.new ≡
            ((field_bytes (decimal self.now.session) ++ further_bytes (decimal self.now.place)) ++
            further_bytes (codes "row")) ++ drop end bytes.old }
        ensures within { result ≤ end }
        ensures long { length bytes.new ≡ length bytes.old }
    {
        bytes[end - START_ROOM..end].copy_from_slice(&self.bytes);
        end - START_ROOM + self.from
    }

    // Adds the record of one row of so few numbers that the record lies on the stack.
    fn write_short(&self, text: &mut Vec<u8>, key: u64, values: &[i64]) -> Result<(), NoMemory>
        requires { length values.now ≤ 2 }
        ensures { OnOk result (text.new.items ≡
            text.old.items ++
            record_bytes (behind self.now.session self.now.place
            (row_fields (key, map Number values.now)))) }
    {
        let mut record = [0; RECORD_ROOM];
        record[RECORD_ROOM - 1] = b'\n';
        let after = put_values(values, &mut record, RECORD_ROOM - 1);
        let after = put_number(key, &mut record, after);
        let start = self.put(&mut record, after);
        text.extend_from_slice(&record[start..])?;
        Ok(())
    }

    /// Adds the record of one row.
    pub fn write(&self, text: &mut Vec<u8>, key: u64, row: &Row) -> Result<(), NoMemory>
        ensures { OnOk result (text.new.items ≡
            text.old.items ++
            record_bytes
            (behind self.now.session self.now.place (row_fields (key, row.now)))) }
    {
        match row.numbers() {
            Some(values) if values.len() <= 2 => self.write_short(text, key, values),
            _ => write_row(text, self.session, self.place, key, row),
        }
    }
}
