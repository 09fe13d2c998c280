//! Where records are in the bytes of a script.

use csv::ByteRecord;

/// A byte of a script, and the line that it is on. Lines end as editors count them: in a line feed, a carriage return, or both.
#[derive(Drop)]
pub(crate) struct Spot<'a> {
    bytes: &'a [u8],
    at: usize,
    line: u64,
}

fn ends_line(bytes: &[u8], i: usize) -> bool {
    match bytes.get(i) {
        Some(b'\n') => true,
        Some(b'\r') => bytes[i..].get(1) != Some(&b'\n'),
        _ => false,
    }
}

fn is_end(b: u8) -> bool {
    b == b'\n' || b == b'\r'
}

// Where the first record at or after a byte begins: empty lines come before it, and at the start maybe a byte order mark.
fn start_of(bytes: &[u8], from: usize) -> usize {
    let marked = from == 0 && bytes.starts_with(b"\xef\xbb\xbf");
    let from = if marked { 3 } else { from };
    let rest = bytes.get(from..).unwrap_or(&[]);
    from.saturating_add(rest.iter().take_while(|b| is_end(**b)).count())
}

// The bytes up to the end of the line.
fn first_line(bytes: &[u8]) -> &[u8] {
    match bytes.iter().position(|b| is_end(*b)) {
        Some(end) => &bytes[..end],
        None => bytes,
    }
}

impl<'a> Spot<'a> {
    pub(crate) fn new(bytes: &'a [u8]) -> Spot<'a> {
        Spot {
            bytes,
            at: 0,
            line: 1,
        }
    }

    /// Goes on to where the record begins.
    pub(crate) fn go_to(&mut self, row: &ByteRecord) {
        let from = match row.position() {
            Some(position) => position.byte() as usize,
            None => self.at,
        };
        let to = start_of(self.bytes, from);
        for i in self.at..to {
            if ends_line(self.bytes, i) {
                self.line = self.line.saturating_add(1);
            }
        }
        self.at = to;
    }

    /// Counted from 1.
    pub(crate) fn line(&self) -> u64 {
        self.line
    }

    /// The bytes from here to the end of the line.
    pub(crate) fn text(&self) -> &'a [u8] {
        let rest = self.bytes.get(self.at..).unwrap_or(&[]);
        first_line(rest)
    }
}
