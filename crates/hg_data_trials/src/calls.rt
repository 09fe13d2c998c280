//! Calls on one record's versions, as words with numbers after them.
//!
//!     put                       a row of its number
//!     undo                      one that is undone
//!     see:BOUND                 what a reader sees
//!     cut:BOUND
//!     sweep:HORIZON:LOW:HIGH    with two snapshots
//!
//! A put is committed with the number of its call.
//!
//! A text that is written here is cut short where memory runs out, and an image without its row is a deletion: then it isn't the text
//! that is wanted, and the test fails. So these functions have one way out, and are proved quickly.

use hg_base::{Image, Row, Writer};
use std::alloc::Global;

pub(crate) const BY: Writer = Writer {
    session: 1,
    transaction: 1,
};

#[derive(Clone, Copy)]
pub(crate) enum Call {
    Put,
    Undo,
    See(u64),
    Cut(u64),
    Sweep(u64, u64, u64),
}

pub(crate) fn word_number(word: Option<&str>) -> u64 {
    match word {
        Some(digits) => digits.parse().unwrap_or(0),
        None => 0,
    }
}

pub(crate) fn call_of(text: &str) -> Option<Call> {
    let mut words = text.split(':');
    let word = words.next().unwrap_or("");
    let first = word_number(words.next());
    let second = word_number(words.next());
    let third = word_number(words.next());
    match word {
        "put" => Some(Call::Put),
        "undo" => Some(Call::Undo),
        "see" => Some(Call::See(first)),
        "cut" => Some(Call::Cut(first)),
        "sweep" => Some(Call::Sweep(first, second, third)),
        _ => None,
    }
}

// A row of the number.
pub(crate) fn image(alloc: Global, number: u64) -> Image {
    let row = Row::from_slice(alloc, &[number.min(999) as i64]).ok();
    Image { row }
}
