//! The bytes of a script, as a reason shows them.

use hg_base::NoMemory;
use std::alloc::Global;
use std::fmt::Write;

// Of more bytes the first so many are shown.
const MOST_SHOWN: usize = 40;

fn add_shown(text: &mut String, b: u8) -> Result<(), NoMemory> {
    match b {
        b'\n' => text.push_str("\\n")?,
        b'\r' => text.push_str("\\r")?,
        b'\t' => text.push_str("\\t")?,
        32..=126 => text.push(char::from(b))?,
        _ => write!(text, "\\x{b:02x}")?,
    }
    Ok(())
}

/// Whether all bytes are printed ASCII.
pub(crate) fn is_shown_as_it_is(bytes: &[u8]) -> bool {
    bytes.iter().all(|b| *b >= 32 && *b <= 126)
}

/// The bytes, those that are not printed ASCII by their codes. Of more than 40 the first 40 and two dots.
pub(crate) fn shown(alloc: Global, bytes: &[u8]) -> Result<String, NoMemory> {
    let mut text = String::new(alloc);
    for b in bytes.iter().take(MOST_SHOWN) {
        add_shown(&mut text, *b)?;
    }
    if bytes.len() > MOST_SHOWN {
        text.push_str("..")?;
    }
    Ok(text)
}
