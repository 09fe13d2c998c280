//! Short texts.

ghost use Rattle.std.specs.Prelude.{◌≡◌, ◌<◌, ◌≤◌, IfNone, IfSome, length};
ghost use Rattle.hg_base.specs.declared.limits.TheConstants.{MOST_TEXT_BYTES};

use crate::limits::MOST_TEXT_BYTES;
use std::marker::Model;

/// From 0 to 64 bytes, of any values: they need not be UTF-8. They lie in the value itself, and take no block of the heap.
#[derive(Drop)]
pub struct Text {
    bytes: [u8; MOST_TEXT_BYTES],
    len: u8,
}

impl Model for Text {
    ghost use Rattle.std.specs.Prelude.{List, ℕ, ◌≤◌, take};
    ghost use Rattle.hg_base.specs.declared.limits.TheConstants.{MOST_TEXT_BYTES};

    ghost Value = { List ℕ };

    ghost view = { λ t. take t.len t.bytes };

    ghost invariant = { λ t. t.len ≤ MOST_TEXT_BYTES };
}

impl Text {
    /// The text of these bytes, where they are not more than 64.
    pub fn from_slice(bytes: &[u8]) -> Option<Text>
        ensures some { IfSome result
            (λ text. (text ≡ bytes.now) × (length bytes.now ≤ MOST_TEXT_BYTES)) }
        ensures none { IfNone result (MOST_TEXT_BYTES < length bytes.now) }
    {
        if bytes.len() > MOST_TEXT_BYTES {
            return None;
        }
        let mut copied = [0; MOST_TEXT_BYTES];
        copied[..bytes.len()].copy_from_slice(bytes);
        Some(Text {
            bytes: copied,
            len: bytes.len() as u8,
        })
    }

    pub fn as_bytes(&self) -> &[u8]
        ensures same { result.now ≡ self.now }
        ensures most { length self.now ≤ MOST_TEXT_BYTES }
    {
        &self.bytes[..self.len as usize]
    }

    /// The same text. No memory is taken.
    pub fn copy(&self) -> Text
        ensures { result ≡ self.now }
    {
        Text {
            bytes: self.bytes,
            len: self.len,
        }
    }
}
