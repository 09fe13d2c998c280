//! Bytes that lie in a row.

ghost use Rattle.std.specs.Prelude.{◌≡◌, ◌≤◌, length};
ghost use Rattle.hg_base.specs.declared.inline.TheConstants.{ROOM};

use std::marker::Model;

pub(crate) const ROOM: usize = 23;

/// From 0 to 23 bytes. They begin where a word does, since `words` has none, so a row is copied word by word whatever it holds.
#[derive(Debug, Drop)]
pub(crate) struct Inline {
    words: [u64; 0],
    bytes: [u8; ROOM],
    len: u8,
}

impl Model for Inline {
    ghost use Rattle.std.specs.Prelude.{List, ℕ, ◌≤◌, take};
    ghost use Rattle.hg_base.specs.declared.inline.TheConstants.{ROOM};

    ghost Value = { List ℕ };

    ghost view = { λ a. take a.len a.bytes };

    ghost invariant = { λ a. a.len ≤ ROOM };
}

impl Inline {
    pub(crate) fn from_slice(bytes: &[u8]) -> Inline
        requires { length bytes.now ≤ ROOM }
        ensures { result ≡ bytes.now }
    {
        let mut copied = [0; ROOM];
        copied[..bytes.len()].copy_from_slice(bytes);
        Inline {
            words: [],
            bytes: copied,
            len: bytes.len() as u8,
        }
    }

    pub(crate) fn as_bytes(&self) -> &[u8]
        ensures { result.now ≡ self.now }
    {
        &self.bytes[..self.len as usize]
    }

    pub(crate) fn copy(&self) -> Inline
        ensures { result ≡ self.now }
    {
        Inline {
            words: [],
            bytes: self.bytes,
            len: self.len,
        }
    }
}
