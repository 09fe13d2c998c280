//! A line for a person.

ghost use Rattle.std.specs.Prelude.{◌≤◌, IfOk};
ghost use Rattle.hg_reason.specs.Printed.{IsOneLine};

use hg_base::NoMemory;
use std::alloc::Global;
use std::fmt;
use std::marker::Model;

/// Why a call ended as it did. Every byte is printed ASCII.
#[derive(Drop)]
pub struct Reason {
    text: Vec<u8>,
}

impl Model for Reason {
    ghost use Rattle.std.specs.Prelude.{List, ℕ};
    ghost use Rattle.hg_reason.specs.Printed.{IsOneLine};

    ghost Value = { List ℕ };

    ghost view = { λ r. r.text.items };

    ghost invariant = { λ r. IsOneLine r.text.items };
}

// The byte, or a question mark in place of one that is not printed.
fn printed(b: u8) -> u8
    ensures { (32 ≤ result) × (result ≤ 126) }
{
    if b >= 32 && b <= 126 { b } else { b'?' }
}

impl Reason {
    /// The text, with a question mark in place of each byte that is not printed ASCII.
    pub fn new(alloc: Global, text: &str) -> Result<Reason, NoMemory>
        ensures line { IfOk result IsOneLine }
    {
        let text = text.as_bytes().iter().map(|b| printed(*b)).collect(alloc)?;
        Ok(Reason { text })
    }
}

impl fmt::Display for Reason {
    ghost use Rattle.std.specs.Prelude.{Some};

    ghost output = { λ reason. Some reason };

    fn fmt<W: fmt::Write>(&self, f: &mut fmt::Formatter<W>) -> fmt::Result {
        match str::from_utf8(&self.text) {
            Ok(text) => f.write_str(text),
            Err(_) => unreachable!(),
        }
    }
}
