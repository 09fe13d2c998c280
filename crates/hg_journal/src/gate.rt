//! Where the records of a file end.

ghost use Rattle.std.specs.Prelude.{◌≡◌, ◌<◌, length, IfSome, option_map};
ghost use Rattle.hg_journal.specs.Gate.{before_gate, next};
ghost use Rattle.hg_journal.specs.declared.gate.Place.TheVariants.{Start};

/// Where a byte of a script stands.
#[derive(Clone, Copy, Debug, PartialEq, Eq)]
pub enum Place {
    /// It begins a record.
    Start,
    Within,
    /// Between quotes.
    Quoted,
}

impl Place {
    fn next(self, byte: u8) -> Place
        ensures { result ≡ next self byte }
    {
        match (self, byte) {
            (Place::Quoted, b'"') => Place::Within,
            (Place::Quoted, _) => Place::Quoted,
            (_, b'"') => Place::Quoted,
            (_, b'\n') => Place::Start,
            _ => Place::Within,
        }
    }
}

/// How many bytes come before the gate, where the file has one.
pub fn find_gate(file: &[u8]) -> Option<usize>
    ensures gate { result ≡ option_map length (before_gate Start file.now) }
    ensures within { IfSome result (λ n. n < length file.now) }
{
    let mut place = Place::Start;
    for (n, byte) in file.iter().enumerate() {
        if place == Place::Start && *byte == b'\n' {
            return Some(n);
        }
        place = place.next(*byte);
    }
    None
}
