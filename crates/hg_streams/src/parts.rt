//! The parts of a source: a script, and a text after it.

ghost use Rattle.std.specs.Prelude.{ℕ, ◌+◌, ◌≤◌, length, Decides, IfSome, IsTrue};
ghost use Rattle.std.specs.Option.{MatchOption};
ghost use Rattle.hg_streams.specs.Parting.{AreParts, IsFirstAt, IsLineAt};

// Whether the line that parts a source follows the first `k` bytes.
fn is_line_at(bytes: &[u8], k: usize) -> bool
    requires { k ≤ length bytes.now }
    ensures line { Decides result (IsLineAt bytes.now k) }
    ensures within { IsTrue result → k + 5 ≤ length bytes.now }
{
    if k > 0 && bytes[k - 1] != b'\n' {
        return false;
    }
    bytes[k..].starts_with(b"====\n")
}

fn find_line(bytes: &[u8]) -> Option<usize>
    ensures first { MatchOption result ((k : ℕ) → ¬ IsLineAt bytes.now k) (IsFirstAt bytes.now) }
    ensures within { IfSome result (λ k. k + 5 ≤ length bytes.now) }
{
    for k in 0..bytes.len() {
        if is_line_at(bytes, k) {
            return Some(k);
        }
    }
    None
}

/// The script before the first such line and the text after it. Without one all bytes are the script.
pub fn part(bytes: &[u8]) -> (&[u8], &[u8])
    ensures { AreParts bytes.now result.0.now result.1.now }
{
    match find_line(bytes) {
        Some(k) => (&bytes[..k], &bytes[k + 5..]),
        None => (bytes, &[]),
    }
}
