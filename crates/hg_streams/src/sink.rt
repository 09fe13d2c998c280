//! Writing a text to a sink.

ghost use Rattle.std.specs.Prelude.{ℕ, ◌<◌, length, take, OnOk, OnErr};
ghost use Rattle.hg_base.specs.Faults.{HasCause};
ghost use Rattle.hg_streams.specs.Streams.{Took, change_of};

use hg_base::{Failed, Sink};

/// Writes a text, each write given the whole rest of it. Where the sink fails, it has taken a front of the text.
pub fn write_all<S: Sink>(sink: &mut S, text: &[u8]) -> Result<(), Failed>
    ensures done { OnOk result (Took (change_of S.flow sink.old sink.new) text.now) }
    ensures part { OnErr result ((n : ℕ) × (n < length text.now) ×
        Took (change_of S.flow sink.old sink.new) (take n text.now)) }
    ensures cause { HasCause (S.flow sink.old).faults (S.flow sink.new).faults result }
{
    let mut at = 0;
    while at < text.len() {
        at += sink.write(&text[at..])?;
    }
    Ok(())
}
