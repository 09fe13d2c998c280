//! Writing a text to a client.

ghost use Rattle.std.specs.Prelude.{◌≡◌, ◌++◌, List, ℕ, OnErr, OnOk};
ghost use Rattle.hg_base.specs.Faults.{HasCause};
ghost use Rattle.hg_talk.specs.Events.{Event, HasWritten, WriteFailed, IsNewest};

use crate::client::Client;
use hg_base::Failed;

/// Writes a text, each write given the whole rest of it. If the client fails, it has taken a prefix of the text.
pub fn write_all<C: Client>(client: &mut C, text: &[u8]) -> Result<(), Failed>
    ensures done { OnOk result (HasWritten (C.log client.old) (C.log client.new) text.now) }
    ensures part { OnErr result ((first : List ℕ) × (later : List ℕ) ×
        (text.now ≡ first ++ later) ×
        HasWritten (C.log client.old) (C.log client.new) first) }
    ensures last { OnErr result (IsNewest WriteFailed (C.log client.new)) }
    ensures cause { HasCause (C.faults client.old) (C.faults client.new) result }
{
    let mut at = 0;
    while at < text.len() {
        at += client.write(&text[at..])?;
    }
    Ok(())
}
