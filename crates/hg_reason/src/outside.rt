//! What can be done where a call ended for memory, for its input or for its output.

use crate::reason::Reason;
use hg_base::{MOST_SCRIPT_BYTES, NoMemory};
use hg_streams::MOST_AUDIT_BYTES;
use std::alloc::Global;

/// What a call ran out of.
#[derive(Clone, Copy, PartialEq, Eq)]
pub enum Lack {
    Memory,
    /// Of memory, in a conversation.
    LiveMemory,
    /// The input is longer than a script may be.
    Bytes,
    /// So is the script of an audit.
    AuditedBytes,
    /// The input of an audit is longer than it may be.
    Input,
    Statements,
}

/// What can be done about it.
pub fn advise(alloc: Global, lack: Lack) -> Result<Reason, NoMemory> {
    match lack {
        Lack::Memory => Reason::new(
            alloc,
            "take a smaller script, or hold fewer versions: shorter transactions and cursors, and more --rounds in a run",
        ),
        Lack::LiveMemory => Reason::new(
            alloc,
            "hold fewer versions: end transactions and cursors soon, and leave out --rounds 0",
        ),
        Lack::Bytes => {
            let text = format!(in alloc;
                "the input goes on after {MOST_SCRIPT_BYTES} bytes; divide it, or send it to hybridgc live, where its length has no limit"
            )?;
            Reason::new(alloc, text.as_str())
        }
        Lack::AuditedBytes => {
            let text = format!(in alloc;
                "the script is what comes before the line ====, and may have {MOST_SCRIPT_BYTES} bytes"
            )?;
            Reason::new(alloc, text.as_str())
        }
        Lack::Input => {
            let text = format!(in alloc;
                "script and output together may have {MOST_AUDIT_BYTES} bytes; divide the script, and audit each output"
            )?;
            Reason::new(alloc, text.as_str())
        }
        Lack::Statements => Reason::new(
            alloc,
            "a session has at most 17179869184 statements in one conversation; begin another one",
        ),
    }
}
