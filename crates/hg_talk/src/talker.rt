//! Standard input and output as a client. It keeps the log of what passed: this is the trusted edge.

ghost use Rattle.std.specs.Prelude.{◌≡◌, ◌≤◌, ◌∷◌, []};
ghost use Rattle.hg_base.specs.Faults.{Rose};
ghost use Rattle.hg_talk.specs.Noted.{event_of};
ghost use Rattle.hg_talk.specs.Standard.{failed_calls, log_of};

use crate::client::Client;
use crate::told::{Note, ToldLog};
use hg_base::Failed;
use std::io;
use std::io::{Read, Stdin, Stdout, Write};

/// Standard input and output.
#[derive(Drop)]
pub struct StandardClient {
    input: Stdin,
    output: Stdout,
    faults: u64,
    log: ToldLog,
    // why the last call that failed did
    fault: Option<io::Error>,
}

impl StandardClient {
    /// Nothing passed yet.
    pub fn new(input: Stdin, output: Stdout) -> StandardClient
        ensures log { ⟦<StandardClient as Client>⟧.log result ≡ [] }
        ensures faults { ⟦<StandardClient as Client>⟧.faults result ≡ 0 }
    {
        StandardClient {
            input,
            output,
            faults: 0,
            log: ToldLog::new(),
            fault: None,
        }
    }

    /// The system's reason for the last call that failed, if it gave one.
    pub fn fault(&self) -> Option<&io::Error> {
        self.fault.as_ref()
    }

    // A call failed, as the note says.
    fn fail(&mut self, note: Note<'_>) -> Failed
        ensures log { log_of self.new ≡ event_of note.entry ∷ log_of self.old }
        ensures later { failed_calls self.old ≤ failed_calls self.new }
        ensures rose { Rose (failed_calls self.old) (failed_calls self.new) }
    {
        self.log = self.log.then(&note);
        self.faults = self.faults.saturating_add(1);
        Failed
    }
}

impl Client for StandardClient {
    ghost log = { log_of };

    ghost faults = { failed_calls };

    fn read(&mut self, into: &mut [u8]) -> Result<usize, Failed> {
        match self.input.read(into) {
            Ok(count) => {
                self.log = self.log.then(&Note::Read(&into[..count]));
                Ok(count)
            }
            Err(fault) => {
                self.fault = Some(fault);
                Err(self.fail(Note::ReadFailed))
            }
        }
    }

    // An output that takes nothing has ended, and that is a fault.
    fn write(&mut self, piece: &[u8]) -> Result<usize, Failed> {
        match self.output.write(piece) {
            Ok(count) if count > 0 || piece.is_empty() => {
                self.log = self.log.then(&Note::Wrote(&piece[..count]));
                Ok(count)
            }
            Ok(_) => Err(self.fail(Note::WriteFailed)),
            Err(fault) => {
                self.fault = Some(fault);
                Err(self.fail(Note::WriteFailed))
            }
        }
    }
}
