//! A file of the operating system. Each method makes the one call that a record notes of it: this is the trusted edge.

ghost use Rattle.std.specs.Prelude.{◌≡◌, [], ◌∷◌, true, IfOk};
ghost use Rattle.hg_journal.specs.Calls.{Opens};
ghost use Rattle.hg_journal.specs.Recorded.{calls_of};

use crate::recorded::{RawFile, Recorded};
use hg_base::Failed;
use std::fs::{self, File, OpenOptions, TryLockError};
use std::io::{self, Read};
use std::os::unix::fs::FileExt;

/// Why a file was not opened.
#[derive(Drop)]
pub enum FileError {
    Io(io::Error),
    /// Another program has it open as its journal.
    Busy,
}

impl From<io::Error> for FileError {
    fn from(error: io::Error) -> FileError {
        FileError::Io(error)
    }
}

/// An open file, which no other program has locked.
#[derive(Drop)]
pub struct SystemFile {
    file: File,
    fault: Option<io::Error>,
}

impl SystemFile {
    /// Why the last call failed that did.
    pub fn fault(&self) -> Option<&io::Error> {
        self.fault.as_ref()
    }

    fn answer(&mut self, answer: io::Result<()>) -> Result<(), Failed> {
        match answer {
            Ok(()) => Ok(()),
            Err(fault) => {
                self.fault = Some(fault);
                Err(Failed)
            }
        }
    }
}

impl RawFile for SystemFile {
    fn write_at(&mut self, at: usize, bytes: &[u8]) -> Result<(), Failed> {
        let answer = self.file.write_all_at(bytes, at as u64);
        self.answer(answer)
    }

    fn cut(&mut self, len: usize) -> Result<(), Failed> {
        let answer = self.file.set_len(len as u64);
        self.answer(answer)
    }

    fn sync(&mut self) -> Result<(), Failed> {
        let answer = self.file.sync_data();
        self.answer(answer)
    }
}

// Syncs the file and its folder. It is trusted that what is read after that is on the disk, which not every system ensures if a sync of an
// earlier program failed.
fn settle(rt: &HostRuntime, file: &File, path: &str) -> io::Result<()> {
    file.sync_all()?;
    let mut folder = fs::canonicalize(rt, path)?;
    folder.pop();
    File::open(rt, folder.as_str())?.sync_all()
}

/// Opens a file, or makes it, locks it, and reads it whole once it is on the disk.
pub fn open_file(rt: &HostRuntime, path: &str) -> Result<(Recorded<SystemFile>, Vec<u8>), FileError>
    ensures { IfOk result (λ opened. calls_of opened.0 ≡ (Opens opened.1.items, true) ∷ []) }
{
    let mut file = OpenOptions::new()
        .read(true)
        .write(true)
        .create(true)
        .open(rt, path)?;
    match file.try_lock() {
        Ok(()) => {}
        Err(TryLockError::WouldBlock) => return Err(FileError::Busy),
        Err(TryLockError::Error(error)) => return Err(FileError::Io(error)),
    }
    settle(rt, &file, path)?;
    let mut bytes = Vec::new(rt.alloc());
    file.read_to_end(&mut bytes)?;
    let file = SystemFile { file, fault: None };
    Ok((Recorded::new(file, &bytes), bytes))
}
