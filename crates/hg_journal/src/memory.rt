//! A file in memory, for tests: it stops after so many calls, and the call at which it stops is done in part.

ghost use Rattle.std.specs.Prelude.{◌≡◌, IfOk};
ghost use Rattle.hg_journal.specs.Memory.{memory_disk, memory_seen};

use crate::recorded::RawFile;
use hg_base::Failed;
use std::alloc::{AllocError, Global};

/// What was written, and what of it was synced.
#[derive(Drop)]
pub struct MemoryFile {
    alloc: Global,
    seen: Vec<u8>,
    disk: Vec<u8>,
    calls_left: usize,
}

impl MemoryFile {
    /// A file that contains this, all of it on the disk, for so many calls.
    pub fn new(alloc: Global, bytes: &[u8], calls_left: usize) -> Result<MemoryFile, AllocError>
        ensures seen { IfOk result (λ file. memory_seen file ≡ bytes.now) }
        ensures disk { IfOk result (λ file. memory_disk file ≡ bytes.now) }
    {
        Ok(MemoryFile {
            alloc,
            seen: Vec::from_slice(alloc, bytes)?,
            disk: Vec::from_slice(alloc, bytes)?,
            calls_left,
        })
    }

    /// What was written.
    pub fn seen(&self) -> &[u8]
        ensures { result.now ≡ memory_seen self.now }
    {
        &self.seen
    }

    /// What was on the disk at the last sync.
    pub fn disk(&self) -> &[u8]
        ensures { result.now ≡ memory_disk self.now }
    {
        &self.disk
    }

    // Whether one call more is done.
    fn goes_on(&mut self) -> bool {
        let goes_on = self.calls_left > 0;
        self.calls_left = self.calls_left.saturating_sub(1);
        goes_on
    }

    fn put(&mut self, at: usize, bytes: &[u8]) -> Result<(), AllocError> {
        let front = at.min(self.seen.len());
        let mut next = Vec::from_slice(self.alloc, &self.seen[..front])?;
        next.extend_from_slice(bytes)?;
        if next.len() < self.seen.len() {
            let rest = next.len();
            next.extend_from_slice(&self.seen[rest..])?;
        }
        self.seen = next;
        Ok(())
    }
}

impl RawFile for MemoryFile {
    fn write_at(&mut self, at: usize, bytes: &[u8]) -> Result<(), Failed> {
        let is_done = self.goes_on();
        let part = if is_done {
            bytes
        } else {
            &bytes[..bytes.len() / 2]
        };
        if self.put(at, part).is_err() || !is_done {
            return Err(Failed);
        }
        Ok(())
    }

    fn cut(&mut self, len: usize) -> Result<(), Failed> {
        if !self.goes_on() {
            return Err(Failed);
        }
        self.seen.truncate(len);
        Ok(())
    }

    fn sync(&mut self) -> Result<(), Failed> {
        if !self.goes_on() {
            return Err(Failed);
        }
        self.disk = Vec::from_slice(self.alloc, &self.seen).map_err(|_| Failed)?;
        Ok(())
    }
}
