//! A file of whole records, to which groups of records are added.

ghost use Rattle.std.specs.Prelude.{◌≡◌, ◌+◌, ◌<◌, ◌≤◌, ◌^◌, ◌++◌, length, OnOk, IfOk, IfErr, IsErr, IsErrOf};
ghost use Rattle.hg_base.specs.Faults.{Rose};
ghost use Rattle.hg_journal.specs.Device.{LeavesOnly, Only};
ghost use Rattle.hg_journal.specs.Gate.{IsNoJournal, IsWhole, at_rest, kept};
ghost use Rattle.hg_journal.specs.Journal.{IsOpen, KeepsWithOrWithout};

use crate::device::Device;
use crate::gate::find_gate;
use crate::synced::{cut, extend, replace};
use hg_base::Failed;

// How long a journal may be.
const MOST_BYTES: usize = 1 << 60;

/// Why a group was not added.
#[derive(Clone, Copy, Debug, PartialEq, Eq)]
pub enum AppendError {
    Failed,
    Full,
}

impl From<Failed> for AppendError {
    ghost use Rattle.hg_journal.specs.declared.journal.AppendError.TheVariants as error;

    ghost from_gives = { λ _ e. e ≡ error.Failed };

    fn from(_: Failed) -> AppendError {
        AppendError::Failed
    }
}

/// Why a file was not opened.
#[derive(Clone, Copy, Debug, PartialEq, Eq)]
pub enum OpenError {
    Failed,
    /// It is no journal, and was not touched.
    NoJournal,
}

impl From<Failed> for OpenError {
    ghost use Rattle.hg_journal.specs.declared.journal.OpenError.TheVariants as error;

    ghost from_gives = { λ _ e. e ≡ error.Failed };

    fn from(_: Failed) -> OpenError {
        OpenError::Failed
    }
}

/// A device, and where its gate is.
#[derive(Drop)]
pub struct Journal<D: Device> {
    pub device: D,
    pub end: usize,
}

impl<D: Device> Journal<D> {
    /// Opens a file that a crash may have left, of which `file` was read. It may crash too, at any moment. An `Err` hands it back.
    pub fn open(mut device: D, file: &[u8]) -> Result<Journal<D>, (OpenError, D)>
        requires read { file.now ≡ D.seen device }
        // After a restart, what is read is what is on the disk.
        requires durable { Only (D.seen device) (D.may_leave device) }
        ensures open { IfOk result (λ journal. IsOpen D.seen D.may_leave journal) }
        ensures same { IfOk result (λ journal. kept (D.seen journal.device) ≡ kept file.now) }

        // A crash at any moment of the call leaves a file that keeps the same.
        ensures any_moment { IfOk result (λ journal. LeavesOnly D.moment D.left_since device journal.device
            (λ c. kept c ≡ kept file.now)) }
        ensures any_moment_err { IfErr result (λ e. LeavesOnly D.moment D.left_since device e.1
            (λ c. kept c ≡ kept file.now)) }

        // It does not give up by itself, and touches no file that is no journal.
        ensures failed { IfErr result (λ e. e.0 ≡ OpenError.Failed → Rose (D.faults device) (D.faults e.1)) }
        ensures refused { IfErr result (λ e. e.0 ≡ OpenError.NoJournal →
            IsNoJournal file.now × (e.1 ≡ device)) }
        ensures other { IsNoJournal file.now → IsErr result }
    {
        match repair(&mut device, file) {
            Ok(end) => Ok(Journal { device, end }),
            Err(error) => Err((error, device)),
        }
    }

    /// Adds a group of whole records. At `Ok` it is acknowledged: from then on each crash leaves a file that keeps it. At `Err`, open
    /// the file again.
    pub fn append(&mut self, group: &[u8]) -> Result<(), AppendError>
        requires open { IsOpen D.seen D.may_leave self.old }
        requires group { IsWhole group.now }
        ensures acknowledged { OnOk result (IsOpen D.seen D.may_leave self.new) }
        ensures added { OnOk result
            (kept (D.seen self.new.device) ≡ kept (D.seen self.old.device) ++ group.now) }

        // A crash at any moment of the call leaves what was kept, with the whole group or without it.
        ensures any_moment { LeavesOnly D.moment D.left_since self.old.device self.new.device
            (KeepsWithOrWithout (kept (D.seen self.old.device)) group.now) }

        // It does not give up by itself.
        ensures failed { IsErrOf result AppendError.Failed →
            Rose (D.faults self.old.device) (D.faults self.new.device) }
        ensures full { IsErrOf result AppendError.Full → 2 ^ 60 < self.old.end + length group.now }
    {
        if self.end > MOST_BYTES || group.len() > MOST_BYTES - self.end {
            return Err(AppendError::Full);
        }
        let Some((first, rest)) = group.split_first() else {
            return Ok(());
        };
        // Behind the closed gate first, so that a crash in here leaves what was kept.
        extend(&mut self.device, self.end + 1, rest)?;
        // The first byte opens the gate.
        replace(&mut self.device, self.end, *first)?;
        self.end += group.len();
        Ok(())
    }
}

// Repairs the end of a file that a crash may have left, and finds its gate.
fn repair<D: Device>(device: &mut D, file: &[u8]) -> Result<usize, OpenError>
    requires read { file.now ≡ D.seen device.old }
    // After a restart, what is read is what is on the disk.
    requires durable { Only (D.seen device.old) (D.may_leave device.old) }
    ensures end { IfOk result (λ end. end ≡ length (kept file.now)) }
    ensures at_rest { OnOk result (D.seen device.new ≡ at_rest (kept file.now)) }
    ensures same { OnOk result (kept (D.seen device.new) ≡ kept file.now) }
    ensures durable { OnOk result (Only (D.seen device.new) (D.may_leave device.new)) }

    // A crash at any moment leaves a file that keeps the same.
    ensures any_moment { LeavesOnly D.moment D.left_since device.old device.new
        (λ c. kept c ≡ kept file.now) }
    ensures failed { IsErrOf result OpenError.Failed →
        Rose (D.faults device.old) (D.faults device.new) }
    ensures refused { IsErrOf result OpenError.NoJournal →
        IsNoJournal file.now × (device.new ≡ device.old) }
    ensures other { IsNoJournal file.now → IsErrOf result OpenError.NoJournal }
{
    match find_gate(file) {
        Some(end) => {
            cut(device, end + 1)?;
            Ok(end)
        }
        None if file.len() > 1 => Err(OpenError::NoJournal),
        None => {
            cut(device, 0)?;
            extend(device, 0, b"")?;
            Ok(0)
        }
    }
}
