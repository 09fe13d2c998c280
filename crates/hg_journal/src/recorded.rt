//! A file of which nothing is known, as a device: what it holds is what its calls and their answers say.

ghost use Rattle.std.specs.Prelude.{◌≡◌, [], ◌∷◌, is_ok, length, not, true, IsOk, IsTrue};
ghost use Rattle.hg_journal.specs.Asked.{asked};
ghost use Rattle.hg_journal.specs.Calls.{Opens, LeftSince, MayLeave, all_done, all_within, alone_now, counted_now, faults_in, is_within, seen_after, stops_at_fault};

use crate::calls::{Ask, Call, ToldCalls};
use crate::device::Device;
use hg_base::Failed;

/// The calls of a file, each done or failed.
pub trait RawFile {
    /// All the bytes, at this place.
    fn write_at(&mut self, at: usize, bytes: &[u8]) -> Result<(), Failed>;

    fn cut(&mut self, len: usize) -> Result<(), Failed>;

    /// What was done is on the disk.
    fn sync(&mut self) -> Result<(), Failed>;
}

/// A file, and its calls so far. Once a call has failed, no more is asked of the file: each call fails.
#[derive(Drop)]
pub struct Recorded<F> {
    file: F,
    told: ToldCalls,
    is_broken: bool,
    ghost within: { IsTrue (all_within told.calls) },
    ghost broken: { is_broken ≡ not (all_done told.calls) },
    ghost stopped: { IsTrue (stops_at_fault told.calls) },
}

impl<F> Recorded<F> {
    ghost use Rattle.hg_journal.specs.Recorded.{calls_of, file_of};

    /// A file that was found to contain this, on the disk.
    pub fn new(file: F, bytes: &[u8]) -> Recorded<F>
        ensures calls { calls_of result ≡ (Opens bytes.now, true) ∷ [] }
        ensures file { file_of result ≡ file }
    {
        Recorded {
            file,
            told: ToldCalls::new().then(&Call {
                ask: Ask::Open { bytes },
                is_done: true,
            }),
            is_broken: false,
        }
    }

    /// The file itself.
    pub fn file(&self) -> &F
        ensures { result.now ≡ file_of self.now }
    {
        &self.file
    }

    // Notes a call and its answer.
    fn note(&mut self, ask: Ask<'_>, answer: Result<(), Failed>) -> Result<(), Failed>
        requires within { IsTrue (is_within (asked ask) (seen_after (calls_of self.old))) }
        requires stopped { IsOk answer → IsTrue (all_done (calls_of self.old)) }
        ensures answer { result ≡ answer }
        ensures noted { calls_of self.new ≡ (asked ask.entry, is_ok answer) ∷ calls_of self.old }
    {
        self.is_broken = answer.is_err();
        self.told = self.told.then(&Call {
            ask,
            is_done: answer.is_ok(),
        });
        answer
    }
}

impl<F: RawFile> Device for Recorded<F> {
    ghost seen = { λ r. seen_after r.told.calls };

    ghost may_leave = { λ r. MayLeave r.told.calls };

    ghost moment = { λ r. length r.told.calls };

    ghost left_since = { λ r. LeftSince r.told.calls };

    ghost faults = { λ r. faults_in r.told.calls };

    ghost counts_now = { λ r t c le now. counted_now r.told.calls t c now };

    ghost only_now = { λ r c left. alone_now r.told.calls c left };

    fn write_at(&mut self, at: usize, bytes: &[u8]) -> Result<(), Failed> {
        let answer = if self.is_broken {
            Err(Failed)
        } else {
            self.file.write_at(at, bytes)
        };
        self.note(Ask::Write { at, bytes }, answer)
    }

    fn replace(&mut self, at: usize, byte: u8) -> Result<(), Failed> {
        let answer = if self.is_broken {
            Err(Failed)
        } else {
            self.file.write_at(at, &[byte])
        };
        self.note(Ask::Replace { at, byte }, answer)
    }

    fn cut(&mut self, len: usize) -> Result<(), Failed> {
        let answer = if self.is_broken {
            Err(Failed)
        } else {
            self.file.cut(len)
        };
        self.note(Ask::Cut { len }, answer)
    }

    fn sync(&mut self) -> Result<(), Failed> {
        let answer = if self.is_broken {
            Err(Failed)
        } else {
            self.file.sync()
        };
        self.note(Ask::Sync, answer)
    }
}
