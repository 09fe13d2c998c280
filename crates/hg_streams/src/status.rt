//! How a call ended.

ghost use Rattle.std.specs.Prelude.{◌≡◌};
ghost use Rattle.hg_streams.specs.Status.{exit_code_of};

use crate::limits::MOST_AUDIT_BYTES;
use crate::source::ReadError;
use hg_base::{MOST_SCRIPT_BYTES, NoMemory};
use hg_script::{Code, ScriptRefusal};
use hg_words::WordsRefusal;
use std::fmt;

/// How a call ended. No call of `serve` ends with `Spent`.
#[derive(Clone, Copy, Debug, PartialEq, Eq)]
pub enum Status {
    /// The whole text was written.
    Done,
    /// The words ask for nothing that there is.
    Usage,
    /// The first record that breaks a rule, counted from 1, and the rule.
    BadScript { line: u64, code: Code },
    ReadFault,
    WriteFault,
    /// The script has more bytes than a script may have.
    TooLong,
    /// The input of an audit has more bytes than it may have.
    LongInput,
    NoMemory,
    /// A conversation has had as many statements or records as it may.
    Spent,
}

impl Status {
    /// The exit status of the program.
    pub fn exit_code(&self) -> u8
        ensures { result ≡ exit_code_of self.now }
    {
        match self {
            Status::Done => 0,
            Status::Usage => 2,
            Status::BadScript { .. } => 3,
            Status::ReadFault => 4,
            Status::WriteFault => 5,
            Status::TooLong => 6,
            Status::NoMemory => 7,
            Status::Spent => 8,
            Status::LongInput => 9,
        }
    }
}

// What the program says of it: nothing of `Done`.
impl fmt::Display for Status {
    ghost use Rattle.std.specs.Prelude.{Some};
    ghost use Rattle.hg_streams.specs.Status.{said_of};

    ghost output = { λ status. Some (said_of status) };

    fn fmt<W: fmt::Write>(&self, f: &mut fmt::Formatter<W>) -> fmt::Result {
        match self {
            Status::Done => Ok(()),
            Status::Usage => f.write_str(
                "usage: hybridgc replay or run or load SEED or audit or dump, with --buckets N, --long N, --rounds N, --sweepers N",
            ),
            Status::BadScript { line, code } => write!(f, "script record {line}: {code}"),
            Status::ReadFault => f.write_str("read fault"),
            Status::WriteFault => f.write_str("write fault"),
            Status::TooLong => write!(f, "script longer than {MOST_SCRIPT_BYTES} bytes"),
            Status::LongInput => write!(f, "input longer than {MOST_AUDIT_BYTES} bytes"),
            Status::NoMemory => f.write_str("out of memory"),
            Status::Spent => f.write_str("no statement left"),
        }
    }
}

impl From<WordsRefusal> for Status {
    ghost use Rattle.std.specs.Prelude.{◌≡◌};
    ghost use Rattle.hg_streams.specs.Status.{status_of_words};

    ghost from_gives = { λ e s. s ≡ status_of_words e };

    fn from(e: WordsRefusal) -> Status {
        match e {
            WordsRefusal::Usage => Status::Usage,
            WordsRefusal::NoMemory => Status::NoMemory,
        }
    }
}

impl From<ReadError> for Status {
    ghost use Rattle.std.specs.Prelude.{◌≡◌};
    ghost use Rattle.hg_streams.specs.Status.{status_of_read};

    ghost from_gives = { λ e s. s ≡ status_of_read e };

    fn from(e: ReadError) -> Status {
        match e {
            ReadError::Fault => Status::ReadFault,
            ReadError::TooLong => Status::TooLong,
            ReadError::NoMemory => Status::NoMemory,
        }
    }
}

impl From<ScriptRefusal> for Status {
    ghost use Rattle.std.specs.Prelude.{◌≡◌};
    ghost use Rattle.hg_streams.specs.Status.{status_of_script};

    ghost from_gives = { λ e s. s ≡ status_of_script e };

    fn from(e: ScriptRefusal) -> Status {
        match e {
            ScriptRefusal::At { line, code } => Status::BadScript { line, code },
            ScriptRefusal::NoMemory => Status::NoMemory,
        }
    }
}

impl From<NoMemory> for Status {
    ghost use Rattle.std.specs.Prelude.{◌≡◌};
    ghost use Rattle.hg_streams.specs.declared.status.Status.TheVariants as status;

    ghost from_gives = { λ _ s. s ≡ status.NoMemory };

    fn from(_: NoMemory) -> Status {
        Status::NoMemory
    }
}
