//! Why a call ended as it did.

use crate::help::page_of;
use crate::outside::{Lack, advise};
use crate::reason::Reason;
use crate::script::explain_script;
use crate::verdict::explain_verdict;
use crate::words::explain_words;
use hg_base::NoMemory;
use hg_streams::{Status, part};
use hg_words::asks_to_talk;
use std::alloc::Global;
use std::{fmt, io};

/// What is known of a call after its end.
#[derive(Clone, Copy)]
pub struct Call<'a> {
    pub words: &'a [String],
    /// What was read, if the call handed it back.
    pub given: Option<&'a [u8]>,
    /// The system's reason for the last fault of the input or of the output.
    pub fault: Option<&'a io::Error>,
}

/// What is said of a call's end, after its status: lines.
#[derive(Drop)]
pub enum Why {
    Reason(Reason),
    Page(&'static str),
}

impl fmt::Display for Why {
    fn fmt<W: fmt::Write>(&self, f: &mut fmt::Formatter<W>) -> fmt::Result {
        match self {
            Why::Reason(reason) => writeln!(f, "{reason}"),
            Why::Page(page) => f.write_str(page),
        }
    }
}

impl<'a> Call<'a> {
    /// A call with these words, which handed nothing back.
    pub fn of(words: &'a [String]) -> Call<'a> {
        Call {
            words,
            given: None,
            fault: None,
        }
    }
}

fn is_audit(words: &[String]) -> bool {
    words.iter().any(|word| word.as_str() == "audit")
}

// The script among the bytes that were read.
fn script_in<'a>(words: &[String], bytes: &'a [u8]) -> &'a [u8] {
    if is_audit(words) {
        part(bytes).0
    } else {
        bytes
    }
}

// The system's reason.
fn explain_fault(
    alloc: Global,
    stream: &str,
    fault: Option<&io::Error>,
) -> Result<Option<Reason>, NoMemory> {
    let Some(fault) = fault else {
        return Ok(None);
    };
    let text = format!(in alloc; "{stream}: {fault}")?;
    Ok(Some(Reason::new(alloc, text.as_str())?))
}

fn lack_of(words: &[String]) -> Lack {
    if asks_to_talk(words) {
        Lack::LiveMemory
    } else {
        Lack::Memory
    }
}

fn lack_of_bytes(words: &[String]) -> Lack {
    if is_audit(words) {
        Lack::AuditedBytes
    } else {
        Lack::Bytes
    }
}

// The reason of a status, if there is more to say than the status does.
fn reason_of(alloc: Global, call: &Call<'_>, status: Status) -> Result<Option<Reason>, NoMemory> {
    match status {
        Status::Done => match call.given {
            Some(bytes) => explain_verdict(alloc, bytes),
            None => Ok(None),
        },
        Status::Usage => Ok(Some(explain_words(alloc, call.words)?)),
        Status::BadScript { line, code } => match call.given {
            Some(bytes) => explain_script(alloc, script_in(call.words, bytes), line, code),
            None => Ok(None),
        },
        Status::ReadFault => explain_fault(alloc, "standard input", call.fault),
        Status::WriteFault => explain_fault(alloc, "standard output", call.fault),
        Status::TooLong => Ok(Some(advise(alloc, lack_of_bytes(call.words))?)),
        Status::LongInput => Ok(Some(advise(alloc, Lack::Input)?)),
        Status::NoMemory => Ok(Some(advise(alloc, lack_of(call.words))?)),
        Status::Spent => Ok(Some(advise(alloc, Lack::Statements)?)),
    }
}

/// What there is to say of a call that ended so, besides its status.
pub fn explain(alloc: Global, call: &Call<'_>, status: Status) -> Result<Option<Why>, NoMemory> {
    if status == Status::Usage {
        if let Some(page) = page_of(call.words) {
            return Ok(Some(Why::Page(page)));
        }
    }
    match reason_of(alloc, call, status)? {
        Some(reason) => Ok(Some(Why::Reason(reason))),
        None => Ok(None),
    }
}
