//! The call of a conversation.
//!
//!     client -> hg_talk: read a piece, frame its records -> Talk: judge, answer -> hg_talk: write the answers, and only then read on
//!
//! `IsConversation` says what a conversation is, whatever the client sends in whatever pieces: the first records of what it sent were answered
//! by what is conversed (`conversed` of hg_exact), nothing was withheld (`IsNotWithheld` of hg_talk), and it ended with a cause (`EndsWith`).

ghost use Rattle.std.specs.Prelude.{◌≡◌, ℕ, List, [], None, map, string_bytes};
ghost use Rattle.hg_words.specs.Live.{live_options_of};
ghost use Rattle.hg_words.specs.Options.{AreWithin};
ghost use Rattle.hg_run.specs.Conversing.{IsConversation, WritesLast, status_of_trouble};
ghost use Rattle.hg_run.specs.Serving.{IsUnlessNoMemory};

use crate::talk::Talk;
use hg_base::{Failed, NoMemory, Totals};
use hg_streams::Status;
use hg_talk::{Client, Stop, Trouble, write_all};
use hg_transcript::totals_text;
use hg_words::{Options, read_live_words};
use std::alloc::Global;
use std::sync::Wait;
use std::thread::Threads;

// The status where a conversation was stopped.
fn status_of(trouble: Trouble) -> Status
    ensures { result ≡ status_of_trouble trouble }
{
    match trouble {
        Trouble::Read => Status::ReadFault,
        Trouble::Write => Status::WriteFault,
        Trouble::NoMemory | Trouble::Stopped(Stop::NoMemory) => Status::NoMemory,
        Trouble::Stopped(Stop::Spent) => Status::Spent,
    }
}

// Writes the last answers, and then the totals.
fn write_last<C: Client>(alloc: Global, client: &mut C, text: &[u8], totals: &Totals) -> Status
    ensures { WritesLast (C.log client.old) (C.log client.new) (C.faults client.old)
        (C.faults client.new) text.now totals.now result }
{
    match write_all(client, text) {
        Ok(()) => {}
        Err(Failed) => return Status::WriteFault,
    }
    let mut last = Vec::new(alloc);
    match totals_text(alloc, totals, &mut last) {
        Ok(()) => {}
        Err(NoMemory) => return Status::NoMemory,
    }
    match write_all(client, &last) {
        Ok(()) => Status::Done,
        Err(Failed) => Status::WriteFault,
    }
}

// A conversation with these options.
fn talk<R: Threads + Wait + Sync, C: Client>(
    rt: &R,
    alloc: Global,
    options: &Options,
    client: &mut C,
) -> Status
    requires within { AreWithin options.now }
    requires new { C.log client.old ≡ [] }
    ensures { (words : List (List ℕ)) →
        IsConversation words (C.log client.new) (C.faults client.old) (C.faults client.new)
        result }
{
    let Ok(mut host) = Talk::new(alloc, options) else {
        return Status::NoMemory;
    };
    let mut text = Vec::new(alloc);
    let ended = hg_talk::converse(rt, alloc, client, &mut host, &mut text);
    let totals = host.end(rt);
    match ended {
        Ok(()) => write_last(alloc, client, &text, &totals),
        Err(trouble) => status_of(trouble),
    }
}

/// Answers a client record by record, as long as it sends, and at the end writes the totals. The words are those of the command line.
pub fn converse<R: Threads + Wait + Sync, C: Client>(
    rt: &R,
    alloc: Global,
    words: &[String],
    client: &mut C,
) -> Status
    requires { C.log client.old ≡ [] }
    ensures conversation { IsConversation (map string_bytes words.now) (C.log client.new)
        (C.faults client.old) (C.faults client.new) result }
    ensures refused { live_options_of (map string_bytes words.now) ≡ None →
        IsUnlessNoMemory result Status.Usage }
{
    match read_live_words(alloc, words) {
        Ok(options) => talk(rt, alloc, &options, client),
        Err(refusal) => Status::from(refusal),
    }
}
