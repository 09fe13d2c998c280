//! The lines of a text with the records that they answer.

ghost use Rattle.std.specs.Prelude.{◌≡◌, ℕ, ◌+◌, ◌<◌, ◌^◌, [], List, get_or, length, take, IfOk, OnOk};
ghost use Rattle.hg_base.specs.Lists.{Each, EachAfter, onto};
ghost use Rattle.hg_base.specs.Transcript as script;
ghost use Rattle.hg_base.specs.Transcript.{said_from};
ghost use Rattle.hg_known.specs.Ended.{IsOpen};
ghost use Rattle.hg_known.specs.Lines.{said_of, HasRest, OpensKnown};

use crate::said::{Last, Said, read_line};
use crate::sequence::Sequence;
use hg_base::{Line, NoMemory, Reply};
use std::alloc::Global;
use std::collections::BTreeMap;
use std::marker::Model;

/// Lines and the records that they answer, of which there are as many. Clauses see each line with the transaction that it
/// belongs to.
#[derive(Drop)]
pub struct Lines<'a> {
    sequence: &'a Sequence<'a>,
    lines: &'a [Line],
}

impl<'a> Model for Lines<'a> {
    ghost use Rattle.std.specs.Prelude.{◌≡◌, ◌<◌, ◌^◌, [], List, length};
    ghost use Rattle.hg_base.specs.Lists.{Each};
    ghost use Rattle.hg_base.specs.Transcript.{Said, said_from};
    ghost use Rattle.hg_known.specs.Lines.{OpensKnown};

    ghost Value = { List Said };

    ghost view = { λ l. said_from [] l.sequence.now l.lines.now };

    ghost invariant = { λ l. (length l.sequence.now ≡ length l.lines.now)
        × (length l.lines.now < 2 ^ 62) × Each (λ r. OpensKnown r.statement) l.sequence.now };
}

impl<'a> Lines<'a> {
    pub fn new(sequence: &'a Sequence<'a>, lines: &'a [Line]) -> Lines<'a>
        requires same { length sequence.now ≡ length lines.now }
        requires few { length lines.now < 2 ^ 62 }
        requires known { Each (λ r. OpensKnown r.statement) sequence.now }
        ensures said { result ≡ said_from [] sequence.entry.now lines.entry.now }
        ensures open { EachAfter IsOpen [] result }
    {
        Lines { sequence, lines }
    }

    pub fn len(&self) -> usize
        ensures same { result ≡ length self.now }
        ensures few { result < 2 ^ 62 }
    {
        self.lines.len()
    }

    /// The reply of line k, which can be had without the lines before it.
    pub fn reply(&self, k: usize) -> &'a Reply
        requires { k < length self.now }
        ensures { (said : script.Said) → said ≡ get_or self.now k said → result.now ≡ said.reply }
    {
        let lines = self.lines;
        &lines[k].reply
    }

    /// Goes over them, from the first on. It takes no memory.
    pub fn reader(&self, alloc: Global) -> Reader<'_>
        ensures { result ≡ (0, self.now) }
    {
        Reader {
            all: self,
            at: 0,
            lasts: BTreeMap::new(alloc),
        }
    }
}

/// Goes over lines, and keeps what each leaves to its session's next. Clauses see how many were read, and all lines.
#[derive(Drop)]
pub struct Reader<'a> {
    all: &'a Lines<'a>,
    at: usize,
    lasts: BTreeMap<u32, Last>,
}

impl<'a> Model for Reader<'a> {
    ghost use Rattle.std.specs.Prelude.{ℕ, [], List, take};
    ghost use Rattle.hg_base.specs.Lists.{onto};
    ghost use Rattle.hg_base.specs.Transcript.{Said};
    ghost use Rattle.hg_known.specs.Lines.{AreLasts, AreRests, ReachTo};

    ghost Value = { ℕ × List Said };

    ghost view = { λ r. (r.at, r.all.now) };

    ghost invariant = { λ r. AreLasts r.lasts (onto (take r.at r.all.now) [])
        × AreRests r.lasts (onto (take r.at r.all.now) []) × ReachTo r.at r.lasts };
}

impl<'a> Reader<'a> {
    /// The next line.
    pub fn read(&mut self) -> Result<Said<'a>, NoMemory>
        requires { self.old.0 < length self.old.1 }
        ensures said { IfOk result
            (λ said. said_of said ≡ get_or self.old.1 self.old.0 (said_of said)) }
        ensures rest { IfOk result (λ said. HasRest (onto (take self.old.0 self.old.1) []) said) }
        ensures next { OnOk result (self.new ≡ (self.old.0 + 1, self.old.1)) }
    {
        let all = self.all;
        let record = all.sequence.record(self.at)?;
        let reply = all.reply(self.at);
        let said = read_line(&mut self.lasts, record, reply)?;
        self.at += 1;
        Ok(said)
    }
}
