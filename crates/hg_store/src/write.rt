//! What a session does in a bucket that it holds: it looks, writes, takes a write back, and as a leader stamps one. Each call makes its
//! step in the same call.

ghost use Rattle.std.specs.Prelude.{◌≡◌, ℕ, suc, ◌<◌, length, not, is_some, IsTrue, IfOk, IfErr, false};
ghost use Rattle.hg_base.specs.Transcript.{has};
ghost use Rattle.hg_core.specs.declared.ask.Ask.TheVariants.{Read};
ghost use Rattle.hg_core.specs.Logs.{wrotes, is_plain, open_in, is_in};
ghost use Rattle.hg_core.specs.Versions.{IsOpenBy};
ghost use Rattle.hg_core.specs.Contents.{bucket_of};
ghost use Rattle.hg_rule.specs.Views.{number, session};
ghost use Rattle.hg_rule.specs.Holding.{HasBoth, farther, commit_behind, held, tables, writer as writer_of, snapshot as snapshot_of};
ghost use Rattle.hg_rule.specs.Writes.{Looks, Undoes};
ghost use Rattle.hg_rule.specs.Seats.{sizes_of, session_view};
ghost use Rattle.hg_rule.specs.Handing.{AreLent, members, who, part_of, writer_at, Stamps};
ghost use Rattle.hg_store.specs.Stores.{held_number};
ghost use Rattle.hg_store.specs.Passes.{IsHolding, IsLeaderHolding, IsSameBucket, IsInTransaction};
ghost use Rattle.hg_store.specs.Writing.{Writes, IsAnothers};

use crate::held::Held;
use hg_base::{Image, Rid, TableId, Writer};
use hg_bucket::WriteRefusal;
use hg_rule::{Ask, Board, SessionPass};
use std::snapshot::Snapshot;

/// Whose statement a write is, and the snapshot at which it reads.
#[derive(Clone, Copy)]
pub struct Author {
    pub writer: Writer,
    pub snapshot: u64,
}

impl<'a> Held<'a> {
    /// One look: the rows of the range in this bucket are logged.
    pub fn see(&self, board: &Board, pass: &mut SessionPass, table: TableId, low: u64, high: u64)
        requires holds { IsHolding board.now pass.old self.now }
        requires open { IsInTransaction (session (session_view pass.old)) }
        requires table { IsTrue (has (tables (session_view pass.old)) table) }
        ensures step { (mark : ℕ) ×
            Looks (session_view pass.old) (Read table low high) mark (session_view pass.new) }
        ensures holds { IsHolding board.now pass.new self.now }
    {
        board.look(pass, &Ask::Read { table, low, high });
    }

    /// Takes the transaction's open write of a record back.
    pub fn undo(&mut self, board: &Board, pass: &mut SessionPass, rid: Rid, by: Writer)
        requires holds { IsHolding board.now pass.old self.old }
        requires unstamped { (session (session_view pass.old)).stamped ≡ false }
        requires here { bucket_of (sizes_of board.now).buckets rid ≡ held_number self.old }
        requires by { by ≡ writer_of (session_view pass.old) }
        requires mine { IsOpenBy (writer_of (session_view pass.old))
            (held (session_view pass.old) rid) }
        ensures step { Undoes (session_view pass.old) rid (session_view pass.new) }
        ensures holds { IsHolding board.now pass.new self.new × IsSameBucket self.old self.new }
    {
        self.bucket.undo(rid, by);
        board.undo(pass, rid);
    }

    /// Gives an open write of a transaction that was handed over to the pass the number that the mark will have next. The
    /// committer's part was joined before the bucket's.
    pub fn stamp(
        &mut self,
        board: &Board,
        pass: &mut SessionPass,
        rid: Rid,
        by: Writer,
        number: u64,
    )
        requires holds { IsLeaderHolding board.now pass.old self.old }
        // what was handed over comes right after the committer's part, the writer's own among it
        requires received { AreLent (farther (session_view pass.old)) ×
            IsTrue (is_in (who (members (farther (session_view pass.old)))) by.session) }
        requires plain { IsTrue
            (is_plain (part_of by.session (members (farther (session_view pass.old)))).log) }
        requires here { bucket_of (sizes_of board.now).buckets rid ≡ held_number self.old }
        // the pass has the committer's part as well as the bucket's
        requires both { HasBoth (session_view pass.old) }
        requires next { number ≡ suc (length (commit_behind (session_view pass.old)).history.list) }
        requires by { by ≡ writer_at by.session (members (farther (session_view pass.old))) }
        requires mine { IsOpenBy by (held (session_view pass.old) rid) }
        ensures step { Stamps (session_view pass.old) by.session rid number
            (session_view pass.new) }
        ensures holds { IsLeaderHolding board.now pass.new self.new ×
            IsSameBucket self.old self.new × (pass.new.number ≡ pass.old.number) }
    {
        board.look_at(pass);
        self.bucket.stamp(rid, by, number);
        board.stamp(pass, by.session, rid, number);
    }

    /// Writes an image for the session's open transaction. One look loads the mark, and where the answer is Ok, one install
    /// follows. The answer says whether a version was added: none is where the transaction wrote the record before.
    pub fn write(
        &mut self,
        board: &Board,
        pass: &mut SessionPass,
        rid: Rid,
        image: Image,
        author: Author,
    ) -> Result<bool, WriteRefusal>
        requires holds { IsHolding board.now pass.old self.old }
        requires open { IsInTransaction (session (session_view pass.old)) }
        requires here { bucket_of (sizes_of board.now).buckets rid ≡ held_number self.old }
        requires table { IsTrue (has (tables (session_view pass.old)) rid.table) ×
            (rid.table.0 < (sizes_of board.now).tables) }
        requires room { wrotes (session (session_view pass.old)).log < (sizes_of board.now).quota }
        // the words passed are those of the session's own transaction
        requires words { (author.writer ≡ writer_of (session_view pass.old)) ×
            (author.snapshot ≡ snapshot_of (session_view pass.old)) }
        ensures step { Writes (session_view pass.old) rid image result (session_view pass.new) }
        ensures added { IfOk result (λ added.
            added ≡ not (is_some (open_in rid (session (session_view pass.old)).log))) }
        ensures owner { IfErr result
            (IsAnothers (sizes_of board.now) (number (session_view pass.old))) }
        ensures holds { IsHolding board.now pass.new self.new × IsSameBucket self.old self.new }
    {
        let mark = board.look(pass, &Ask::Write(rid));
        let written = Snapshot::of(&image);
        let Author { writer, snapshot } = author;
        let added = self.bucket.write(rid, image, snapshot, mark, writer)?;
        board.install(pass, rid, written);
        Ok(added)
    }
}
