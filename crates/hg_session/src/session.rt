//! A session: how its transactions begin and end, and whom it meets.

ghost use Rattle.std.specs.Prelude.{◌≡◌, ◌+◌, ◌<◌, ◌≤◌, ◌∷◌, [], is_some, false, Some, None, IsSome, IfOk, IfSome, OnOk, OnErr};
ghost use Rattle.hg_base.specs.declared.statement.Statement.TheVariants as say;
ghost use Rattle.hg_base.specs.declared.line.Answer.TheVariants.{Begun, Undone};
ghost use Rattle.hg_base.specs.Faults.{next_count};
ghost use Rattle.hg_base.specs.Lists.{Each};
ghost use Rattle.hg_core.specs.declared.log.LogEntry.TheVariants.{Began, Over};
ghost use Rattle.hg_core.specs.declared.phase.Phase.TheVariants.{Idle};
ghost use Rattle.hg_core.specs.Logs.{begans};
ghost use Rattle.hg_core.specs.Words.{IsBelow};
ghost use Rattle.hg_rule.specs.Agreed.{AgreesWith, IsMet};
ghost use Rattle.hg_rule.specs.Moves.{joined, merged, meeting};
ghost use Rattle.hg_rule.specs.Seats.{pass_view, session_view, IsPassOf, IsSessionOf};
ghost use Rattle.hg_rule.specs.Views.{session, HasOnlySession};
ghost use Rattle.hg_tracker.specs.Begun.{AtMost};
ghost use Rattle.hg_session.specs.declared.engine.Engine.{Engine};
ghost use Rattle.hg_session.specs.Engines.{engine_board_id, engine_sizes};
ghost use Rattle.hg_session.specs.Sessions.{IsIn, IsOf, pass_of, view_of, number_of, seen_by, open_of, cursor_of, left_of, retries_of, opened_of, written_of};
ghost use Rattle.hg_session.specs.Frames.{KeepsCounts, KeepsCursor, SpendsOne, SpendsNone};
ghost use Rattle.hg_session.specs.Replies.{Answers, inside, commit_answer};
ghost use Rattle.hg_session.specs.Gains.{Gains, HasPlace, receipt_number};

use crate::answers::Ended;
use crate::commit::commit_open;
use crate::engine::Engine;
use crate::rollback::undo_open;
use hg_base::{NoMemory, Scope, Snapshot};
use hg_cursor::Cursor;
use hg_group::RidList;
use hg_rule::{CollectorPass, SessionPass};
use std::alloc::Global;
use std::sync::Wait;

/// A session's place at an engine. Its transactions are numbered from 1, those that are one statement among them.
#[derive(Drop)]
pub struct Session {
    pub(crate) pass: SessionPass,
    // The snapshot of the open transaction, and the records that this one wrote.
    pub(crate) opened: Option<Snapshot>,
    pub(crate) written: RidList,
    // Where it is open, the open transaction is the cursor's.
    pub(crate) cursor: Option<Cursor>,
    pub(crate) left: u64,
    pub(crate) retries: u64,
    pub(crate) alloc: Global,
}

impl Session {
    // Takes a snapshot.
    pub(crate) fn open(&mut self, engine: &Engine, scope: Scope) -> Snapshot
        requires own { IsIn engine.now 1 1 self.old }
        requires closed { open_of self.old ≡ None }
        requires tables { IsBelow (engine_sizes engine.now).tables scope }
        ensures gains { Gains (view_of self.old) (Began result.at scope ∷ []) (view_of self.new) }
        ensures scope { result.scope ≡ scope }
        // the snapshot is at or over all that was seen
        ensures fresh { Each (AtMost result.at) (seen_by self.old) }
        ensures opened { (opened_of self.new ≡ Some result) × (written_of self.new ≡ []) }
        ensures kept { KeepsCounts self.old self.new }
        ensures own { IsIn engine.now 0 1 self.new }
    {
        let snapshot = engine.trackers().begin(&mut self.pass, scope);
        self.opened = Some(snapshot);
        snapshot
    }

    // Ends the open transaction, which wrote nothing.
    pub(crate) fn end(&mut self, engine: &Engine)
        requires own { IsIn engine.now 0 0 self.old }
        requires opened { IsSome (opened_of self.old) }
        requires unwritten { written_of self.old ≡ [] }
        ensures gains { Gains (view_of self.old) (Over ∷ []) (view_of self.new) }
        ensures over { opened_of self.new ≡ None }
        ensures kept { KeepsCounts self.old self.new }
        ensures own { IsIn engine.now 0 0 self.new }
    {
        engine.trackers().end(&mut self.pass);
        self.opened = None;
    }

    // One statement of those that are left.
    pub(crate) fn spend(&mut self)
        requires left { 0 < left_of self.old }
        ensures own { (e : Engine) → IsOf e self.old → IsOf e self.new }
        // the statement may begin a transaction and write a record
        ensures may { (e : Engine) → IsOf e self.old → cursor_of self.old ≡ None →
            IsIn e 1 1 self.new }
        ensures kept { (view_of self.new ≡ view_of self.old) ×
            (opened_of self.new ≡ opened_of self.old) ×
            (written_of self.new ≡ written_of self.old) }
        ensures cursor { cursor_of self.new ≡ cursor_of self.old }
        ensures left { left_of self.new + 1 ≡ left_of self.old }
        ensures retries { retries_of self.new ≡ retries_of self.old }
    {
        self.left -= 1;
    }

    /// Whether a transaction is open. An open cursor has one.
    pub fn is_open(&self) -> bool
        ensures { (e : Engine) → IsOf e self.now → result ≡ is_some (open_of self.now) }
    {
        self.opened.is_some()
    }

    /// How many statements the session may still run. A commit or rollback does not count, nor does closing a cursor.
    pub fn left(&self) -> u64
        ensures { result ≡ left_of self.now }
    {
        self.left
    }

    /// How many commits were refused for want of memory. The count stays at its last value once it is full.
    pub fn retries(&self) -> u64
        ensures { result ≡ retries_of self.now }
    {
        self.retries
    }

    /// Begins a transaction, and returns its snapshot. It allocates nothing and takes no lock. An open cursor would be an open
    /// transaction, so none is open.
    pub fn begin(&mut self, engine: &Engine, scope: Scope) -> u64
        requires own { IsOf engine.now self.old }
        requires closed { open_of self.old ≡ None }
        requires left { 0 < left_of self.old }
        requires tables { IsBelow (engine_sizes engine.now).tables scope }
        ensures answers { Answers (engine_sizes engine.now) (view_of self.old) (say.Begin scope)
            (inside (Begun result)) (view_of self.new) }
        ensures open { open_of self.new ≡ Some (record { at = result; scope = scope }) }
        ensures cursor { cursor_of self.new ≡ None }
        // one statement is counted
        ensures spent { SpendsOne engine.now self.old self.new }
    {
        self.spend();
        self.open(engine, scope).at
    }

    /// Commits the open transaction. One that wrote nothing has no receipt, and uses no number. A refusal leaves it open, with
    /// all its writes, and is counted.
    pub fn commit<R: Wait>(&mut self, rt: &R, engine: &Engine) -> Result<Ended, NoMemory>
        requires own { IsOf engine.now self.old }
        requires opened { IsSome (open_of self.old) }
        requires cursor { cursor_of self.old ≡ None }
        ensures answers { IfOk result (λ ended.
            Answers (engine_sizes engine.now) (view_of self.old) say.Commit
            (inside (commit_answer (receipt_number ended.receipt))) (view_of self.new)) }
        ensures refused { OnErr result (Gains (view_of self.old) [] (view_of self.new) ×
            (open_of self.new ≡ open_of self.old)) }
        // the receipt's place is the commit's, in a history that was seen
        ensures placed { IfOk result
            (λ ended. IfSome ended.receipt (HasPlace (view_of self.old) (view_of self.new))) }
        ensures over { OnOk result (open_of self.new ≡ None) }
        ensures retries { OnOk result (retries_of self.new ≡ retries_of self.old) }
        ensures again { OnErr result (retries_of self.new ≡ next_count (retries_of self.old)) }
        // no cursor is open, and no statement is counted
        ensures stays { SpendsNone engine.now self.old self.new }
    {
        match self.opened {
            Some(snapshot) => match commit_open(rt, engine, self, snapshot) {
                Ok(receipt) => Ok(Ended { receipt }),
                Err(NoMemory) => {
                    self.retries = self.retries.saturating_add(1);
                    Err(NoMemory)
                }
            },
            None => unreachable!(),
        }
    }

    /// Takes every write of the open transaction back, and ends it. No memory is taken.
    pub fn rollback<R: Wait>(&mut self, rt: &R, engine: &Engine)
        requires own { IsOf engine.now self.old }
        requires opened { IsSome (open_of self.old) }
        requires cursor { cursor_of self.old ≡ None }
        ensures answers { Answers (engine_sizes engine.now) (view_of self.old) say.Rollback
            (inside Undone) (view_of self.new) }
        ensures over { open_of self.new ≡ None }
        ensures retries { retries_of self.new ≡ retries_of self.old }
        // no cursor is open, and no statement is counted
        ensures stays { SpendsNone engine.now self.old self.new }
    {
        undo_open(rt, engine, self);
    }

    /// Afterwards each has seen what either had seen.
    pub fn meet(&mut self, engine: &Engine, other: &mut Session)
        requires own { IsOf engine.now self.old × IsOf engine.now other.old }
        // some state of the board backs what both know
        ensures backed { IsMet (engine_sizes engine.now)
            (joined (view_of self.old) (view_of other.old)) }
        ensures view { view_of self.new ≡ meeting (view_of self.old) (view_of other.old) }
        ensures other { view_of other.new ≡ meeting (view_of other.old) (view_of self.new) }
        ensures kept { KeepsCursor self.old self.new × KeepsCursor other.old other.new }
        ensures own { IsOf engine.now self.new × IsOf engine.now other.new }
    {
        self.pass.meet(engine.board(), &mut other.pass);
    }

    /// Afterwards each has seen what either had seen. What the pass did and loaded agrees with the session's log and phase.
    pub fn meet_pass(&mut self, engine: &Engine, pass: &mut CollectorPass)
        requires own { IsOf engine.now self.old × IsPassOf (engine_board_id engine.now) pass.old }
        // some state of the board backs what both know
        ensures backed { IsMet (engine_sizes engine.now)
            (joined (pass_view pass.old) (view_of self.old)) }
        // what the pass loaded of the session is what the session's log shows
        ensures agrees { AgreesWith (pass_view pass.old) (number_of self.old)
            (session (view_of self.old)) }
        ensures pass { pass_view pass.new ≡ meeting (pass_view pass.old) (view_of self.old) }
        ensures view { view_of self.new ≡ meeting (view_of self.old) (pass_view pass.new) }
        ensures kept { left_of self.new ≡ left_of self.old }
        ensures cursor { cursor_of self.new ≡ cursor_of self.old }
        ensures retries { retries_of self.new ≡ retries_of self.old }
        ensures own { IsOf engine.now self.new × IsPassOf (engine_board_id engine.now) pass.new }
    {
        pass.meet(engine.board(), &mut self.pass);
    }

    /// Its part of the state goes to a collector's pass for good, which then knows what it had seen and done.
    pub fn finish(self, engine: &Engine, pass: &mut CollectorPass)
        requires own { IsOf engine.now self × IsPassOf (engine_board_id engine.now) pass.old }
        requires closed { open_of self ≡ None }
        // some state of the board backs what both know
        ensures backed { IsMet (engine_sizes engine.now) (pass_view pass.new) }
        ensures view { pass_view pass.new ≡ merged (pass_view pass.old) (view_of self) }
        ensures own { IsPassOf (engine_board_id engine.now) pass.new }
    {
        let Session { pass: seat, .. } = self;
        seat.finish(engine.board(), pass);
    }

    /// Gives up the session for its pass, which rests: it has no snapshot and holds nothing of the board. It may begin as many
    /// transactions as the session had statements left.
    pub fn into_pass(self) -> SessionPass
        requires closed { open_of self ≡ None }
        ensures same { result ≡ pass_of self }
        ensures own { (e : Engine) → IsOf e self →
            IsSessionOf (engine_board_id e) (engine_sizes e) result }
        ensures only { (e : Engine) → IsOf e self → HasOnlySession (session_view result) }
        ensures idle { (e : Engine) → IsOf e self → (session (session_view result)).phase ≡ Idle }
        ensures unstamped { (e : Engine) → IsOf e self →
            (session (session_view result)).stamped ≡ false }
        ensures begins { (e : Engine) → IsOf e self →
            begans (session (session_view result)).log + left_of self ≤ (engine_sizes e).quota }
    {
        let Session { pass, .. } = self;
        pass
    }
}
