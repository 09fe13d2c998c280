//! Begins, ends and gathers.

ghost use Rattle.std.specs.Prelude.{◌≡◌, ◌<◌, false, None, IsSome, IsTrue};
ghost use Rattle.hg_base.specs.Freshness.{is_declared};
ghost use Rattle.hg_base.specs.declared.rid.Rid.{Rid};
ghost use Rattle.hg_core.specs.declared.phase.Phase.TheVariants.{Idle};
ghost use Rattle.hg_core.specs.Words.{IsBelow};
ghost use Rattle.hg_core.specs.Logs.{begans, open_in};
ghost use Rattle.hg_core.specs.Phases.{IsSession, snapshot_in};
ghost use Rattle.hg_core.specs.Passes.{IsWhole, found};
ghost use Rattle.hg_rule.specs.Facts.{record_of};
ghost use Rattle.hg_rule.specs.Views.{session, pass as own_pass};
ghost use Rattle.hg_rule.specs.Steps.{Ends, Moves};
ghost use Rattle.hg_rule.specs.Seats.{session_view, pass_view, IsSessionOf, IsPassOf};
ghost use Rattle.hg_tracker.specs.Gathers.{IsMadeFor, IsNotedOf, IsGatherOf, IsFull, IsLoaded, StandsAt, LeavesRest};
ghost use Rattle.hg_tracker.specs.Begun.{HasBegun, HasGathered, Loads};
ghost use Rattle.hg_tracker.specs.Tries.{is_long, HasMoved};

use crate::gathered::Gathered;
use hg_base::{Entry, Scope, Snapshot};
use hg_core::{Loaded, Register};
use hg_rule::{Board, CollectorPass, SessionPass};

/// The board, with calls of several steps.
#[derive(Drop)]
pub struct Trackers {
    pub(crate) board: Board,
}

impl Trackers {
    ghost use Rattle.hg_tracker.specs.Boards.{board_of, trackers_board_id, board_sizes};

    pub fn new(board: Board) -> Trackers
        ensures { board_of result ≡ board }
    {
        Trackers { board }
    }

    pub fn board(&self) -> &Board
        ensures { result.now ≡ board_of self.now }
    {
        &self.board
    }

    /// Takes a snapshot, which is in use from the last step on. It is the mark as it was loaded last, and so at or over
    /// everything that the pass had seen.
    pub fn begin(&self, pass: &mut SessionPass, scope: Scope) -> Snapshot
        requires own { IsSessionOf (trackers_board_id self.now) (board_sizes self.now) pass.old }
        requires rests { (session (session_view pass.old)).phase ≡ Idle }
        requires room { begans (session (session_view pass.old)).log <
            (board_sizes self.now).quota }
        requires tables { IsBelow (board_sizes self.now).tables scope }
        ensures begun { HasBegun (session_view pass.old) result.at scope (session_view pass.new) }
        ensures scope { result.scope ≡ scope }
        ensures own { IsSessionOf (trackers_board_id self.now) (board_sizes self.now) pass.new }
    {
        self.board.declare(pass, scope);
        let from = self.board.probe(pass);
        self.board.enter(pass, from);
        let at = self.board.fix(pass);
        self.board.go_live(pass, at, scope);
        Snapshot { at, scope }
    }

    /// Gives the snapshot back.
    pub fn end(&self, pass: &mut SessionPass)
        requires own { IsSessionOf (trackers_board_id self.now) (board_sizes self.now) pass.old }
        requires live { IsSome (snapshot_in (session (session_view pass.old)).phase) }
        requires none { (rid : Rid) → open_in rid (session (session_view pass.old)).log ≡ None }
        ensures step { Ends (session_view pass.old) (session_view pass.new) }
        ensures own { IsSessionOf (trackers_board_id self.now) (board_sizes self.now) pass.new }
    {
        self.board.end(pass);
    }
}

impl Trackers {
    ghost use Rattle.hg_tracker.specs.Boards.{trackers_board_id, board_sizes};

    // Loads a session's register, and directly after it the mask word where the register is live and declared.
    fn load(&self, pass: &mut CollectorPass, j: u32) -> Loaded
        requires own { IsPassOf (trackers_board_id self.now) pass.old }
        requires session { IsSession (board_sizes self.now).sessions j }
        requires fresh { found j (own_pass (pass_view pass.old)).loaded ≡ None }
        ensures step { Loads (pass_view pass.old) j result (pass_view pass.new) }
        ensures full { IsFull result }
        ensures own { IsPassOf (trackers_board_id self.now) pass.new }
    {
        let register = self.board.sample(pass, j);
        let mask = match register {
            Register::Live { declared: true, .. } => Some(self.board.sample_mask(pass, j)),
            _ => None,
        };
        Loaded { register, mask }
    }

    /// Loads the mark, and then of each session in order the register, and directly after it the mask word where the register is
    /// live and declared: a record of the pass, which `into` then shows.
    pub fn gather(&self, pass: &mut CollectorPass, into: &mut Gathered)
        requires own { IsPassOf (trackers_board_id self.now) pass.old }
        requires made { IsMadeFor (board_sizes self.now).sessions (board_sizes self.now).tables
            into.old }
        ensures gathered { HasGathered (pass_view pass.old) (board_sizes self.now).sessions
            (pass_view pass.new) }
        ensures whole { IsWhole (board_sizes self.now).sessions
            (record_of (own_pass (pass_view pass.new))) }
        ensures shown { IsGatherOf (board_sizes self.now).sessions (own_pass (pass_view pass.new))
            into.new }
        ensures made { IsMadeFor (board_sizes self.now).sessions (board_sizes self.now).tables
            into.new }
        ensures own { IsPassOf (trackers_board_id self.now) pass.new }
    {
        let mark = self.board.mark(pass);
        into.start(mark);
        for j in 0..into.sessions {
            let loaded = self.load(pass, j + 1);
            into.note(j + 1, loaded);
        }
        into.sum_up();
    }
}

/// Whether an entry is declared, not moved, and at least `long` commits older than the mark.
fn is_long_in_use(entry: &Entry, mark: u64, long: u64) -> bool
    ensures { result ≡ is_long mark long entry.now }
{
    let declared = match entry.scope {
        Scope::All => false,
        Scope::Declared(_) => true,
    };
    declared && !entry.moved && entry.number <= mark && mark - entry.number >= long
}

impl Trackers {
    ghost use Rattle.hg_tracker.specs.Boards.{trackers_board_id, board_sizes};

    // Tries to move the entry at a position.
    fn try_move(
        &self,
        pass: &mut CollectorPass,
        gathered: &mut Gathered,
        position: usize,
        entry: Entry,
    ) -> bool
        requires own { IsPassOf (trackers_board_id self.now) pass.old }
        requires noted { IsNotedOf (own_pass (pass_view pass.old)).mark
            (own_pass (pass_view pass.old)).loaded gathered.old }
        requires loaded { IsLoaded (board_sizes self.now).sessions
            (own_pass (pass_view pass.old)).loaded }
        requires position { StandsAt position entry gathered.old.entries.items }
        requires movable { IsTrue (is_declared entry.scope) × (entry.moved ≡ false) }
        ensures step { Moves (pass_view pass.old) entry.session entry.number result
            (pass_view pass.new) }
        ensures noted { IsNotedOf (own_pass (pass_view pass.new)).mark
            (own_pass (pass_view pass.new)).loaded gathered.new }
        ensures loaded { IsLoaded (board_sizes self.now).sessions
            (own_pass (pass_view pass.new)).loaded }
        ensures rest { LeavesRest position gathered.old gathered.new }
        ensures own { IsPassOf (trackers_board_id self.now) pass.new }
    {
        let register = Register::Live {
            number: entry.number,
            declared: true,
            moved: false,
        };
        let moved = self.board.move_one(pass, entry.session, register);
        if moved {
            gathered.entries[position].moved = true;
        }
        moved
    }
}

impl Trackers {
    ghost use Rattle.hg_tracker.specs.Boards.{trackers_board_id, board_sizes};

    /// Tries once to move each entry of this pass's last gather that is declared, not moved, and at least `long` commits
    /// older than the mark, and no other. A moved snapshot holds back only the tables that it declared. The answer counts
    /// those that were moved.
    pub fn move_long(&self, pass: &mut CollectorPass, gathered: &mut Gathered, long: u64) -> u32
        requires own { IsPassOf (trackers_board_id self.now) pass.old }
        requires made { IsMadeFor (board_sizes self.now).sessions (board_sizes self.now).tables
            gathered.old }
        requires shown { IsGatherOf (board_sizes self.now).sessions (own_pass (pass_view pass.old))
            gathered.old }
        ensures moved { HasMoved (pass_view pass.old) long result (pass_view pass.new) }
        ensures shown { IsGatherOf (board_sizes self.now).sessions (own_pass (pass_view pass.new))
            gathered.new }
        ensures made { IsMadeFor (board_sizes self.now).sessions (board_sizes self.now).tables
            gathered.new }
        ensures own { IsPassOf (trackers_board_id self.now) pass.new }
    {
        let mut count = 0;
        for position in 0..gathered.entries.len() {
            let entry = gathered.entries[position];
            if is_long_in_use(&entry, gathered.mark, long) {
                let moved = self.try_move(pass, gathered, position, entry);
                if moved {
                    count += 1;
                }
            }
        }
        gathered.sum_up();
        count
    }
}
