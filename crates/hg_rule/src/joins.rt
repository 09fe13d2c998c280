//! The joins and splits of passes: two passes meet, a session's part is given up for good, and a collector's pass becomes two that are
//! united again.

ghost use Rattle.std.specs.Prelude.{◌≡◌, ◌<◌, ◌≤◌, length};
ghost use Rattle.hg_core.specs.declared.phase.Phase.TheVariants.{Idle};
ghost use Rattle.hg_rule.specs.Rules.{IsBacked};
ghost use Rattle.hg_rule.specs.Views.{number, session, pass as own_pass, HasOnlySession};
ghost use Rattle.hg_rule.specs.Moves.{joined, merged, meeting};
ghost use Rattle.hg_rule.specs.Sharing.{HasOnlyPass, branch, halved, united};
ghost use Rattle.hg_rule.specs.Agreed.{AgreesWith, IsMet};
ghost use Rattle.hg_rule.specs.Seats.{board_id, sizes_of, view, session_view, pass_view, IsSeatOf, IsSessionOf, IsPassOf};

use crate::board::Board;
use crate::moves::{Giving, Joining, Merging, Rejoining, Returning};
use crate::passes::{CollectorPass, Pass, SessionPass};
use crate::steps::{Budding, Uniting};
use crate::view::View;
use atomic_table::Seat;

// One split and one join on each side, and a load between them, where one view has the parts of both.
fn meet<P: Pass, Q: Pass>(board: &Board, pass: &mut P, other: &mut Q) -> u64
    requires own { IsSeatOf (board_id board.now) (P.seat_of pass.old) ×
        IsSeatOf (board_id board.now) (Q.seat_of other.old) }
    requires parts { (0 < length (view (P.seat_of pass.old)).parts) ×
        (length (view (Q.seat_of other.old)).parts ≡ 1) }
    ensures backed { IsBacked (sizes_of board.now) result
        (joined (view (P.seat_of pass.old)) (view (Q.seat_of other.old))) }
    ensures pass { view (P.seat_of pass.new) ≡
        meeting (view (P.seat_of pass.old)) (view (Q.seat_of other.old)) }
    ensures other { view (Q.seat_of other.new) ≡
        meeting (view (Q.seat_of other.old)) (view (P.seat_of pass.new)) }
    ensures own { IsSeatOf (board_id board.now) (P.seat_of pass.new) ×
        (P.rest_of pass.new ≡ P.rest_of pass.old) }
    ensures others { IsSeatOf (board_id board.now) (Q.seat_of other.new) ×
        (Q.rest_of other.new ≡ Q.rest_of other.old) }
{
    let gift = board.table.shared.split_seat::<Giving>(other.seat());
    board.table.shared.join_seat::<Joining>(pass.seat(), gift);
    let mark = board.look_at(pass);
    let back = board.table.shared.split_seat::<Returning>(pass.seat());
    board.table.shared.join_seat::<Joining>(other.seat(), back);
    mark
}

// The other's parts come after the first, and what it had seen and done is known.
fn take_in<P: Pass>(board: &Board, pass: &mut P, other: Seat<u8, View>) -> u64
    requires own { IsSeatOf (board_id board.now) (P.seat_of pass.old) ×
        IsSeatOf (board_id board.now) other }
    ensures backed { IsBacked (sizes_of board.now) result (view (P.seat_of pass.new)) }
    ensures pass { view (P.seat_of pass.new) ≡ merged (view (P.seat_of pass.old)) (view other) }
    ensures own { IsSeatOf (board_id board.now) (P.seat_of pass.new) ×
        (P.rest_of pass.new ≡ P.rest_of pass.old) }
{
    board.table.shared.join_seat::<Merging>(pass.seat(), other);
    board.look_at(pass)
}

impl SessionPass {
    /// Afterwards each has seen what either had seen.
    pub fn meet(&mut self, board: &Board, other: &mut SessionPass)
        requires own { IsSessionOf (board_id board.now) (sizes_of board.now) self.old ×
            IsSessionOf (board_id board.now) (sizes_of board.now) other.old }
        requires only { HasOnlySession (session_view other.old) }
        ensures backed { IsMet (sizes_of board.now)
            (joined (session_view self.old) (session_view other.old)) }
        ensures view { session_view self.new ≡
            meeting (session_view self.old) (session_view other.old) }
        ensures other { session_view other.new ≡
            meeting (session_view other.old) (session_view self.new) }
        ensures own { IsSessionOf (board_id board.now) (sizes_of board.now) self.new ×
            IsSessionOf (board_id board.now) (sizes_of board.now) other.new }
    {
        meet(board, self, other);
    }

    /// Gives its part of the state to a collector's pass for good, which then knows what it had seen and done.
    pub fn finish(self, board: &Board, pass: &mut CollectorPass)
        requires own { IsSessionOf (board_id board.now) (sizes_of board.now) self ×
            IsPassOf (board_id board.now) pass.old }
        requires rests { (session (session_view self)).phase ≡ Idle }
        ensures backed { IsMet (sizes_of board.now) (pass_view pass.new) }
        ensures view { pass_view pass.new ≡ merged (pass_view pass.old) (session_view self) }
        ensures own { IsPassOf (board_id board.now) pass.new }
    {
        let SessionPass { seat, .. } = self;
        take_in(board, pass, seat);
    }
}

impl CollectorPass {
    /// Afterwards each has seen what either had seen. What this pass did and loaded agrees with the session's log and phase.
    pub fn meet(&mut self, board: &Board, other: &mut SessionPass)
        requires own { IsPassOf (board_id board.now) self.old ×
            IsSessionOf (board_id board.now) (sizes_of board.now) other.old }
        requires only { HasOnlySession (session_view other.old) }
        ensures backed { IsMet (sizes_of board.now)
            (joined (pass_view self.old) (session_view other.old)) }
        ensures agrees { AgreesWith (pass_view self.old) (number (session_view other.old))
            (session (session_view other.old)) }
        ensures view { pass_view self.new ≡ meeting (pass_view self.old) (session_view other.old) }
        ensures other { session_view other.new ≡
            meeting (session_view other.old) (pass_view self.new) }
        ensures own { IsPassOf (board_id board.now) self.new ×
            IsSessionOf (board_id board.now) (sizes_of board.now) other.new }
    {
        meet(board, self, other);
    }

    /// Moves the other's parts to this pass, which then knows what the other had seen and done. Its own record stays.
    pub fn join(&mut self, board: &Board, other: CollectorPass)
        requires own { IsPassOf (board_id board.now) self.old ×
            IsPassOf (board_id board.now) other }
        ensures backed { IsMet (sizes_of board.now) (pass_view self.new) }
        ensures view { pass_view self.new ≡ merged (pass_view self.old) (pass_view other) }
        ensures own { IsPassOf (board_id board.now) self.new }
    {
        let CollectorPass { seat } = other;
        take_in(board, self, seat);
    }
}

impl CollectorPass {
    /// Splits off one more pass, which has this one's record, no visits, and half of its share. It has seen what this one has.
    pub fn split(&mut self, board: &Board) -> CollectorPass
        requires own { IsPassOf (board_id board.now) self.old }
        requires share { 2 ≤ (own_pass (pass_view self.old)).share }
        ensures view { pass_view self.new ≡ halved (pass_view self.old) }
        ensures branch { pass_view result ≡
            branch (number (pass_view result)) (pass_view self.old) }
        ensures own { IsPassOf (board_id board.now) self.new ×
            IsPassOf (board_id board.now) result }
    {
        board.table.shared.load::<Budding>(&mut self.seat, 0);
        let seat = board.table.shared.split_seat::<Returning>(&mut self.seat);
        CollectorPass { seat }
    }

    /// Moves the other's visits, steps and share to this pass, which then has seen what the other had seen. Its own record stays, and
    /// the other's is forgotten: there is one pass less.
    pub fn unite(&mut self, board: &Board, other: CollectorPass)
        requires own { IsPassOf (board_id board.now) self.old ×
            IsPassOf (board_id board.now) other }
        requires only { HasOnlyPass (pass_view other) }
        ensures view { pass_view self.new ≡ united (pass_view self.old) (pass_view other) }
        ensures own { IsPassOf (board_id board.now) self.new }
    {
        let CollectorPass { seat } = other;
        board
            .table
            .shared
            .join_seat::<Rejoining>(&mut self.seat, seat);
        board.table.shared.load::<Uniting>(&mut self.seat, 0);
    }
}
