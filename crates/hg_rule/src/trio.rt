//! A session's pass that has the parts of three collectors' passes for one load of the mark.
//!
//!     pass of a session                        three passes
//!     [ session 1 | lent 2 ]                   [ pass 0 ]   [ pass 1 ]   [ pass 2 ]
//!     [ session 1 | pass 0 | lent 2 ]          [ ]          [ pass 1 ]   [ pass 2 ]    take_part
//!     [ session 1 | pass 2 | .. | lent 2 ]     [ ]          [ ]          [ ]           take_part, twice, and the load
//!     [ session 1 | lent 2 ]                   [ pass 0 ]   [ pass 1 ]   [ pass 2 ]    give_part, three times

ghost use Rattle.std.specs.Prelude.{◌≡◌};
ghost use Rattle.hg_rule.specs.Agreed.{IsMet};
ghost use Rattle.hg_rule.specs.Moves.{joined, meeting, left_bare, left_but_second, right_second};
ghost use Rattle.hg_rule.specs.Seats.{board_id, sizes_of, pass_view, session_rest, session_view, IsPassOf, IsSeatOf, IsSessionOf};
ghost use Rattle.hg_rule.specs.Sharing.{HasOnlyPass};

use crate::board::Board;
use crate::moves::{Giving, Joining, Returning};
use crate::passes::{CollectorPass, SessionPass};

impl SessionPass {
    // The other's part comes after the first.
    fn take_part(&mut self, board: &Board, other: &mut CollectorPass)
        requires own { IsSeatOf (board_id board.now) self.old.seat ×
            IsSeatOf (board_id board.now) other.old.seat }
        ensures view { session_view self.new ≡
            joined (session_view self.old) (pass_view other.old) }
        ensures other { pass_view other.new ≡ left_bare (pass_view other.old) }
        ensures own { IsSeatOf (board_id board.now) self.new.seat ×
            IsSeatOf (board_id board.now) other.new.seat }
        ensures rest { session_rest self.new ≡ session_rest self.old }
    {
        let gift = board.table.shared.split_seat::<Giving>(&mut other.seat);
        board
            .table
            .shared
            .join_seat::<Joining>(&mut self.seat, gift);
    }

    // The part after the first goes to the other.
    fn give_part(&mut self, board: &Board, other: &mut CollectorPass)
        requires own { IsSeatOf (board_id board.now) self.old.seat ×
            IsSeatOf (board_id board.now) other.old.seat }
        ensures view { session_view self.new ≡ left_but_second (session_view self.old) }
        ensures other { pass_view other.new ≡
            joined (pass_view other.old) (right_second (session_view self.old)) }
        ensures own { IsSeatOf (board_id board.now) self.new.seat ×
            IsSeatOf (board_id board.now) other.new.seat }
        ensures rest { session_rest self.new ≡ session_rest self.old }
    {
        let back = board.table.shared.split_seat::<Returning>(&mut self.seat);
        board
            .table
            .shared
            .join_seat::<Joining>(&mut other.seat, back);
    }

    /// Meets three passes at once: some state backs what all four know together. Afterwards each has seen what any of them had seen.
    pub fn meet_three(
        &mut self,
        board: &Board,
        first: &mut CollectorPass,
        second: &mut CollectorPass,
        third: &mut CollectorPass,
    )
        requires own { IsSessionOf (board_id board.now) (sizes_of board.now) self.old }
        requires passes { IsPassOf (board_id board.now) first.old ×
            IsPassOf (board_id board.now) second.old × IsPassOf (board_id board.now) third.old }
        requires only { HasOnlyPass (pass_view first.old) × HasOnlyPass (pass_view second.old) ×
            HasOnlyPass (pass_view third.old) }
        ensures backed { IsMet (sizes_of board.now)
            (joined (joined (joined (session_view self.old) (pass_view first.old))
            (pass_view second.old)) (pass_view third.old)) }
        ensures view { session_view self.new ≡
            meeting (meeting (meeting (session_view self.old) (pass_view first.old))
            (pass_view second.old)) (pass_view third.old) }
        ensures first { pass_view first.new ≡
            meeting (pass_view first.old) (session_view self.new) }
        ensures second { pass_view second.new ≡
            meeting (pass_view second.old) (session_view self.new) }
        ensures third { pass_view third.new ≡
            meeting (pass_view third.old) (session_view self.new) }
        ensures own { IsSessionOf (board_id board.now) (sizes_of board.now) self.new }
        ensures passes { IsPassOf (board_id board.now) first.new ×
            IsPassOf (board_id board.now) second.new × IsPassOf (board_id board.now) third.new }
    {
        self.take_part(board, first);
        self.take_part(board, second);
        self.take_part(board, third);
        board.look_at(self);
        self.give_part(board, third);
        self.give_part(board, second);
        self.give_part(board, first);
    }
}
