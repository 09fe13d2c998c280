//! What the maker of a board deals: each part of a new board's state goes to a seat of its own.

ghost use Rattle.std.specs.Prelude.{◌≡◌, ℕ, ◌+◌, ◌^◌, ◌≤◌, List, [], ◌++◌, drop, length, IfOk};
ghost use Rattle.atomic_table.specs.declared.shared.Seat.{Seat};
ghost use Rattle.hg_rule.specs.declared.view.View.{View};
ghost use Rattle.hg_rule.specs.declared.view.Part.{Part};
ghost use Rattle.hg_rule.specs.Views.{seeing};
ghost use Rattle.hg_rule.specs.Moves.{run, session_part, bucket_part, first_view};
ghost use Rattle.hg_rule.specs.Seats.{board_id, view, IsSeatOf};
ghost use Rattle.hg_rule.specs.New.{EachFrom, IsNew, IsNewFirst, IsNewSession, IsNewBucket, IsNewPass, IsNewCommit};

use crate::board::Board;
use crate::moves::Dealing;
use crate::passes::{
    BucketSeat, BucketSeatList, CollectorPass, CommitSeat, Seats, SessionPass, SessionPassList,
};
use crate::view::{Sizes, View};
use atomic_table::Seat;
use std::alloc::{AllocError, Global};

/// One of a row of seats, made of its number and its seat.
pub(crate) trait Dealt: Drop {
    ghost part: { ℕ → Part };

    ghost rest_for: { ℕ → ℕ × ℕ };

    ghost rest_is: { Self → ℕ × ℕ };

    ghost seat_is: { Self → Seat ℕ View };

    fn of(number: u32, seat: Seat<u8, View>) -> Self
        ensures { (rest_is result ≡ rest_for number) × (seat_is result ≡ seat) };
}

impl Dealt for SessionPass {
    ghost part = { session_part };

    ghost rest_for = { λ j. (j, 0) };

    ghost rest_is = { λ p. (p.number, p.begun) };

    ghost seat_is = { λ p. p.seat };

    fn of(number: u32, seat: Seat<u8, View>) -> SessionPass {
        SessionPass {
            number,
            begun: 0,
            seat,
        }
    }
}

impl Dealt for BucketSeat {
    ghost part = { bucket_part };

    ghost rest_for = { λ b. (b, 0) };

    ghost rest_is = { λ p. (p.number, 0) };

    ghost seat_is = { λ p. p.seat };

    fn of(number: u32, seat: Seat<u8, View>) -> BucketSeat {
        BucketSeat { number, seat }
    }
}

// The first `count` parts of the maker's go to a seat each, numbered from `first` on.
pub(crate) fn deal<T: Dealt>(
    board: &Board,
    alloc: Global,
    maker: &mut Seat<u8, View>,
    first: u32,
    count: u32,
) -> Result<Vec<T>, AllocError>
    requires own { IsSeatOf (board_id board.now) maker.old × ((view maker.old).sights ≡ []) }
    requires parts { (r : List Part) × ((view maker.old).parts ≡ run T.part first count ++ r) }
    requires small { first + count ≤ 2 ^ 32 }
    ensures dealt { IfOk result (λ v.
        (length v.items ≡ count) ×
        EachFrom (λ i x.
        (T.rest_is x ≡ T.rest_for i) ×
        IsNew (board_id board.now) (T.part i) (T.seat_is x)) first v.items) }
    ensures left { IfOk result (λ v.
        IsSeatOf (board_id board.now) maker.new ×
        (view maker.new ≡
        seeing (drop count (view maker.old).parts) [] (view maker.old).events)) }
{
    let mut seats = Vec::new(alloc);
    for i in 0..count {
        let seat = board.table.shared.split_seat::<Dealing>(maker);
        seats.push(T::of(first + i, seat))?;
    }
    Ok(seats)
}

// The first part of the maker's goes to a collector's pass.
pub(crate) fn deal_pass(board: &Board, maker: &mut Seat<u8, View>) -> CollectorPass
    requires own { IsSeatOf (board_id board.now) maker.old × ((view maker.old).sights ≡ []) }
    ensures dealt { IsNewFirst (board_id board.now) (view maker.old).parts result.seat }
    ensures left { IsSeatOf (board_id board.now) maker.new ×
        (view maker.new ≡ seeing (drop 1 (view maker.old).parts) [] (view maker.old).events) }
{
    let seat = board.table.shared.split_seat::<Dealing>(maker);
    CollectorPass { seat }
}

// Each part of the maker's, which has all of a new board's, goes to the seat that it is for.
pub(crate) fn deal_all(
    board: &Board,
    alloc: Global,
    mut maker: Seat<u8, View>,
    sizes: Sizes,
) -> Result<Seats, AllocError>
    requires own { (maker.table_id ≡ board_id board.now) × (maker.me ≡ (first_view sizes, [])) }
    ensures sessions { IfOk result (λ s.
        (length s.sessions ≡ sizes.sessions) ×
        EachFrom (IsNewSession (board_id board.now)) 1 s.sessions) }
    ensures buckets { IfOk result (λ s.
        (length s.buckets ≡ sizes.buckets) ×
        EachFrom (IsNewBucket (board_id board.now)) 0 s.buckets) }
    ensures commit { IfOk result (λ s. IsNewCommit (board_id board.now) s.commit) }
    ensures passes { IfOk result (λ s.
        IsNewPass (board_id board.now) 0 s.group × IsNewPass (board_id board.now) 1 s.table ×
        IsNewPass (board_id board.now) 2 s.interval) }
{
    let sessions = deal(board, alloc, &mut maker, 1, sizes.sessions)?;
    match deal(board, alloc, &mut maker, 0, sizes.buckets) {
        Ok(buckets) => {
            let group = deal_pass(board, &mut maker);
            let table = deal_pass(board, &mut maker);
            let interval = deal_pass(board, &mut maker);
            Ok(Seats {
                sessions: SessionPassList::from(sessions),
                buckets: BucketSeatList::from(buckets),
                commit: CommitSeat { seat: maker },
                group,
                table,
                interval,
            })
        }
        Err(e) => Err(e),
    }
}
