//! The seats at the board, each with its part of the state; the trait of all of them; and the lists in which a new board returns them.

ghost use Rattle.std.specs.Prelude.{◌≡◌, ℕ};
ghost use Rattle.std.specs.Borrow.{sem};
ghost use Rattle.atomic_table.specs.declared.shared.Seat.{Seat};
ghost use Rattle.hg_rule.specs.declared.view.View.{View};
ghost use Rattle.hg_rule.specs.Lending.{LendsSeat};
ghost use Rattle.hg_rule.specs.Seats.{session_seat, with_session_seat, session_rest, pass_seat, with_pass_seat, bucket_seat, with_bucket_seat, bucket_rest, commit_seat, with_commit_seat};

use crate::view::View;
use atomic_table::Seat;
use hg_base::Writer;
use std::marker::Model;

/// A session's place at the board.
#[derive(Drop)]
pub struct SessionPass {
    pub(crate) number: u32,
    pub(crate) begun: u64,
    pub(crate) seat: Seat<u8, View>,
}

/// A collector's pass.
#[derive(Drop)]
pub struct CollectorPass {
    pub(crate) seat: Seat<u8, View>,
}

/// The seat of a bucket, kept next to the bucket's content.
#[derive(Drop)]
pub struct BucketSeat {
    pub(crate) number: u32,
    pub(crate) seat: Seat<u8, View>,
}

/// The committer's seat, kept next to its list.
#[derive(Drop)]
pub struct CommitSeat {
    pub(crate) seat: Seat<u8, View>,
}

/// A session's part that was handed over.
#[derive(Drop)]
pub struct TxSeat {
    pub(crate) number: u32,
    pub(crate) seat: Seat<u8, View>,
}

/// A type that owns a seat, which the board's calls borrow. Its other fields stay as they are.
pub trait Pass {
    ghost seat_of: { Self → Seat ℕ View };

    ghost with_seat: { Self → Seat ℕ View → Self };

    /// The fields other than the seat, as numbers.
    ghost rest_of: { Self → ℕ × ℕ };

    fn seat(&mut self) -> &mut Seat<u8, View>
        ensures* lends { sem 𝓛 (LendsSeat Self.row self.entry result (with_seat self.old)) }
        ensures now { result.now ≡ seat_of self.old };

    ghost has_it: { (p : Self) (s : Seat ℕ View) → seat_of (with_seat p s) ≡ s };

    ghost keeps_rest: { (p : Self) (s : Seat ℕ View) → rest_of (with_seat p s) ≡ rest_of p };
}

impl Pass for SessionPass {
    ghost seat_of = { session_seat };

    ghost with_seat = { with_session_seat };

    ghost rest_of = { session_rest };

    fn seat(&mut self) -> &mut Seat<u8, View> {
        &mut self.seat
    }

    ghost has_it = { λ p s i. s };

    ghost keeps_rest = { λ p s i. session_rest p };
}

impl Pass for CollectorPass {
    ghost seat_of = { pass_seat };

    ghost with_seat = { with_pass_seat };

    ghost rest_of = { λ p. (0, 0) };

    fn seat(&mut self) -> &mut Seat<u8, View> {
        &mut self.seat
    }

    ghost has_it = { λ p s i. s };

    ghost keeps_rest = { λ p s i. (0, 0) };
}

impl Pass for BucketSeat {
    ghost seat_of = { bucket_seat };

    ghost with_seat = { with_bucket_seat };

    ghost rest_of = { bucket_rest };

    fn seat(&mut self) -> &mut Seat<u8, View> {
        &mut self.seat
    }

    ghost has_it = { λ p s i. s };

    ghost keeps_rest = { λ p s i. bucket_rest p };
}

impl Pass for CommitSeat {
    ghost seat_of = { commit_seat };

    ghost with_seat = { with_commit_seat };

    ghost rest_of = { λ p. (0, 0) };

    fn seat(&mut self) -> &mut Seat<u8, View> {
        &mut self.seat
    }

    ghost has_it = { λ p s i. s };

    ghost keeps_rest = { λ p s i. (0, 0) };
}

impl SessionPass {
    ghost use Rattle.std.specs.Prelude.{IsSome};
    ghost use Rattle.hg_core.specs.Logs.{begans};
    ghost use Rattle.hg_core.specs.Phases.{snapshot_in};
    ghost use Rattle.hg_rule.specs.Views.{number, session};
    ghost use Rattle.hg_rule.specs.Seats.{session_view, IsTied};

    /// The transaction that is open. A session's transactions are counted from 1.
    pub fn writer(&self) -> Writer
        requires own { IsTied self.now }
        requires open { IsSome (snapshot_in (session (session_view self.now)).phase) }
        ensures session { result.session ≡ number (session_view self.now) }
        ensures transaction { result.transaction ≡ begans (session (session_view self.now)).log }
    {
        Writer {
            session: self.number,
            transaction: self.begun,
        }
    }
}

/// Sessions' passes by ascending number.
#[derive(Drop)]
pub struct SessionPassList {
    passes: Vec<SessionPass>,
}

impl Model for SessionPassList {
    ghost use Rattle.std.specs.Prelude.{List};
    ghost use Rattle.hg_rule.specs.declared.passes.SessionPass.{SessionPass};

    ghost Value = { List SessionPass };

    ghost view = { λ a. a.passes.items };
}

impl From<Vec<SessionPass>> for SessionPassList {
    ghost from_gives = { λ passes list. list ≡ passes.items };

    fn from(passes: Vec<SessionPass>) -> SessionPassList {
        SessionPassList { passes }
    }
}

impl SessionPassList {
    pub fn into_vec(self) -> Vec<SessionPass>
        ensures { result.items ≡ self }
    {
        self.passes
    }
}

/// Buckets' seats by ascending number.
#[derive(Drop)]
pub struct BucketSeatList {
    seats: Vec<BucketSeat>,
}

impl Model for BucketSeatList {
    ghost use Rattle.std.specs.Prelude.{List};
    ghost use Rattle.hg_rule.specs.declared.passes.BucketSeat.{BucketSeat};

    ghost Value = { List BucketSeat };

    ghost view = { λ a. a.seats.items };
}

impl From<Vec<BucketSeat>> for BucketSeatList {
    ghost from_gives = { λ seats list. list ≡ seats.items };

    fn from(seats: Vec<BucketSeat>) -> BucketSeatList {
        BucketSeatList { seats }
    }
}

impl BucketSeatList {
    pub fn into_vec(self) -> Vec<BucketSeat>
        ensures { result.items ≡ self }
    {
        self.seats
    }
}

/// Each seat of a board, once.
#[derive(Drop)]
pub struct Seats {
    pub sessions: SessionPassList,
    pub buckets: BucketSeatList,
    pub commit: CommitSeat,
    pub group: CollectorPass,
    pub table: CollectorPass,
    pub interval: CollectorPass,
}
