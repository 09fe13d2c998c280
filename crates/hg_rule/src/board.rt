//! The board itself: its words under the rule, and a new board with all its seats.
//!
//! The protocol here is that of the parts under locks. A bucket's part of the state, or the committer's, comes to a pass (`join_bucket`,
//! `join_commit`) and leaves it again (`split_bucket`, `split_commit`). Each join loads the mark, and so learns all that the rule says
//! of the view (`look_at`, `know_all`).

ghost use Rattle.std.specs.Prelude.{◌≡◌, ℕ, ◌<◌, ◌^◌, []};
ghost use Rattle.atomic_table.specs.Table.{State};
ghost use Rattle.hg_core.specs.Invariant.{IsSteady};
ghost use Rattle.hg_rule.specs.declared.view.View.{View};
ghost use Rattle.hg_rule.specs.declared.view.Sizes.{Sizes};
ghost use Rattle.hg_rule.specs.Words.{words_for};
ghost use Rattle.hg_rule.specs.Rules.{Rule, HasRoom};
ghost use Rattle.hg_rule.specs.Moves.{first_view};
ghost use Rattle.hg_rule.specs.Reading.{read};

use crate::maker::deal_all;
use crate::moves::{Arriving, Departing, Joining, Resigning};
use crate::passes::{BucketSeat, CommitSeat, Pass, Seats};
use crate::steps::{Looking, Sized};
use crate::view::{Sizes, View};
use crate::words::words_for;
use atomic_table::{Seat, Table, TableRule};
use hg_base::NoMemory;
use std::alloc::{AllocError, Global};
use std::marker::Brand;

/// The rule over the words and the views.
pub struct Law;

impl TableRule<u8, View, Sizes> for Law {
    ghost holds = { Rule };

    ghost first = { first_view };
}

/// The mark, and of each session its register and the mask of its tables. The mark has a cache line of its own, and so has each
/// session: a store in one line does not take another line away from a processor that reads it.
#[derive(Drop)]
pub struct Board {
    pub(crate) table: Table<u8, View, Sizes, Law, Global>,
    ghost words: { table.shared.table_id.words ≡ words_for table.shared.key.sessions },
    ghost sessions: { table.shared.key.sessions < 2 ^ 32 },
    ghost room: { HasRoom table.shared.key },
}

impl Board {
    ghost use Rattle.std.specs.Prelude.{◌≡◌, ◌*◌, ◌^◌, ◌≤◌, length, IfOk};
    ghost use Rattle.hg_rule.specs.Seats.{board_id, sizes_of};
    ghost use Rattle.hg_rule.specs.New.{EachFrom, IsNewSession, IsNewBucket, IsNewPass, IsNewCommit};

    // A board whose first seat, the maker's, has all parts.
    fn unseated(alloc: Global, sizes: &Sizes) -> Result<(Board, Seat<u8, View>), AllocError>
        requires room { HasRoom sizes.now }
        requires sessions { sizes.now.sessions < 2 ^ 32 }
        ensures sizes { IfOk result (λ b. sizes_of b.0 ≡ sizes.now) }
        ensures maker { IfOk result (λ b.
            (b.1.table_id ≡ board_id b.0) × (b.1.me ≡ (first_view sizes.now, []))) }
    {
        let words = vec![in alloc; 0u64; words_for(sizes.sessions)]?;
        match Table::of_words(alloc, words.as_slice(), sizes) {
            Ok((table, maker)) => Ok((Board { table }, maker)),
            Err(e) => Err(e),
        }
    }

    /// A board of these sizes, and each of its seats. Its mark is 0, its registers are idle, its masks are 0, and no seat has made a
    /// step yet.
    pub fn new(
        alloc: Global,
        sessions: u32,
        tables: u32,
        buckets: u32,
        quota: u64,
    ) -> Result<(Board, Seats), NoMemory>
        requires room { (tables ≤ 64) × (sessions * quota ≤ 2 ^ 40) }
        ensures sizes { IfOk result (λ b.
            sizes_of b.0 ≡
            record { sessions = sessions; tables = tables; buckets = buckets; quota = quota }) }
        ensures sessions { IfOk result (λ b.
            (length b.1.sessions ≡ sessions) ×
            EachFrom (IsNewSession (board_id b.0)) 1 b.1.sessions) }
        ensures buckets { IfOk result (λ b.
            (length b.1.buckets ≡ buckets) ×
            EachFrom (IsNewBucket (board_id b.0)) 0 b.1.buckets) }
        ensures commit { IfOk result (λ b. IsNewCommit (board_id b.0) b.1.commit) }
        ensures passes { IfOk result (λ b.
            IsNewPass (board_id b.0) 0 b.1.group × IsNewPass (board_id b.0) 1 b.1.table ×
            IsNewPass (board_id b.0) 2 b.1.interval) }
    {
        let sizes = Sizes {
            sessions,
            tables,
            buckets,
            quota,
        };
        let (board, maker) = Board::unseated(alloc, &sizes)?;
        match deal_all(&board, alloc, maker, sizes) {
            Ok(seats) => Ok((board, seats)),
            Err(e) => Err(NoMemory::from(e)),
        }
    }
}

impl Board {
    ghost use Rattle.hg_rule.specs.Rules.{IsBacked};
    ghost use Rattle.hg_rule.specs.Reading.{HasAll, AllRest, own_state, IsRunsEnd};
    ghost use Rattle.hg_rule.specs.Seats.{board_id, sizes_of, view, IsSeatOf};

    fn look_as<P: Pass, A: Sized>(&self, pass: &mut P) -> u64
        requires own { IsSeatOf (board_id self.now) (P.seat_of pass.old) }
        requires sizes { A.sizes ≡ sizes_of self.now }
        ensures backed { IsBacked (sizes_of self.now) result (view (P.seat_of pass.new)) }
        ensures stays { view (P.seat_of pass.new) ≡ view (P.seat_of pass.old) }
        ensures own { IsSeatOf (board_id self.now) (P.seat_of pass.new) ×
            (P.rest_of pass.new ≡ P.rest_of pass.old) }
    {
        self.table.shared.load::<Looking<A>>(pass.seat(), 0)
    }

    /// Loads the mark, and leaves the view as it is. Afterwards all is known that the rule says of the view.
    pub fn look_at<P: Pass>(&self, pass: &mut P) -> u64
        requires own { IsSeatOf (board_id self.now) (P.seat_of pass.old) }
        ensures backed { IsBacked (sizes_of self.now) result (view (P.seat_of pass.new)) }
        ensures stays { view (P.seat_of pass.new) ≡ view (P.seat_of pass.old) }
        ensures own { IsSeatOf (board_id self.now) (P.seat_of pass.new) ×
            (P.rest_of pass.new ≡ P.rest_of pass.old) }
    {
        self.look_as::<P, Brand>(pass)
    }

    /// A pass that has each session, each bucket, the committer's part and all passes knows the whole invariant, of a state
    /// that is written down from its own parts; and that state is the end of one run. The answer is the mark.
    pub fn know_all<P: Pass>(&self, pass: &mut P) -> u64
        requires own { IsSeatOf (board_id self.now) (P.seat_of pass.old) }
        requires all { HasAll (sizes_of self.now) (view (P.seat_of pass.old)) }
        requires rest { AllRest (view (P.seat_of pass.old)) }
        ensures steady { IsSteady (own_state (sizes_of self.now) (view (P.seat_of pass.old))) }
        ensures mark { result ≡ (own_state (sizes_of self.now) (view (P.seat_of pass.old))).mark }
        ensures run { IsRunsEnd (sizes_of self.now) (view (P.seat_of pass.old)) }
        ensures stays { view (P.seat_of pass.new) ≡ view (P.seat_of pass.old) }
        ensures own { IsSeatOf (board_id self.now) (P.seat_of pass.new) ×
            (P.rest_of pass.new ≡ P.rest_of pass.old) }
    {
        self.look_at(pass)
    }
}

impl Board {
    ghost use Rattle.hg_rule.specs.Rules.{IsBacked};
    ghost use Rattle.hg_rule.specs.Steps.{IsHistoryAt};
    ghost use Rattle.hg_rule.specs.Moves.{joined};
    ghost use Rattle.hg_rule.specs.Holding.{commit};
    ghost use Rattle.hg_rule.specs.Places.{HasFirst, HoldsBucket, HoldsCommit, with_bucket, without_bucket, bucket_alone, without_commit, commit_alone};
    ghost use Rattle.hg_rule.specs.Seats.{board_id, sizes_of, view, bucket_view, commit_view, IsSeatOf, IsBucketOf, IsCommitOf};

    /// Joins the bucket's part, after the pass's own. A collector's pass begins a visit. The answer is the mark.
    pub fn join_bucket<P: Pass>(&self, pass: &mut P, bucket: BucketSeat) -> u64
        requires own { IsSeatOf (board_id self.now) (P.seat_of pass.old) ×
            HasFirst (view (P.seat_of pass.old)) }
        requires bucket { IsBucketOf (board_id self.now) bucket }
        ensures view { view (P.seat_of pass.new) ≡
            with_bucket (view (P.seat_of pass.old)) (bucket_view bucket) }
        ensures holds { HoldsBucket bucket.number (view (P.seat_of pass.new)) }
        ensures backed { IsBacked (sizes_of self.now) result (view (P.seat_of pass.new)) }
        ensures own { IsSeatOf (board_id self.now) (P.seat_of pass.new) ×
            (P.rest_of pass.new ≡ P.rest_of pass.old) }
    {
        let BucketSeat { seat, .. } = bucket;
        self.table.shared.join_seat::<Arriving>(pass.seat(), seat);
        self.look_at(pass)
    }

    /// Splits off the bucket's part, which was joined last. A collector's visit is over.
    pub fn split_bucket<P: Pass>(&self, pass: &mut P, number: u32) -> BucketSeat
        requires own { IsSeatOf (board_id self.now) (P.seat_of pass.old) }
        requires holds { HoldsBucket number (view (P.seat_of pass.old)) }
        ensures view { view (P.seat_of pass.new) ≡ without_bucket (view (P.seat_of pass.old)) }
        ensures seat { (bucket_view result ≡ bucket_alone (view (P.seat_of pass.old))) ×
            (result.number ≡ number) }
        ensures bucket { IsBucketOf (board_id self.now) result }
        ensures own { IsSeatOf (board_id self.now) (P.seat_of pass.new) ×
            (P.rest_of pass.new ≡ P.rest_of pass.old) }
    {
        let seat = self.table.shared.split_seat::<Departing>(pass.seat());
        BucketSeat { number, seat }
    }

    /// Joins the committer's part, after the pass's own. The answer is the mark, which nobody else stores until that part is
    /// split off again.
    pub fn join_commit<P: Pass>(&self, pass: &mut P, seat: CommitSeat) -> u64
        requires own { IsSeatOf (board_id self.now) (P.seat_of pass.old) ×
            HasFirst (view (P.seat_of pass.old)) }
        requires commit { IsCommitOf (board_id self.now) seat }
        ensures view { view (P.seat_of pass.new) ≡
            joined (view (P.seat_of pass.old)) (commit_view seat) }
        ensures holds { HoldsCommit (view (P.seat_of pass.new)) }
        ensures mark { IsHistoryAt (view (P.seat_of pass.new)) result
            (commit (view (P.seat_of pass.new))).history.list }
        ensures backed { IsBacked (sizes_of self.now) result (view (P.seat_of pass.new)) }
        ensures own { IsSeatOf (board_id self.now) (P.seat_of pass.new) ×
            (P.rest_of pass.new ≡ P.rest_of pass.old) }
    {
        let CommitSeat { seat } = seat;
        self.table.shared.join_seat::<Joining>(pass.seat(), seat);
        self.look_at(pass)
    }

    /// Splits off the committer's part, which was joined last.
    pub fn split_commit<P: Pass>(&self, pass: &mut P) -> CommitSeat
        requires own { IsSeatOf (board_id self.now) (P.seat_of pass.old) }
        requires holds { HoldsCommit (view (P.seat_of pass.old)) }
        ensures view { view (P.seat_of pass.new) ≡ without_commit (view (P.seat_of pass.old)) }
        ensures seat { commit_view result ≡ commit_alone (view (P.seat_of pass.old)) }
        ensures commit { IsCommitOf (board_id self.now) result }
        ensures own { IsSeatOf (board_id self.now) (P.seat_of pass.new) ×
            (P.rest_of pass.new ≡ P.rest_of pass.old) }
    {
        let seat = self.table.shared.split_seat::<Resigning>(pass.seat());
        CommitSeat { seat }
    }
}

/// The state under the rule is the one that words and views show, read by one function: each part from the first view that
/// has it, and exactly one has.
pub fn state_is_read()
    ensures state { (z : Sizes) (t : State ℕ View) → HasRoom z → (r : Rule z t) →
        r.state ≡ read z t.words t.views }
    ensures steady { (z : Sizes) (t : State ℕ View) → HasRoom z → Rule z t →
        IsSteady (read z t.words t.views) }
{}
