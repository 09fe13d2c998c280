//! The protocols of the two agents that work for all sessions: the leader of a group commit, and a collector.
//!
//! # A group commit, from `hand_over` to `resume`
//!
//! Sessions hand their parts over to one of them, the leader, which commits for all. `hand_over` leaves a note at the part's place (away),
//! with the part as it was and the mark of that moment. Then no other step of that session is possible: the holder of the part can stamp
//! and publish, and nothing else. While the committer's part is joined to the leader's pass (`join_commit`), nobody else stores the mark.
//! `stamp` gives an open write the next number, in a bucket that is joined as well. `publish` stores that number: the lent parts that
//! follow the committer's join the history as one group, in their order. So a part returns as it left, or with one commit number more,
//! which is over the mark in the note (`resume`).
//!
//!     pass of leader 2                               on the way   pass of 5       pass of 3
//!     [ session 2 ]                                               [ session 5 ]   [ session 3 ]   hand_over by each
//!     [ away 2 ]                                     5  2  3      [ away 5 ]      [ away 3 ]      receive, three times
//!     [ away 2 | lent 5 | lent 2 | lent 3 ]                                                       join_commit
//!     [ away 2 | commit | lent 5 | .. ]                                                           join_bucket
//!     [ away 2 | bucket 7 | commit | lent 5 | .. ]                                                stamp, split_bucket
//!     [ away 2 | commit | lent 5 | .. ]                                                           publish, split_commit
//!     [ away 2 | lent 5 | lent 2 | lent 3 ]                                                       hand_back, three times
//!     [ away 2 ]                                     5  2  3      [ away 5 ]      [ away 3 ]      resume by each
//!     [ session 2 ]                                               [ session 5 ]   [ session 3 ]
//!
//! # A collector's pass, from `mark` to `take_group`
//!
//! `mark` begins a record, and `sample` and `sample_mask` load what each session's words show into it. `move_one` marks a snapshot as
//! moved. By a whole record `reclaim` removes what no snapshot needs, in a bucket that is joined. `take_group` takes a group out of the
//! committer's list.

ghost use Rattle.std.specs.Prelude.{◌≡◌, ◌≤◌, ◌<◌, suc, length, false, None, IsTrue};
ghost use Rattle.hg_core.specs.Words.{IsRegister, number_of};
ghost use Rattle.hg_core.specs.Logs.{is_plain, is_in};
ghost use Rattle.hg_core.specs.Phases.{IsSession};
ghost use Rattle.hg_core.specs.Versions.{IsOpenBy};
ghost use Rattle.hg_core.specs.Contents.{bucket_of};
ghost use Rattle.hg_core.specs.Passes.{found, IsWhole};
ghost use Rattle.hg_core.specs.Visits.{IsVisiting};
ghost use Rattle.hg_rule.specs.Facts.{record_of};
ghost use Rattle.hg_rule.specs.Rules.{IsBacked};
ghost use Rattle.hg_rule.specs.Views.{session, since, pass as own_pass};
ghost use Rattle.hg_rule.specs.Steps.{loaded_in, IsMovable, AwaitsMask, HasRegister, Marks, Samples, SamplesMask, Moves};
ghost use Rattle.hg_rule.specs.Holding.{bucket_number, HasBucket, HasCommit, HasBoth, beyond, farther, commit, commit_behind, held};
ghost use Rattle.hg_rule.specs.Removes.{Reclaims, Takes};
ghost use Rattle.hg_rule.specs.Handing.{HasLent, HandsOver, IsBack, lent_alone, received, hands_back, resuming, next_lent, AreLent, members, who, part_of, writer_at, MayPublish, Stamps, Publishes};
ghost use Rattle.hg_rule.specs.Seats.{board_id, sizes_of, view, session_view, tx_view, pass_view, IsSeatOf, IsSessionOf, IsAwayOf, IsTxOf, IsPassOf};

use crate::board::Board;
use crate::moves::{HandingBack, Joining, Receiving, Returning};
use crate::passes::{CollectorPass, Pass, SessionPass, TxSeat};
use crate::steps::{
    Lending, Marking, Moving, Publishing, Reclaiming, Removed, Retaking, Sampling, SamplingMask,
    Stamped, Stamping, Taking,
};
use crate::words::{mask_at, moved, register_at};
use hg_base::{Kind, Rid};
use hg_core::Register;
use std::marker::Brand;

impl Board {
    /// Moves the session's phase and log into a new seat. Until they are back, this pass makes no step of its own session. The answer
    /// is the mark, and that seat.
    pub fn hand_over(&self, pass: &mut SessionPass) -> (u64, TxSeat)
        requires own { IsSessionOf (board_id self.now) (sizes_of self.now) pass.old }
        requires unstamped { (session (session_view pass.old)).stamped ≡ false }
        ensures step { HandsOver (session_view pass.old) result.0 (session_view pass.new) }
        ensures over { loaded_in (session (session_view pass.old)).phase ≤ result.0 }
        ensures seat { tx_view result.1 ≡
            lent_alone pass.old.number (session (session_view pass.old)) (session_view pass.new) }
        ensures tx { IsTxOf (board_id self.now) result.1 × (result.1.number ≡ pass.old.number) }
        ensures own { IsAwayOf (board_id self.now) (sizes_of self.now) pass.new ×
            (pass.new.number ≡ pass.old.number) }
    {
        let mark = self.table.shared.load::<Lending>(&mut pass.seat, 0);
        let seat = self.table.shared.split_seat::<Returning>(&mut pass.seat);
        let number = pass.number;
        (mark, TxSeat { number, seat })
    }

    /// Appends what was handed over to all that the pass has. The answer is the mark.
    pub fn receive<P: Pass>(&self, pass: &mut P, seat: TxSeat) -> u64
        requires own { IsSeatOf (board_id self.now) (P.seat_of pass.old) }
        requires tx { IsTxOf (board_id self.now) seat }
        ensures view { view (P.seat_of pass.new) ≡
            received (view (P.seat_of pass.old)) (tx_view seat) }
        ensures backed { IsBacked (sizes_of self.now) result (view (P.seat_of pass.new)) }
        ensures own { IsSeatOf (board_id self.now) (P.seat_of pass.new) ×
            (P.rest_of pass.new ≡ P.rest_of pass.old) }
    {
        let TxSeat { seat, .. } = seat;
        self.table.shared.join_seat::<Receiving>(pass.seat(), seat);
        self.look_at(pass)
    }

    fn stamp_as<A: Stamped>(&self, pass: &mut SessionPass, _session: u32, _rid: Rid, number: u64)
        requires own { IsAwayOf (board_id self.now) (sizes_of self.now) pass.old }
        requires held { HasBoth (session_view pass.old) ×
            (bucket_of (sizes_of self.now).buckets A.stamped_rid ≡
            bucket_number (session_view pass.old)) }
        requires received { AreLent (farther (session_view pass.old)) ×
            IsTrue (is_in (who (members (farther (session_view pass.old)))) A.stamped_session) }
        requires plain { IsTrue (is_plain
            (part_of A.stamped_session (members (farther (session_view pass.old)))).log) }
        requires next { number ≡ suc (length (commit_behind (session_view pass.old)).history.list) }
        requires mine { IsOpenBy
            (writer_at A.stamped_session (members (farther (session_view pass.old))))
            (held (session_view pass.old) A.stamped_rid) }
        ensures step { Stamps (session_view pass.old) A.stamped_session A.stamped_rid number
            (session_view pass.new) }
        ensures own { IsAwayOf (board_id self.now) (sizes_of self.now) pass.new ×
            (pass.new.number ≡ pass.old.number) }
    {
        self.table.shared.load::<Stamping<A>>(&mut pass.seat, 0);
    }

    /// Gives an open write of a session that handed over the next number. The committer's part was joined before the bucket's.
    pub fn stamp(&self, pass: &mut SessionPass, session: u32, rid: Rid, number: u64)
        requires own { IsAwayOf (board_id self.now) (sizes_of self.now) pass.old }
        requires held { HasBoth (session_view pass.old) ×
            (bucket_of (sizes_of self.now).buckets rid ≡ bucket_number (session_view pass.old)) }
        requires received { AreLent (farther (session_view pass.old)) ×
            IsTrue (is_in (who (members (farther (session_view pass.old)))) session) }
        requires plain { IsTrue
            (is_plain (part_of session (members (farther (session_view pass.old)))).log) }
        requires next { number ≡ suc (length (commit_behind (session_view pass.old)).history.list) }
        requires mine { IsOpenBy (writer_at session (members (farther (session_view pass.old))))
            (held (session_view pass.old) rid) }
        ensures step { Stamps (session_view pass.old) session rid number (session_view pass.new) }
        ensures own { IsAwayOf (board_id self.now) (sizes_of self.now) pass.new ×
            (pass.new.number ≡ pass.old.number) }
    {
        self.stamp_as::<Brand>(pass, session, rid, number);
    }

    /// Stores the next mark. The transactions that were handed over join the history as one group, in the order in which they
    /// were received, and each is logged as published.
    pub fn publish(&self, pass: &mut SessionPass, number: u64)
        requires own { IsAwayOf (board_id self.now) (sizes_of self.now) pass.old }
        requires held { HasCommit (session_view pass.old) }
        requires received { AreLent (beyond (session_view pass.old)) }
        requires next { number ≡ suc (length (commit (session_view pass.old)).history.list) }
        requires may { MayPublish (members (beyond (session_view pass.old)))
            (commit (session_view pass.old)).stamped }
        ensures step { Publishes (session_view pass.old) number (session_view pass.new) }
        ensures own { IsAwayOf (board_id self.now) (sizes_of self.now) pass.new ×
            (pass.new.number ≡ pass.old.number) }
    {
        self.table
            .shared
            .store::<Publishing>(&mut pass.seat, 0, number);
    }

    /// Gives the part that follows the pass's first one back to the session that handed it over.
    pub fn hand_back<P: Pass>(&self, pass: &mut P, session: u32) -> TxSeat
        requires own { IsSeatOf (board_id self.now) (P.seat_of pass.old) }
        requires next { HasLent session (view (P.seat_of pass.old)) }
        requires unstamped { (next_lent (view (P.seat_of pass.old))).stamped ≡ false }
        ensures view { view (P.seat_of pass.new) ≡ hands_back (view (P.seat_of pass.old)) }
        ensures seat { tx_view result ≡
            lent_alone session (next_lent (view (P.seat_of pass.old))) (view (P.seat_of pass.old)) }
        ensures tx { IsTxOf (board_id self.now) result × (result.number ≡ session) }
        ensures own { IsSeatOf (board_id self.now) (P.seat_of pass.new) ×
            (P.rest_of pass.new ≡ P.rest_of pass.old) }
    {
        let seat = self.table.shared.split_seat::<HandingBack>(pass.seat());
        TxSeat {
            number: session,
            seat,
        }
    }

    /// Takes the session's own part back: it is as it was, or has one commit number more, over the mark at which it was handed over.
    pub fn resume(&self, pass: &mut SessionPass, seat: TxSeat)
        requires own { IsAwayOf (board_id self.now) (sizes_of self.now) pass.old }
        requires tx { IsTxOf (board_id self.now) seat × (seat.number ≡ pass.old.number) }
        ensures step { session_view pass.new ≡ resuming (session_view pass.old) (tx_view seat) }
        ensures back { IsBack (since (session_view pass.old)) (session (session_view pass.old))
            (session (tx_view seat)) }
        ensures own { IsSessionOf (board_id self.now) (sizes_of self.now) pass.new ×
            (pass.new.number ≡ pass.old.number) }
    {
        let TxSeat { seat, .. } = seat;
        self.table.shared.join_seat::<Joining>(&mut pass.seat, seat);
        self.table.shared.load::<Retaking>(&mut pass.seat, 0);
    }
}

impl Board {
    /// Loads the mark, and begins a record with what the pass has seen.
    pub fn mark(&self, pass: &mut CollectorPass) -> u64
        requires own { IsPassOf (board_id self.now) pass.old }
        ensures step { Marks (pass_view pass.old) result (pass_view pass.new) }
        ensures own { IsPassOf (board_id self.now) pass.new }
    {
        self.table.shared.load::<Marking>(&mut pass.seat, 0)
    }

    /// Loads a session's register into the record, which has none of that session yet.
    pub fn sample(&self, pass: &mut CollectorPass, j: u32) -> Register
        requires own { IsPassOf (board_id self.now) pass.old }
        requires session { IsSession (sizes_of self.now).sessions j }
        requires fresh { found j (own_pass (pass_view pass.old)).loaded ≡ None }
        ensures step { Samples (pass_view pass.old) j result (pass_view pass.new) }
        ensures register { IsRegister result }
        ensures own { IsPassOf (board_id self.now) pass.new }
    {
        let word = self
            .table
            .shared
            .load::<Sampling>(&mut pass.seat, register_at(j));
        Register::from_word(word)
    }

    /// Loads a session's mask word into the record, which has its register as live and declared. The answer is the word.
    pub fn sample_mask(&self, pass: &mut CollectorPass, j: u32) -> u64
        requires own { IsPassOf (board_id self.now) pass.old }
        requires session { IsSession (sizes_of self.now).sessions j }
        requires loaded { AwaitsMask (found j (own_pass (pass_view pass.old)).loaded) }
        ensures step { SamplesMask (pass_view pass.old) j result (pass_view pass.new) }
        ensures own { IsPassOf (board_id self.now) pass.new }
    {
        self.table
            .shared
            .load::<SamplingMask>(&mut pass.seat, mask_at(j))
    }

    /// Moves a snapshot that the record has as live, declared and not moved, if its register still shows that. The answer
    /// says whether it did: then the record's entry is moved too, and else no part has changed.
    pub fn move_one(&self, pass: &mut CollectorPass, j: u32, from: Register) -> bool
        requires own { IsPassOf (board_id self.now) pass.old }
        requires session { IsSession (sizes_of self.now).sessions j }
        requires movable { IsMovable from × IsRegister from }
        requires loaded { HasRegister from (found j (own_pass (pass_view pass.old)).loaded) }
        ensures step { Moves (pass_view pass.old) j (number_of from) result (pass_view pass.new) }
        ensures own { IsPassOf (board_id self.now) pass.new }
    {
        let unmoved = from.word();
        let found = self.table.shared.compare_exchange::<Moving>(
            &mut pass.seat,
            register_at(j),
            unmoved,
            moved(from).word(),
        );
        found == unmoved
    }

    fn reclaim_as<A: Removed>(&self, pass: &mut CollectorPass, _rid: Rid, _kind: Kind)
        requires own { IsPassOf (board_id self.now) pass.old }
        requires whole { IsWhole (sizes_of self.now).sessions
            (record_of (own_pass (pass_view pass.old))) }
        requires held { HasBucket (pass_view pass.old) ×
            (bucket_of (sizes_of self.now).buckets A.removed_rid ≡
            bucket_number (pass_view pass.old)) }
        requires visits { IsVisiting (bucket_number (pass_view pass.old))
            (own_pass (pass_view pass.old)).visits }
        ensures step { Reclaims (pass_view pass.old) A.removed_rid A.kind (pass_view pass.new) }
        ensures own { IsPassOf (board_id self.now) pass.new }
    {
        self.table.shared.load::<Reclaiming<A>>(&mut pass.seat, 0);
    }

    /// Removes the versions of a record that this kind of collector removes by the pass's record, which is whole, and counts them.
    pub fn reclaim(&self, pass: &mut CollectorPass, rid: Rid, kind: Kind)
        requires own { IsPassOf (board_id self.now) pass.old }
        requires whole { IsWhole (sizes_of self.now).sessions
            (record_of (own_pass (pass_view pass.old))) }
        requires held { HasBucket (pass_view pass.old) ×
            (bucket_of (sizes_of self.now).buckets rid ≡ bucket_number (pass_view pass.old)) }
        requires visits { IsVisiting (bucket_number (pass_view pass.old))
            (own_pass (pass_view pass.old)).visits }
        ensures step { Reclaims (pass_view pass.old) rid kind (pass_view pass.new) }
        ensures own { IsPassOf (board_id self.now) pass.new }
    {
        self.reclaim_as::<Brand>(pass, rid, kind);
    }

    /// Counts one more group as taken out of the committer's list. The answer is the mark.
    pub fn take_group(&self, pass: &mut CollectorPass) -> u64
        requires own { IsPassOf (board_id self.now) pass.old }
        requires held { HasCommit (pass_view pass.old) }
        requires left { (commit (pass_view pass.old)).taken <
            length (commit (pass_view pass.old)).history.list }
        ensures step { Takes (pass_view pass.old) result (pass_view pass.new) }
        ensures own { IsPassOf (board_id self.now) pass.new }
    {
        self.table.shared.load::<Taking>(&mut pass.seat, 0)
    }
}
