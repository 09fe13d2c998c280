//! The protocol of a session: a transaction from `declare` to `end`, and its looks and writes in the buckets that it holds meanwhile.
//! Each step is one event of `hg_core`.

ghost use Rattle.std.specs.Prelude.{◌≡◌, ◌<◌, false, None, IsSome, IsTrue};
ghost use Rattle.hg_base.specs.declared.rid.Rid.{Rid};
ghost use Rattle.hg_base.specs.Lists.{Each};
ghost use Rattle.hg_base.specs.Transcript.{has};
ghost use Rattle.hg_core.specs.declared.phase.Phase.TheVariants.{Idle, Declared, Probed, Entered, Fixed};
ghost use Rattle.hg_core.specs.Words.{IsBelow};
ghost use Rattle.hg_core.specs.Logs.{begans, open_in, wrotes, is_plain};
ghost use Rattle.hg_core.specs.Phases.{declared_in, snapshot_in};
ghost use Rattle.hg_core.specs.Versions.{IsOpenBy};
ghost use Rattle.hg_core.specs.Contents.{bucket_of};
ghost use Rattle.hg_rule.specs.Views.{session};
ghost use Rattle.hg_rule.specs.Steps.{IsNumber, loaded_in, entered_in, Declares, Probes, Enters, Fixes, GoesLive, Ends};
ghost use Rattle.hg_rule.specs.Holding.{bucket_number, HasBucket, held, writer, snapshot, tables};
ghost use Rattle.hg_rule.specs.Writes.{MayAsk, IsOwnOrSeen, TrulyLooks, Installs, Undoes};
ghost use Rattle.hg_rule.specs.Seats.{board_id, sizes_of, session_view, IsSessionOf};

use crate::board::Board;
use crate::passes::SessionPass;
use crate::steps::{
    Asked, Asking, Declaring, Ending, Entering, Fixing, GoingLive, Installing, Named, Probing,
    Scoped, Undoing, Written,
};
use crate::words::{is_declared, mask_at, register_at};
use hg_base::{Image, Rid, Scope};
use hg_core::{Ask, Register, mask_word};
use std::marker::Brand;
use std::snapshot::Snapshot;

impl Board {
    fn declare_as<A: Scoped>(&self, pass: &mut SessionPass, scope: Scope)
        requires own { IsSessionOf (board_id self.now) (sizes_of self.now) pass.old }
        requires rests { (session (session_view pass.old)).phase ≡ Idle }
        requires tables { IsBelow (sizes_of self.now).tables scope }
        requires room { begans (session (session_view pass.old)).log < (sizes_of self.now).quota }
        requires picked { A.scope ≡ scope }
        ensures step { Declares (session_view pass.old) scope (session_view pass.new) }
        ensures own { IsSessionOf (board_id self.now) (sizes_of self.now) pass.new }
    {
        self.table
            .shared
            .store::<Declaring<A>>(&mut pass.seat, mask_at(pass.number), mask_word(scope));
    }

    /// Stores the mask of the tables that the next transaction declares. A pass that found the transaction before live may load it
    /// in place of that one's.
    pub fn declare(&self, pass: &mut SessionPass, scope: Scope)
        requires own { IsSessionOf (board_id self.now) (sizes_of self.now) pass.old }
        requires rests { (session (session_view pass.old)).phase ≡ Idle }
        requires tables { IsBelow (sizes_of self.now).tables scope }
        requires room { begans (session (session_view pass.old)).log < (sizes_of self.now).quota }
        ensures step { Declares (session_view pass.old) scope (session_view pass.new) }
        ensures own { IsSessionOf (board_id self.now) (sizes_of self.now) pass.new }
    {
        self.declare_as::<Brand>(pass, scope);
    }

    /// Loads the mark, which the session's register does not show yet.
    pub fn probe(&self, pass: &mut SessionPass) -> u64
        requires own { IsSessionOf (board_id self.now) (sizes_of self.now) pass.old }
        requires declared { (session (session_view pass.old)).phase ≡
            Declared (declared_in (session (session_view pass.old)).phase) }
        ensures step { Probes (session_view pass.old) result (session_view pass.new) }
        ensures own { IsSessionOf (board_id self.now) (sizes_of self.now) pass.new }
    {
        self.table.shared.load::<Probing>(&mut pass.seat, 0)
    }

    /// Stores in the register that the session enters at the mark that it loaded.
    pub fn enter(&self, pass: &mut SessionPass, f: u64)
        requires own { IsSessionOf (board_id self.now) (sizes_of self.now) pass.old }
        requires probed { ((session (session_view pass.old)).phase ≡
            Probed (declared_in (session (session_view pass.old)).phase) f) × IsNumber f }
        ensures step { Enters (session_view pass.old) f (session_view pass.new) }
        ensures own { IsSessionOf (board_id self.now) (sizes_of self.now) pass.new }
    {
        let word = Register::Entering(f).word();
        self.table
            .shared
            .store::<Entering>(&mut pass.seat, register_at(pass.number), word);
    }

    /// Loads the mark again.
    pub fn fix(&self, pass: &mut SessionPass) -> u64
        requires own { IsSessionOf (board_id self.now) (sizes_of self.now) pass.old }
        requires entered { (session (session_view pass.old)).phase ≡
            Entered (declared_in (session (session_view pass.old)).phase)
            (loaded_in (session (session_view pass.old)).phase) }
        ensures step { Fixes (session_view pass.old) result (session_view pass.new) }
        ensures own { IsSessionOf (board_id self.now) (sizes_of self.now) pass.new }
    {
        self.table.shared.load::<Fixing>(&mut pass.seat, 0)
    }
}

impl Board {
    /// Stores the second mark as the snapshot, and whether tables were declared. The scope is the one that was declared. The
    /// transaction is logged as begun.
    pub fn go_live(&self, pass: &mut SessionPass, m: u64, scope: Scope)
        requires own { IsSessionOf (board_id self.now) (sizes_of self.now) pass.old }
        requires fixed { ((session (session_view pass.old)).phase ≡
            Fixed scope (entered_in (session (session_view pass.old)).phase) m) ×
            IsNumber m }
        requires room { begans (session (session_view pass.old)).log < (sizes_of self.now).quota }
        ensures step { GoesLive (session_view pass.old) m scope (session_view pass.new) }
        ensures own { IsSessionOf (board_id self.now) (sizes_of self.now) pass.new }
    {
        let register = Register::Live {
            number: m,
            declared: is_declared(scope),
            moved: false,
        };
        self.table
            .shared
            .store::<GoingLive>(&mut pass.seat, register_at(pass.number), register.word());
        pass.begun += 1;
    }

    /// Goes to rest. The transaction is logged as over.
    pub fn end(&self, pass: &mut SessionPass)
        requires own { IsSessionOf (board_id self.now) (sizes_of self.now) pass.old }
        requires live { IsSome (snapshot_in (session (session_view pass.old)).phase) }
        requires none { (rid : Rid) → open_in rid (session (session_view pass.old)).log ≡ None }
        ensures step { Ends (session_view pass.old) (session_view pass.new) }
        ensures own { IsSessionOf (board_id self.now) (sizes_of self.now) pass.new }
    {
        self.table
            .shared
            .store::<Ending>(&mut pass.seat, register_at(pass.number), 0);
    }
}

impl Board {
    fn look_as_asked<A: Asked>(&self, pass: &mut SessionPass, _ask: &Ask) -> u64
        requires own { IsSessionOf (board_id self.now) (sizes_of self.now) pass.old }
        requires live { IsSome (snapshot_in (session (session_view pass.old)).phase) }
        requires plain { IsTrue (is_plain (session (session_view pass.old)).log) }
        requires unstamped { (session (session_view pass.old)).stamped ≡ false }
        requires asks { MayAsk (sizes_of self.now).buckets (session_view pass.old) A.ask }
        requires picked { A.asked_at ≡ sizes_of self.now }
        ensures step { TrulyLooks (sizes_of self.now) (session_view pass.old) A.ask result
            (session_view pass.new) }
        ensures own { IsSessionOf (board_id self.now) (sizes_of self.now) pass.new }
    {
        self.table.shared.load::<Asking<A>>(&mut pass.seat, 0)
    }

    /// Logs the reply that the content held and the mark give to what is asked. The answer is the mark. Afterwards all is known
    /// that the rule says of the view, and the log of every session as it is.
    pub fn look(&self, pass: &mut SessionPass, ask: &Ask) -> u64
        requires own { IsSessionOf (board_id self.now) (sizes_of self.now) pass.old }
        requires live { IsSome (snapshot_in (session (session_view pass.old)).phase) }
        requires plain { IsTrue (is_plain (session (session_view pass.old)).log) }
        requires unstamped { (session (session_view pass.old)).stamped ≡ false }
        requires asks { MayAsk (sizes_of self.now).buckets (session_view pass.old) ask.now }
        ensures step { TrulyLooks (sizes_of self.now) (session_view pass.old) ask.now result
            (session_view pass.new) }
        ensures own { IsSessionOf (board_id self.now) (sizes_of self.now) pass.new }
    {
        self.look_as_asked::<Brand>(pass, ask)
    }

    fn install_as<A: Written>(&self, pass: &mut SessionPass, _rid: Rid, _image: Snapshot<Image>)
        requires own { IsSessionOf (board_id self.now) (sizes_of self.now) pass.old }
        requires live { IsSome (snapshot_in (session (session_view pass.old)).phase) }
        requires plain { IsTrue (is_plain (session (session_view pass.old)).log) }
        requires unstamped { (session (session_view pass.old)).stamped ≡ false }
        requires held { HasBucket (session_view pass.old) ×
            (bucket_of (sizes_of self.now).buckets A.written_rid ≡
            bucket_number (session_view pass.old)) }
        requires table { IsTrue (has (tables (session_view pass.old)) A.written_rid.table) ×
            (A.written_rid.table.0 < (sizes_of self.now).tables) }
        requires room { wrotes (session (session_view pass.old)).log < (sizes_of self.now).quota }
        requires free { Each
            (IsOwnOrSeen (writer (session_view pass.old)) (snapshot (session_view pass.old)))
            (held (session_view pass.old) A.written_rid) }
        ensures step { Installs (session_view pass.old) A.written_rid A.image
            (session_view pass.new) }
        ensures own { IsSessionOf (board_id self.now) (sizes_of self.now) pass.new }
    {
        self.table.shared.load::<Installing<A>>(&mut pass.seat, 0);
    }

    /// Stores a write in the content held, which is logged. Each version of the record is the transaction's own open write, or
    /// is numbered at or below its snapshot. Only clauses see the image.
    pub fn install(&self, pass: &mut SessionPass, rid: Rid, image: Snapshot<Image>)
        requires own { IsSessionOf (board_id self.now) (sizes_of self.now) pass.old }
        requires live { IsSome (snapshot_in (session (session_view pass.old)).phase) }
        requires plain { IsTrue (is_plain (session (session_view pass.old)).log) }
        requires unstamped { (session (session_view pass.old)).stamped ≡ false }
        requires held { HasBucket (session_view pass.old) ×
            (bucket_of (sizes_of self.now).buckets rid ≡ bucket_number (session_view pass.old)) }
        requires table { IsTrue (has (tables (session_view pass.old)) rid.table) ×
            (rid.table.0 < (sizes_of self.now).tables) }
        requires room { wrotes (session (session_view pass.old)).log < (sizes_of self.now).quota }
        requires free { Each
            (IsOwnOrSeen (writer (session_view pass.old)) (snapshot (session_view pass.old)))
            (held (session_view pass.old) rid) }
        ensures step { Installs (session_view pass.old) rid image.value (session_view pass.new) }
        ensures own { IsSessionOf (board_id self.now) (sizes_of self.now) pass.new }
    {
        self.install_as::<Brand>(pass, rid, image);
    }

    fn undo_as<A: Named>(&self, pass: &mut SessionPass, _rid: Rid)
        requires own { IsSessionOf (board_id self.now) (sizes_of self.now) pass.old }
        requires unstamped { (session (session_view pass.old)).stamped ≡ false }
        requires held { HasBucket (session_view pass.old) ×
            (bucket_of (sizes_of self.now).buckets A.rid ≡ bucket_number (session_view pass.old)) }
        requires mine { IsOpenBy (writer (session_view pass.old))
            (held (session_view pass.old) A.rid) }
        ensures step { Undoes (session_view pass.old) A.rid (session_view pass.new) }
        ensures own { IsSessionOf (board_id self.now) (sizes_of self.now) pass.new }
    {
        self.table.shared.load::<Undoing<A>>(&mut pass.seat, 0);
    }

    /// Takes an open write back, and logs that.
    pub fn undo(&self, pass: &mut SessionPass, rid: Rid)
        requires own { IsSessionOf (board_id self.now) (sizes_of self.now) pass.old }
        requires unstamped { (session (session_view pass.old)).stamped ≡ false }
        requires held { HasBucket (session_view pass.old) ×
            (bucket_of (sizes_of self.now).buckets rid ≡ bucket_number (session_view pass.old)) }
        requires mine { IsOpenBy (writer (session_view pass.old))
            (held (session_view pass.old) rid) }
        ensures step { Undoes (session_view pass.old) rid (session_view pass.new) }
        ensures own { IsSessionOf (board_id self.now) (sizes_of self.now) pass.new }
    {
        self.undo_as::<Brand>(pass, rid);
    }
}
