//! A file as the journal sees it: what was written, and what a crash may leave.

ghost use Rattle.std.specs.Prelude.{◌≡◌, ◌≤◌, ◌<◌, List, [], ◌∷◌, ℕ, length, take, OnOk};
ghost use Rattle.hg_base.specs.Faults.{HasCause};
ghost use Rattle.hg_journal.specs.Device.{Cut, Elapses, Follows, Holds, Only, Replaced, Torn};

use hg_base::Failed;

/// One file, with a clock: a crash may come at any moment, during a call or between two.
pub trait Device {
    /// What a read would return.
    ghost seen: { Self → List ℕ };

    /// What a crash at this moment may leave.
    ghost may_leave: { Self → List ℕ → Type 0 };

    /// The moment, as a number that does not fall.
    ghost moment: { Self → ℕ };

    /// What a crash at some moment from that one on might have left.
    ghost left_since: { Self → ℕ → List ℕ → Type 0 };

    /// How many calls have failed.
    ghost faults: { Self → ℕ };

    /// Writes over what is there, and past the end. Until a sync, a crash may leave any bytes in the range.
    fn write_at(&mut self, at: usize, bytes: &[u8]) -> Result<(), Failed>
        requires { at ≤ length (seen self.old) }
        ensures written { OnOk result (Holds (seen self.old) at bytes.now (seen self.new)) }
        ensures crash { Follows (Torn at (length bytes.now)) (may_leave self.old) (may_leave self.new) }
        ensures time { Elapses (moment self.old) (moment self.new)
            (left_since self.old) (left_since self.new) (may_leave self.new) }
        ensures cause { HasCause (faults self.old) (faults self.new) result };

    /// Replaces one byte. Until a sync, a crash may leave the old byte or the new one.
    fn replace(&mut self, at: usize, byte: u8) -> Result<(), Failed>
        requires { at < length (seen self.old) }
        ensures written { OnOk result (Holds (seen self.old) at (byte ∷ []) (seen self.new)) }
        ensures crash { Follows (Replaced at byte) (may_leave self.old) (may_leave self.new) }
        ensures time { Elapses (moment self.old) (moment self.new)
            (left_since self.old) (left_since self.new) (may_leave self.new) }
        ensures cause { HasCause (faults self.old) (faults self.new) result };

    /// Cuts the file to a length. Until a sync, a crash may leave any length between.
    fn cut(&mut self, len: usize) -> Result<(), Failed>
        requires { len ≤ length (seen self.old) }
        ensures cut { OnOk result (seen self.new ≡ take len (seen self.old)) }
        ensures crash { Follows (Cut len) (may_leave self.old) (may_leave self.new) }
        ensures time { Elapses (moment self.old) (moment self.new)
            (left_since self.old) (left_since self.new) (may_leave self.new) }
        ensures cause { HasCause (faults self.old) (faults self.new) result };

    /// After it, a crash leaves what a read returns.
    fn sync(&mut self) -> Result<(), Failed>
        ensures seen { seen self.new ≡ seen self.old }
        ensures durable { OnOk result (Only (seen self.old) (may_leave self.new)) }
        ensures crash { (c : List ℕ) → may_leave self.new c → may_leave self.old c }
        ensures time { Elapses (moment self.old) (moment self.new)
            (left_since self.old) (left_since self.new) (may_leave self.new) }
        ensures cause { HasCause (faults self.old) (faults self.new) result };

    /// This moment is one of those since an earlier one.
    ghost counts_now: { (file : Self) (t : ℕ) (c : List ℕ) →
        t ≤ moment file → may_leave file c → left_since file t c };

    /// Since this moment there is no other.
    ghost only_now: { (file : Self) (c : List ℕ) →
        left_since file (moment file) c → may_leave file c };
}
