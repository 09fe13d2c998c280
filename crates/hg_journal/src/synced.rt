//! One change of a file, and a sync. Each begins and ends with a file that is on the disk as it is seen.

ghost use Rattle.std.specs.Prelude.{◌≡◌, ◌+◌, ◌≤◌, ◌<◌, ◌^◌, ◌⊎◌, ◌++◌, [], ◌∷◌, length, take, OnOk};
ghost use Rattle.hg_base.specs.Faults.{HasCause};
ghost use Rattle.hg_journal.specs.Device.{Cut, Grown, Holds, LeavesOnly, Only};
ghost use Rattle.hg_journal.specs.Gate.{at_rest};

use crate::device::Device;
use hg_base::Failed;

/// Writes a text and a closed gate behind the end.
pub(crate) fn extend<D: Device>(device: &mut D, end: usize, text: &[u8]) -> Result<(), Failed>
    requires end { end ≡ length (D.seen device.old) }
    requires room { end + length text.now < 2 ^ 63 }
    requires durable { Only (D.seen device.old) (D.may_leave device.old) }
    ensures written { OnOk result
        (D.seen device.new ≡ D.seen device.old ++ at_rest text.now) }
    ensures durable { OnOk result (Only (D.seen device.new) (D.may_leave device.new)) }
    ensures any_moment { LeavesOnly D.moment D.left_since device.old device.new
        (Grown (length text.now + 1) (D.seen device.old)) }
    ensures cause { HasCause (D.faults device.old) (D.faults device.new) result }
{
    device.write_at(end, text)?;
    device.write_at(end + text.len(), b"\n")?;
    device.sync()
}

/// Replaces one byte.
pub(crate) fn replace<D: Device>(device: &mut D, at: usize, byte: u8) -> Result<(), Failed>
    requires within { at < length (D.seen device.old) }
    requires durable { Only (D.seen device.old) (D.may_leave device.old) }
    ensures written { OnOk result (Holds (D.seen device.old) at (byte ∷ []) (D.seen device.new)) }
    ensures durable { OnOk result (Only (D.seen device.new) (D.may_leave device.new)) }
    ensures any_moment { LeavesOnly D.moment D.left_since device.old device.new
        (λ c. (c ≡ D.seen device.old) ⊎ Holds (D.seen device.old) at (byte ∷ []) c) }
    ensures cause { HasCause (D.faults device.old) (D.faults device.new) result }
{
    device.replace(at, byte)?;
    device.sync()
}

/// Cuts the file to a length.
pub(crate) fn cut<D: Device>(device: &mut D, len: usize) -> Result<(), Failed>
    requires within { len ≤ length (D.seen device.old) }
    requires durable { Only (D.seen device.old) (D.may_leave device.old) }
    ensures cut { OnOk result (D.seen device.new ≡ take len (D.seen device.old)) }
    ensures durable { OnOk result (Only (D.seen device.new) (D.may_leave device.new)) }
    ensures any_moment { LeavesOnly D.moment D.left_since device.old device.new
        (Cut len (D.seen device.old)) }
    ensures cause { HasCause (D.faults device.old) (D.faults device.new) result }
{
    device.cut(len)?;
    device.sync()
}
