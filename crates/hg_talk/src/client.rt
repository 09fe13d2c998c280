//! A client: it sends records and is answered, as over a pipe.

ghost use Rattle.std.specs.Prelude.{List, ℕ};
ghost use Rattle.std.specs.Io.{ReadsAtMost};
ghost use Rattle.hg_base.specs.Faults.{HasCause, TakesSome};
ghost use Rattle.hg_talk.specs.Events.{Event, AddsRead, AddsWrite};

use hg_base::Failed;

/// It sends records and is answered.
pub trait Client {
    /// What passed, newest first.
    ghost log: { Self → List Event };

    /// How often the client has failed.
    ghost faults: { Self → ℕ };

    /// Fills the first bytes of `into`. If the buffer is not empty, `Ok(0)` says that nothing more comes.
    fn read(&mut self, into: &mut [u8]) -> Result<usize, Failed>
        ensures bound { ReadsAtMost result into.new }
        ensures log { AddsRead (log self.old) (log self.new) result into.new }
        ensures cause { HasCause (faults self.old) (faults self.new) result };

    /// Takes the first bytes of `piece`: at least one, where there is one.
    fn write(&mut self, piece: &[u8]) -> Result<usize, Failed>
        ensures bound { TakesSome result piece.now }
        ensures log { AddsWrite (log self.old) (log self.new) result piece.now }
        ensures cause { HasCause (faults self.old) (faults self.new) result };
}
