//! What each step makes of the view of the pass that makes it. The traits come first: each names what a step depends on besides the
//! words, such as the record that is written. The call that makes the step sets it.

ghost use Rattle.hg_base.specs.declared.rid.Rid.{Rid};
ghost use Rattle.hg_base.specs.declared.scope.Scope.{Scope};
ghost use Rattle.hg_base.specs.declared.scope.Scope.TheVariants.{All};
ghost use Rattle.hg_base.specs.declared.image.Image.{Image};
ghost use Rattle.hg_base.specs.declared.report.Kind.{Kind};
ghost use Rattle.hg_base.specs.declared.report.Kind.TheVariants.{Group};
ghost use Rattle.std.specs.Prelude.{ℕ, None};
ghost use Rattle.hg_core.specs.declared.ask.Ask.{Ask};
ghost use Rattle.hg_core.specs.declared.ask.Ask.TheVariants.{Outside};
ghost use Rattle.hg_rule.specs.declared.view.Sizes.{Sizes};
ghost use Rattle.hg_rule.specs.Steps.{declared, probed, entered, fixed, went_live, ended, marked, sampled, masked, tried, looked};
ghost use Rattle.hg_rule.specs.Writes.{asked, wrote, undid};
ghost use Rattle.hg_rule.specs.Removes.{removed, took};
ghost use Rattle.hg_rule.specs.Sharing.{budded, unites};
ghost use Rattle.hg_rule.specs.Handing.{lends, retakes, stamps, publishes};

use crate::view::View;
use atomic_table::Play;
use std::marker::{Brand, PhantomData};

/// The sizes of the board.
pub(crate) trait Sized {
    ghost sizes: { Sizes };
}

impl Sized for Brand {
    ghost sizes = { record { sessions = 0; tables = 0; buckets = 0; quota = 0 } };
}

/// The tables that a session declares.
pub(crate) trait Scoped {
    ghost scope: { Scope };
}

impl Scoped for Brand {
    ghost scope = { All };
}

/// What a look asks.
pub(crate) trait Asked {
    ghost asked_at: { Sizes };

    ghost ask: { Ask };
}

impl Asked for Brand {
    ghost asked_at = { record { sessions = 0; tables = 0; buckets = 0; quota = 0 } };

    ghost ask = { Outside (record { 0 = 0 }) };
}

/// A record, and what is written there.
pub(crate) trait Written {
    ghost written_rid: { Rid };

    ghost image: { Image };
}

impl Written for Brand {
    ghost written_rid = { record { table = (record { 0 = 0 }); key = 0 } };

    ghost image = { record { row = None } };
}

/// A record.
pub(crate) trait Named {
    ghost rid: { Rid };
}

impl Named for Brand {
    ghost rid = { record { table = (record { 0 = 0 }); key = 0 } };
}

/// A record, and the kind of the collector.
pub(crate) trait Removed {
    ghost removed_rid: { Rid };

    ghost kind: { Kind };
}

impl Removed for Brand {
    ghost removed_rid = { record { table = (record { 0 = 0 }); key = 0 } };

    ghost kind = { Group };
}

/// A session, and a record.
pub(crate) trait Stamped {
    ghost stamped_session: { ℕ };

    ghost stamped_rid: { Rid };
}

impl Stamped for Brand {
    ghost stamped_session = { 0 };

    ghost stamped_rid = { record { table = (record { 0 = 0 }); key = 0 } };
}

pub(crate) struct Declaring<A> {
    scope: PhantomData<A>,
}

impl<A: Scoped> Play<u8, View> for Declaring<A> {
    ghost then = { declared A.scope };
}

pub(crate) struct Probing;

impl Play<u8, View> for Probing {
    ghost then = { probed };
}

pub(crate) struct Entering;

impl Play<u8, View> for Entering {
    ghost then = { entered };
}

pub(crate) struct Fixing;

impl Play<u8, View> for Fixing {
    ghost then = { fixed };
}

pub(crate) struct GoingLive;

impl Play<u8, View> for GoingLive {
    ghost then = { went_live };
}

pub(crate) struct Ending;

impl Play<u8, View> for Ending {
    ghost then = { ended };
}

/// A look, which logs what it finds.
pub(crate) struct Asking<A> {
    ask: PhantomData<A>,
}

impl<A: Asked> Play<u8, View> for Asking<A> {
    ghost then = { asked A.asked_at A.ask };
}

pub(crate) struct Installing<A> {
    write: PhantomData<A>,
}

impl<A: Written> Play<u8, View> for Installing<A> {
    ghost then = { wrote A.written_rid A.image };
}

pub(crate) struct Undoing<A> {
    rid: PhantomData<A>,
}

impl<A: Named> Play<u8, View> for Undoing<A> {
    ghost then = { undid A.rid };
}

pub(crate) struct Marking;

impl Play<u8, View> for Marking {
    ghost then = { marked };
}

pub(crate) struct Sampling;

impl Play<u8, View> for Sampling {
    ghost then = { sampled };
}

pub(crate) struct SamplingMask;

impl Play<u8, View> for SamplingMask {
    ghost then = { masked };
}

pub(crate) struct Moving;

impl Play<u8, View> for Moving {
    ghost then = { tried };
}

pub(crate) struct Reclaiming<A> {
    rid: PhantomData<A>,
}

impl<A: Removed> Play<u8, View> for Reclaiming<A> {
    ghost then = { removed A.removed_rid A.kind };
}

pub(crate) struct Taking;

impl Play<u8, View> for Taking {
    ghost then = { took };
}

/// The own part is handed over, and follows its place until it leaves.
pub(crate) struct Lending;

impl Play<u8, View> for Lending {
    ghost then = { lends };
}

/// The own part returns to its place.
pub(crate) struct Retaking;

impl Play<u8, View> for Retaking {
    ghost then = { retakes };
}

pub(crate) struct Stamping<A> {
    rid: PhantomData<A>,
}

impl<A: Stamped> Play<u8, View> for Stamping<A> {
    ghost then = { stamps A.stamped_session A.stamped_rid };
}

pub(crate) struct Publishing;

impl Play<u8, View> for Publishing {
    ghost then = { publishes };
}

/// One more pass follows the first, with the first one's record.
pub(crate) struct Budding;

impl Play<u8, View> for Budding {
    ghost then = { budded };
}

/// The pass that follows the first becomes one with it.
pub(crate) struct Uniting;

impl Play<u8, View> for Uniting {
    ghost then = { unites };
}

/// A load of the mark that leaves the view as it is.
pub(crate) struct Looking<A> {
    sizes: PhantomData<A>,
}

impl<A: Sized> Play<u8, View> for Looking<A> {
    ghost then = { looked A.sizes };
}
