//! What stands at a record's place: its chain, and its oldest image.

ghost use Rattle.std.specs.Prelude.{◌≡◌, ◌+◌, ◌<◌, ◌^◌, ◌==◌, List, length, is_some, slice_set, not, IsOk, IsTrue, IfOk, OnOk, OnErr, None, Some, nat_lt, if◌then◌else◌, option_map, option_and_then};
ghost use Rattle.std.specs.Option.{option_copied, option_or};
ghost use Rattle.std.specs.Bool.{OnTrue, OnFalse};
ghost use Rattle.hg_chains.specs.Places.{list_at, OthersStay as ListsStay};
ghost use Rattle.hg_chains.specs.Versions.{image_by, image_at, installed, is_open_by, NoOther};
ghost use Rattle.hg_space.specs.Places as seat;
ghost use Rattle.hg_space.specs.Places.{IsTaken};
ghost use Rattle.hg_space.specs.Index.{place_of, IsIndex};
ghost use Rattle.hg_space.specs.declared.roster.Listed.{Listed};
ghost use Rattle.hg_space.specs.Rosters.{list_of, StandsIn, StandsNowhere};
ghost use Rattle.hg_bucket.specs.Conflicts.{conflict};
ghost use Rattle.hg_bucket.specs.declared.refusal.WriteRefusal.TheVariants.{Newer};
ghost use Rattle.hg_bucket.specs.BucketModel.{versions_of, OthersStay, left};
ghost use Rattle.hg_bucket.specs.Parts.{oldest_by, settled, whole, records_of, AreWhole, AreListed, AreAlike, StayAsTheyWere, IsGiven, MayBeBare, Enters, Leaves};

use crate::refusal::{WriteRefusal, refusal};
use hg_base::{Image, NoMemory, Rid, Writer};
use hg_chains::Chains;
use hg_space::{RidIndex, Roster, TableSpace};

/// A record, and its place.
#[derive(Clone, Copy)]
pub(crate) struct Placed {
    pub rid: Rid,
    pub place: u64,
}

/// What a transaction reads of a record's chain.
pub(crate) fn read_chain(chains: &Chains, place: u64, snapshot: u64, own: Writer) -> Option<&Image>
    ensures { let vs = list_at chains.now place in option_copied result ≡
        option_or (image_by own vs) (image_at snapshot vs) }
{
    match chains.own(place, own) {
        Some(image) => Some(image),
        None => chains.visible(place, snapshot),
    }
}

/// What a reader sees of a record's oldest image.
pub(crate) fn read(space: &TableSpace, place: u64, snapshot: u64) -> Option<&Image>
    requires { IsTaken space.now.places place }
    ensures { option_copied result ≡ oldest_by snapshot (seat.image_at space.now.places place) }
{
    let (number, image) = space.image(place)?;
    if number > snapshot {
        return None;
    }
    Some(image)
}

/// The number of a record's oldest image.
pub(crate) fn number(space: &TableSpace, place: u64) -> Option<u64>
    requires { IsTaken space.now.places place }
    ensures { result ≡ option_map (λ oldest. oldest.0) (seat.image_at space.now.places place) }
{
    let (number, _) = space.image(place)?;
    Some(number)
}

// Whether a record's oldest image is over the snapshot.
fn newer(space: &TableSpace, place: u64, snapshot: u64) -> Option<WriteRefusal>
    requires { IsTaken space.now.places place }
    ensures { result ≡
        option_and_then (λ oldest. if nat_lt snapshot oldest.0 then Some (Newer oldest.0) else None)
        (seat.image_at space.now.places place) }
{
    let (number, _) = space.image(place)?;
    if snapshot < number {
        return Some(WriteRefusal::Newer { number });
    }
    None
}

/// Why a write is refused, memory aside. The newest version tells it: the oldest image does where there is no chain.
pub(crate) fn conflict(
    chains: &Chains,
    space: &TableSpace,
    place: u64,
    by: Writer,
    snapshot: u64,
    mark: u64,
) -> Option<WriteRefusal>
    requires { IsTaken space.now.places place }
    ensures refusal { result ≡
        conflict by snapshot mark
        (whole (list_at chains.now place) (seat.image_at space.now.places place)) }
    ensures free { result ≡ None → NoOther by (list_at chains.now place) }
{
    match chains.newest(place) {
        Some(stamp) => refusal(stamp, by, snapshot, mark),
        None => newer(space, place, snapshot),
    }
}

/// Writes an image into a record's chain. The answer says whether a version was added. A record whose chain begins enters its
/// table's list.
pub(crate) fn add(
    chains: &mut Chains,
    longs: &mut Roster,
    placed: Placed,
    image: Image,
    by: Writer,
) -> Result<bool, NoMemory>
    requires place { placed.place < 2 ^ 32 }
    requires own { NoOther by (list_at chains.old placed.place) }
    requires not_listed { OnTrue (length (list_at chains.old placed.place) == 0)
        (StandsNowhere longs.old placed.place) }
    ensures here { OnOk result
        (list_at chains.new placed.place ≡ installed by image (list_at chains.old placed.place)) }
    ensures others { ListsStay placed.place chains.old chains.new }
    ensures added { IfOk result
        (λ added. added ≡ not (is_open_by by (list_at chains.old placed.place))) }
    ensures entered { OnOk result (OnTrue (length (list_at chains.old placed.place) == 0)
        (Enters longs.old longs.new placed.rid placed.place)) }
    ensures listed { OnOk result
        (OnFalse (length (list_at chains.old placed.place) == 0) (longs.new ≡ longs.old)) }
    ensures refused { OnErr result (StayAsTheyWere chains.old chains.new longs.old longs.new) }
    ensures replaced { IsTrue (is_open_by by (list_at chains.old placed.place)) → IsOk result }
{
    let begins = chains.is_empty(placed.place);
    let added = match chains.install(placed.place, by, image) {
        Ok(added) => added,
        Err((_, refused)) => return Err(refused),
    };
    if !begins {
        return Ok(added);
    }
    if let Err(refused) = longs.enter(placed.rid.table, placed.rid.key, placed.place) {
        chains.undo(placed.place, by);
        return Err(refused);
    }
    Ok(added)
}

/// A record whose chain has become empty leaves its table's list.
pub(crate) fn leave_bare(longs: &mut Roster, chains: &Chains, placed: Placed)
    requires { StandsIn (list_of longs.old placed.rid.table.0) placed.place }
    ensures bare { OnTrue (length (list_at chains.now placed.place) == 0)
        (Leaves longs.old longs.new placed.rid placed.place) }
    ensures listed { OnFalse (length (list_at chains.now placed.place) == 0)
        (longs.new ≡ longs.old) }
{
    if chains.is_empty(placed.place) {
        longs.leave(placed.rid.table, placed.place);
    }
}

/// Takes a place for a record.
pub(crate) fn take(space: &mut TableSpace) -> Result<u64, NoMemory>
    ensures given { IfOk result (λ place. IsGiven space.old.places space.new.places place) }
    ensures fits { IfOk result (λ place. place < 2 ^ 32) }
    ensures refused { OnErr result (AreAlike space.old.places space.new.places) }
{
    space.reserve()?;
    let place = space.take_place();

    if RidIndex::is_past(place) {
        space.give_place(place);
        return Err(NoMemory);
    }
    Ok(place)
}

/// Puts a record's newest version at a bound in the place of its oldest image, or none where that is a deletion. The answer
/// says how many versions went.
pub(crate) fn settle(space: &mut TableSpace, place: u64, newest: (u64, Image)) -> u64
    requires { IsTaken space.old.places place }
    ensures set { space.new.places ≡
        slice_set space.old.places place
        (seat.taken (settled (Some newest) (seat.image_at space.old.places place))) }
    ensures gone { result ≡
        (if is_some (seat.image_at space.old.places place) then 1 else 0) +
        (if is_some newest.1.row then 0 else 1) }
{
    let (number, image) = newest;
    if image.row.is_none() {
        let old = space.set_image(place, None);
        return 1 + is_there(&old);
    }
    let old = space.set_image(place, Some((number, image)));
    is_there(&old)
}

// 1 where there is an image, and 0 where there is none.
fn is_there(image: &Option<(u64, Image)>) -> u64
    ensures { result ≡ (if is_some image.now then 1 else 0) }
{
    match image {
        Some(_) => 1,
        None => 0,
    }
}

/// Drops a record that has no version left.
pub(crate) fn drop_bare(
    index: &mut RidIndex,
    space: &mut TableSpace,
    chains: &Chains,
    placed: Placed,
)
    requires index { IsIndex index.old }
    requires has { place_of index.old placed.rid ≡ Some placed.place }
    requires bare { MayBeBare placed.place index.old chains.now space.old.places }
    ensures whole { AreWhole index.new chains.now space.new.places }
    ensures lists { (longs : List (List Listed)) → AreListed index.old chains.now longs →
        AreListed index.new chains.now longs }
    ensures here { versions_of (records_of index.new chains.now space.new.places) placed.rid ≡
        versions_of (records_of index.old chains.now space.old.places) placed.rid }
    ensures others { OthersStay (records_of index.old chains.now space.old.places)
        (records_of index.new chains.now space.new.places) placed.rid }
    ensures left { left (records_of index.new chains.now space.new.places) ≡
        left (records_of index.old chains.now space.old.places) }
{
    if !chains.is_empty(placed.place) {
        return;
    }
    if space.image(placed.place).is_some() {
        return;
    }
    let _ = index.remove(placed.rid);
    space.give_place(placed.place);
}
