//! The versions of one record, with the calls that change them.

ghost use Rattle.std.specs.Prelude.{ℕ, ◌≡◌, [], ◌∷◌, ◌++◌, false, if◌then◌else◌, drop, not, IsTrue, IsSome, IfOk, IfErr, IsOk, OnOk, OnErr, option_and_then, length, take, ◌<◌, slice_get, None, find, count_by, ◌-◌, ◌+◌, ◌≤◌, option_to_list};
ghost use Rattle.std.specs.Bool.{OnFalse};
ghost use Rattle.std.specs.Option.{option_copied};
ghost use Rattle.std.specs.VecDeque.{deque_capacity, deque_len};
ghost use Rattle.hg_base.specs.Lists.{Each};
ghost use Rattle.hg_chains.specs.Sweeps.{Rises, swept, swept_away, last_number, IsClean};
ghost use Rattle.hg_base.specs.Lifetimes.{goes, MayStay, IsGuarded};
ghost use Rattle.hg_chains.specs.Versions.{IsChain, NoOther, IsBelow, number_in, is_open_by, image_at, image_by, installed, stamped, left_by, newest, oldest_at, others_at, numbered_image, is_at_most};

use hg_base::{Image, NoMemory, Steps, Writer};
use hg_chains::{Cut, Merge, Stamp, Swept, Version};
use std::alloc::Global;
use std::collections::VecDeque;
use std::marker::Model;
use std::sync::ledger::Ledger;

/// A record's versions, newest first.
#[derive(Drop)]
pub struct Chain {
    versions: VecDeque<Version>,
}

impl Model for Chain {
    ghost use Rattle.std.specs.Prelude.{List};
    ghost use Rattle.hg_chains.specs.declared.version.Version.{Version};

    ghost Value = { List Version };

    ghost use Rattle.hg_chains.specs.Versions.{IsChain};

    ghost view = { λ a. a.versions.items };

    ghost invariant = { λ a. IsChain a.versions.items };
}

impl Chain {
    /// An empty chain. It takes no memory.
    pub fn new(alloc: Global) -> Chain
        ensures { result ≡ [] }
    {
        Chain {
            versions: VecDeque::new(alloc),
        }
    }

    /// Who wrote the newest version, and its number if it has one. All others have one.
    pub fn newest(&self) -> Option<Stamp>
        ensures newest { result ≡ newest self.now }
        ensures others { Each (λ v. IsSome (number_in v.stamp)) (drop 1 self.now) }
    {
        Some(self.versions.front()?.stamp)
    }

    /// What a reader at the snapshot sees.
    pub fn visible(&self, at: u64) -> Option<&Image>
        ensures { option_copied result ≡ image_at at self.now }
    {
        self.versions
            .iter()
            .find(|version| version.is_at_most(at))
            .map(|version| &version.image)
    }

    fn begins_open(&self, by: Writer) -> bool
        ensures { result ≡ is_open_by by self.now }
    {
        match self.versions.front() {
            Some(first) => first.is_written_by(by),
            None => false,
        }
    }

    // Whether the first version is an open write of the transaction. If not, no version is.
    fn is_open_by(&self, by: Writer) -> bool
        ensures open { result ≡ is_open_by by self.now }
        ensures none { OnFalse result (image_by by self.now ≡ None) }
    {
        let _ = &self.versions;
        self.begins_open(by)
    }

    /// What the transaction wrote itself.
    pub fn own(&self, by: Writer) -> Option<&Image>
        ensures { option_copied result ≡ image_by by self.now }
    {
        if !self.is_open_by(by) {
            return None;
        }
        self.versions.front().map(|first| &first.image)
    }

    /// Writes an image. The answer says whether a version was added: the transaction's open write, if it has one, is
    /// replaced, and no memory is taken then. A refusal hands the image back.
    pub fn install(&mut self, by: Writer, image: Image) -> Result<bool, (Image, NoMemory)>
        requires { NoOther by self.old }
        ensures added { IfOk result (λ added. added ≡ not (is_open_by by self.old)) }
        ensures ok { OnOk result (self.new ≡ installed by image self.old) }
        ensures refused { IfErr result (λ e. e.0 ≡ image) }
        ensures same { OnErr result (self.new ≡ self.old) }
        ensures replaced { IsTrue (is_open_by by self.old) → IsOk result }
    {
        if self.is_open_by(by) {
            self.versions[0].image = image;
            return Ok(false);
        }
        let stamp = Stamp::Written(by);
        match self.versions.push_front(Version { stamp, image }) {
            Ok(()) => Ok(true),
            Err(failed) => Err((failed.value.image, NoMemory)),
        }
    }

    /// Removes the transaction's open write.
    pub fn undo(&mut self, by: Writer)
        requires { IsTrue (is_open_by by self.old) }
        ensures { self.new ≡ drop 1 self.old }
    {
        let _ = by;
        let _ = self.versions.pop_front();
    }

    /// Gives the transaction's open write its number.
    pub fn stamp(&mut self, by: Writer, number: u64)
        requires open_write { IsTrue (is_open_by by self.old) }
        requires over { Each (IsBelow number) (drop 1 self.old) }
        ensures { self.new ≡ stamped by number self.old }
    {
        self.versions[0].stamp = Stamp::Numbered { number, by };
    }

    fn count_kept(&self, bound: u64) -> usize
        ensures { result ≡ length (left_by bound self.now) }
    {
        self.versions
            .iter()
            .filter(|version| !version.is_at_most(bound))
            .count()
    }

    // How many versions are not at the bound: since numbers fall, they stand in front of the others.
    fn kept_by(&self, bound: u64) -> usize
        ensures left { take result self.now ≡ left_by bound self.now }
        ensures first { slice_get self.now result ≡ find (is_at_most bound) self.now }
        ensures others { length self.now - result ≡ count_by (is_at_most bound) self.now }
        ensures within { result ≤ length self.now }
    {
        let _ = &self.versions;
        self.count_kept(bound)
    }

    /// Removes every version numbered at or below the bound, and hands out the newest of them.
    pub fn cut(&mut self, bound: u64) -> Cut
        ensures left { self.new ≡ left_by bound self.old }
        ensures image { result.image ≡ oldest_at bound self.old }
        ensures gone { result.gone ≡ others_at bound self.old }
    {
        let kept = self.kept_by(bound);
        let all = self.versions.len();
        if kept == all {
            return Cut {
                image: None,
                gone: 0,
            };
        }
        Cut {
            image: handed(take_tail(&mut self.versions, kept)),
            gone: (all - kept - 1) as u64,
        }
    }

    /// Removes every version that no snapshot sees: its successor is numbered at or below the horizon, and none of the
    /// ascending snapshots lies in its lifetime, which runs from its own number up to, and not including, its
    /// successor's. The answer says the same of an oldest image numbered `base` that stands behind the chain. One turn
    /// settles one version or passes one snapshot.
    pub fn sweep<L: Ledger>(
        &mut self,
        base: Option<u64>,
        horizon: u64,
        snapshots: &[u64],
        steps: &mut Steps<L>,
    ) -> Swept
        requires { Rises snapshots.now }
        ensures left { self.new ≡ swept horizon snapshots.now self.old }
        ensures gone { result.gone ≡ swept_away horizon snapshots.now self.old }
        ensures base_gone { result.base_gone ≡
            goes horizon snapshots.now (last_number self.old) base }
        ensures clean { IsClean horizon snapshots.now self.new }
        ensures base_clean { OnFalse result.base_gone
            (MayStay horizon snapshots.now (last_number self.new) base) }
        ensures seen { (s : ℕ) → IsGuarded horizon snapshots.now s →
            image_at s self.new ≡ image_at s self.old }
        ensures cost { steps.new ≤
            steps.old + length self.old + length (option_to_list base) + length snapshots.now }
    {
        sweep_all(&mut self.versions, base, horizon, snapshots, steps)
    }
}

// Puts a version at the end, for which there is room, unless it goes.
fn keep_unless(goes: bool, versions: &mut VecDeque<Version>, version: Version)
    requires room { goes ≡ false → deque_len versions.old < deque_capacity versions.old }
    ensures { versions.new.items ≡
        (if goes then versions.old.items else versions.old.items ++ version ∷ []) }
{
    if !goes {
        versions.push_back_reserved(version);
    }
}

// Each version leaves at the front, and one that stays comes back at the end, for which there is room.
fn sweep_all<L: Ledger>(
    versions: &mut VecDeque<Version>,
    base: Option<u64>,
    horizon: u64,
    snapshots: &[u64],
    steps: &mut Steps<L>,
) -> Swept
    requires chain { IsChain versions.old.items }
    requires rises { Rises snapshots.now }
    ensures left { versions.new.items ≡ swept horizon snapshots.now versions.old.items }
    ensures gone { result.gone ≡ swept_away horizon snapshots.now versions.old.items }
    ensures base_gone { result.base_gone ≡
        goes horizon snapshots.now (last_number versions.old.items) base }
    ensures cost { steps.new ≤
        steps.old + length versions.old.items + length (option_to_list base) +
        length snapshots.now }
{
    let all = versions.len();
    let mut merge = Merge {
        left: snapshots.len(),
        successor: None,
    };
    let mut rest = all;
    while rest > 0 {
        rest -= 1;
        if let Some(version) = versions.pop_front() {
            let goes = merge.settle(horizon, snapshots, version.number(), steps);
            keep_unless(goes, versions, version);
        }
    }
    Swept {
        gone: (all - versions.len()) as u64,
        base_gone: base.is_some() && merge.settle(horizon, snapshots, base, steps),
    }
}

// Removes all behind the first `keep` versions, and hands out the first of them.
fn take_tail(versions: &mut VecDeque<Version>, keep: usize) -> Option<Version>
    requires { keep < length versions.old.items }
    ensures left { versions.new.items ≡ take keep versions.old.items }
    ensures first { result ≡ slice_get versions.old.items keep }
{
    versions.truncate(keep + 1);
    versions.pop_back()
}

fn handed(version: Option<Version>) -> Option<(u64, Image)>
    ensures { result ≡ option_and_then numbered_image version }
{
    match version {
        Some(
            Version {
                stamp: Stamp::Numbered { number, by: _ },
                image,
            },
        ) => Some((number, image)),
        Some(
            Version {
                stamp: Stamp::Written(_),
                image: _,
            },
        )
        | None => None,
    }
}
