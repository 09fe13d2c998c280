//! Calls that are made twice: on a chain by itself, and at a place of `Chains`. Their answers have to be the same.

ghost use Rattle.std.specs.Prelude.{◌≡◌, ◌+◌, ◌<◌, ◌^◌};
ghost use Rattle.hg_base.specs.Lists.{Each};
ghost use Rattle.hg_chains.specs.Places.{OthersStay, list_at};
ghost use Rattle.hg_chains.specs.Sweeps.{Rises, swept};
ghost use Rattle.hg_chains.specs.Versions.{IsBelow};

use crate::calls::{Call, call_of, image};
use crate::writes::{put_alone, put_at, undo_alone, undo_at};
use hg_base::{Image, Steps};
use hg_chain::{Chain, Chains, Swept};
use std::alloc::Global;
use std::fmt::Debug;
use std::marker::Brand;
use std::sync::ledger::{Blank, Ledger};

// Adds what a call on the chain answers, and where the place answers otherwise, that too.
fn tell<T: Debug>(alloc: Global, told: &mut String, one: &T, other: &T) {
    let (one, other) = (shown(alloc, one), shown(alloc, other));
    let _ = told.push_str(&one);
    if one != other {
        let _ = told.push_str(&other);
    }
}

fn shown<T: Debug>(alloc: Global, answer: &T) -> String {
    let mut shown = String::new(alloc);
    let _ = write!(shown, " {answer:?};");
    shown
}

fn sweep_both<L: Ledger>(
    blank: Blank,
    chain: &mut Chain,
    chains: &mut Chains,
    place: u64,
    asked: (Option<u64>, u64),
    snapshots: &[u64],
) -> (Swept, Swept)
    requires name { blank.name ≡ L.name }
    requires parts { blank.parts ≡ L.parts }
    requires some { 0 < blank.parts }
    requires rises { Rises snapshots.now }
    ensures alone { chain.new ≡ swept asked.1 snapshots.now chain.old }
    ensures here { list_at chains.new place ≡
        swept asked.1 snapshots.now (list_at chains.old place) }
    ensures others { OthersStay place chains.old chains.new }
{
    let (base, horizon) = asked;
    let mut steps: Steps<L> = Steps::new(blank);
    let alone = chain.sweep(base, horizon, snapshots, &mut steps);
    let here = chains.sweep(place, base, horizon, snapshots, &mut steps);
    (alone, here)
}

// The call of a number finds lower numbers alone, and leaves none over its own.
#[tactic(auto, using(crate::proofs::ChainFacts::below_next, crate::proofs::ChainFacts::below_cut, crate::proofs::ChainFacts::below_swept))]
fn call_both(
    alloc: Global,
    chain: &mut Chain,
    chains: &mut Chains,
    told: &mut String,
    place: u64,
    asked: (u64, Call),
)
    requires place { place < 2 ^ 40 }
    requires alone { Each (IsBelow asked.0) chain.old }
    requires here { Each (IsBelow asked.0) (list_at chains.old place) }
    ensures alone { Each (IsBelow (asked.0 + 1)) chain.new }
    ensures here { Each (IsBelow (asked.0 + 1)) (list_at chains.new place) }
    ensures others { OthersStay place chains.old chains.new }
{
    let (number, call) = asked;
    match call {
        Call::Put => {
            put_alone(chain, number, image(alloc, number));
            put_at(chains, place, number, image(alloc, number));
            tell(alloc, told, &chain.newest(), &chains.newest(place));
        }
        Call::Undo => {
            undo_alone(chain, number, image(alloc, number));
            undo_at(chains, place, number, image(alloc, number));
            tell(alloc, told, &chain.newest(), &chains.newest(place));
        }
        Call::See(at) => tell(alloc, told, &chain.visible(at), &chains.visible(place, at)),
        Call::Cut(bound) => tell(alloc, told, &chain.cut(bound), &chains.cut(place, bound)),
        Call::Sweep(horizon, low, high) => {
            let snapshots = [low.min(high), high];
            let asked = (None, horizon);
            let swept = sweep_both::<Brand>(Blank::new(1), chain, chains, place, asked, &snapshots);
            tell(alloc, told, &swept.0, &swept.1);
        }
    }
}

/// What the calls answer in turn, on a chain by itself and at the place 3.
pub(crate) fn agreed(alloc: Global, calls: &str) -> String {
    let mut chain = Chain::new(alloc);
    let mut chains = Chains::new(alloc);
    let mut told = String::new(alloc);
    let mut number: u64 = 1;
    for text in calls.split_ascii_whitespace() {
        if let (Some(call), Some(next)) = (call_of(text), number.checked_add(1)) {
            call_both(alloc, &mut chain, &mut chains, &mut told, 3, (number, call));
            number = next;
        }
    }
    told
}

// A deletion numbered 4 stays, and the oldest image numbered 1 behind it is to go.
fn sweep_deletion(alloc: Global, chain: &mut Chain, chains: &mut Chains, told: &mut String)
    requires alone { Each (IsBelow 4) chain.old }
    requires here { Each (IsBelow 4) (list_at chains.old 3) }
{
    put_alone(chain, 4, Image { row: None });
    put_at(chains, 3, 4, Image { row: None });
    let swept = sweep_both::<Brand>(Blank::new(1), chain, chains, 3, (Some(1), 4), &[]);
    tell(alloc, told, &swept.0, &swept.1);
    tell(alloc, told, &chain.visible(4), &chains.visible(3, 4));
}

pub(crate) fn deletion_told(alloc: Global) -> String {
    let mut chain = Chain::new(alloc);
    let mut chains = Chains::new(alloc);
    let mut told = String::new(alloc);
    sweep_deletion(alloc, &mut chain, &mut chains, &mut told);
    told
}

// ---- two places

// Adds what readers at 1 to 8 see at a place.
fn tell_seen(told: &mut String, chains: &Chains, place: u64) {
    let _ = told.push(' ');
    for at in 1..9 {
        let _ = write!(told, "{:?}", chains.visible(place, at));
    }
}

/// Each row is the place 3 or 4 and a call there. What each call answers, and what readers see at the two places after it.
#[tactic(auto, using(crate::proofs::ChainFacts::below_still, crate::proofs::ChainFacts::below_next))]
pub(crate) fn places_told(alloc: Global, rows: &str) -> String {
    let mut third = Chain::new(alloc);
    let mut fourth = Chain::new(alloc);
    let mut chains = Chains::new(alloc);
    let mut told = String::new(alloc);
    let mut number: u64 = 1;
    for row in rows.lines() {
        let (place, word) = row.split_once(' ').unwrap_or(("", ""));
        if let (Some(call), Some(next)) = (call_of(word), number.checked_add(1)) {
            if place == "3" {
                call_both(alloc, &mut third, &mut chains, &mut told, 3, (number, call));
            } else {
                call_both(
                    alloc,
                    &mut fourth,
                    &mut chains,
                    &mut told,
                    4,
                    (number, call),
                );
            }
            tell_seen(&mut told, &chains, 3);
            tell_seen(&mut told, &chains, 4);
            let _ = told.push('\n');
            number = next;
        }
    }
    told
}
