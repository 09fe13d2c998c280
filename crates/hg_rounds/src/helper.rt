//! A helper: it visits the buckets whose numbers it draws.

ghost use Rattle.std.specs.Prelude.{◌≡◌, ◌<◌};
ghost use Rattle.hg_rule.specs.Views.{pass as own_pass};
ghost use Rattle.hg_rule.specs.Seats.{pass_view};
ghost use Rattle.hg_tracker.specs.Boards.{trackers_board_id, board_sizes};
ghost use Rattle.hg_tracker.specs.Gathers.{IsGatherOf};
ghost use Rattle.hg_store.specs.Stores.{store_buckets};
ghost use Rattle.hg_rounds.specs.Seats.{draws_id};

use crate::draws::{Drawer, Draws};
use crate::interval::visit_bucket;
use crate::tools::Tools;
use hg_base::{Gate, Steps};
use hg_rule::CollectorPass;
use std::marker::Brand;
use std::sync::Wait;
use std::sync::ledger::{Blank, Ledger};

/// A gate knows helper h by this number and h.
pub const HELPERS: u32 = 200;

/// A pass with the round's record, the right to draw, and how many versions its visits removed. Helpers are counted from 1.
#[derive(Drop)]
pub struct Helper {
    pub(crate) number: u32,
    pub(crate) pass: CollectorPass,
    pub(crate) drawer: Drawer,
    pub(crate) removed: u64,
}

impl Helper {
    ghost use Rattle.hg_rounds.specs.Helpers.{IsHelperOf, IsReady, HasHelped};

    // Draws a number and visits that bucket, until a number is drawn that no bucket has.
    fn sweep<R: Wait, G: Gate, L: Ledger>(
        &mut self,
        rt: &R,
        tools: &Tools<'_>,
        draws: &Draws,
        gate: &G,
        steps: &mut Steps<L>,
    )
        requires own { IsHelperOf (trackers_board_id tools.now.trackers.now) (draws_id draws.now)
            self.old }
        requires ready { IsReady self.old }
        requires shown { IsGatherOf (board_sizes tools.now.trackers.now).sessions
            (own_pass (pass_view self.old.pass)) tools.now.gathered.now }
        ensures helped { HasHelped (store_buckets tools.now.store.now) self.old self.new }
        ensures own { IsHelperOf (trackers_board_id tools.now.trackers.now) (draws_id draws.now)
            self.new }
    {
        let mut asked = 0;
        let mut b = draws.draw(&mut self.drawer);
        while b < tools.store.buckets() as u64 {
            asked += 1;
            gate.at(rt, HELPERS + self.number, asked);
            self.removed += visit_bucket(rt, tools, &mut self.pass, b as u32, steps);
            b = draws.draw(&mut self.drawer);
        }
    }

    fn sweep_as<R: Wait, G: Gate, L: Ledger>(
        &mut self,
        rt: &R,
        tools: &Tools<'_>,
        draws: &Draws,
        gate: &G,
        blank: Blank,
    )
        requires own { IsHelperOf (trackers_board_id tools.now.trackers.now) (draws_id draws.now)
            self.old }
        requires ready { IsReady self.old }
        requires shown { IsGatherOf (board_sizes tools.now.trackers.now).sessions
            (own_pass (pass_view self.old.pass)) tools.now.gathered.now }
        requires name { blank.name ≡ L.name }
        requires parts { blank.parts ≡ L.parts }
        requires some { 0 < blank.parts }
        ensures helped { HasHelped (store_buckets tools.now.store.now) self.old self.new }
        ensures own { IsHelperOf (trackers_board_id tools.now.trackers.now) (draws_id draws.now)
            self.new }
    {
        let mut steps: Steps<L> = Steps::new(blank);
        self.sweep(rt, tools, draws, gate, &mut steps);
    }

    /// Its part of a round. Nobody reads its count of steps.
    pub(crate) fn work<R: Wait, G: Gate>(
        &mut self,
        rt: &R,
        tools: &Tools<'_>,
        draws: &Draws,
        gate: &G,
    )
        requires own { IsHelperOf (trackers_board_id tools.now.trackers.now) (draws_id draws.now)
            self.old }
        requires ready { IsReady self.old }
        requires shown { IsGatherOf (board_sizes tools.now.trackers.now).sessions
            (own_pass (pass_view self.old.pass)) tools.now.gathered.now }
        ensures helped { HasHelped (store_buckets tools.now.store.now) self.old self.new }
        ensures own { IsHelperOf (trackers_board_id tools.now.trackers.now) (draws_id draws.now)
            self.new }
    {
        self.sweep_as::<R, G, Brand>(rt, tools, draws, gate, Blank::new(1));
    }
}
