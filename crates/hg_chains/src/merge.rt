//! A merge of a chain's numbers with snapshots, both from the greatest down.

ghost use Rattle.std.specs.Prelude.{◌≡◌, ◌+◌, ◌<◌, ◌≤◌, length, drop, slice_index, ◌-◌};
ghost use Rattle.hg_base.specs.Lists.{Each};
ghost use Rattle.hg_chains.specs.Sweeps.{Rises};
ghost use Rattle.hg_base.specs.Lifetimes.{goes};
ghost use Rattle.hg_chains.specs.Merging.{Follows, HasPassed, last_reaches};

use hg_base::Steps;
use std::sync::ledger::Ledger;

/// Where a merge stands: how many snapshots aren't passed, and the number of the version that was settled last. One
/// turn settles one version or passes one snapshot.
#[derive(Clone, Copy)]
pub struct Merge {
    pub left: usize,
    pub successor: Option<u64>,
}

impl Merge {
    /// Settles the next version: whether it goes.
    pub fn settle<L: Ledger>(
        &mut self,
        horizon: u64,
        snapshots: &[u64],
        number: Option<u64>,
        steps: &mut Steps<L>,
    ) -> bool
        requires rises { Rises snapshots.now }
        requires within { self.old.left ≤ length snapshots.now }
        requires passed { HasPassed self.old.successor self.old.left snapshots.now }
        ensures goes { result ≡ goes horizon snapshots.now self.old.successor number }
        ensures within { self.new.left ≤ length snapshots.now }
        ensures successor { self.new.successor ≡ number }
        ensures passed { Follows self.old.successor number →
            HasPassed number self.new.left snapshots.now }
        ensures cost { steps.new + self.new.left ≡ steps.old + self.old.left + 1 }
    {
        steps.tick();
        let successor = self.successor;
        self.successor = number;
        match (successor, number) {
            (Some(up), Some(number)) if up <= horizon => {
                self.left = pass_from(snapshots, self.left, up, steps);
                !is_seen(snapshots, self.left, number)
            }
            _ => false,
        }
    }
}

// Passes the snapshots at or over the number.
fn pass_from<L: Ledger>(snapshots: &[u64], left: usize, up: u64, steps: &mut Steps<L>) -> usize
    requires within { left ≤ length snapshots.now }
    requires passed { Each (λ s. up ≤ s) (drop left snapshots.now) }
    ensures within { result ≤ left }
    ensures passed { Each (λ s. up ≤ s) (drop result snapshots.now) }
    ensures below { 0 < result → slice_index snapshots.now (result - 1) < up }
    ensures cost { steps.new + result ≡ steps.old + left }
{
    let mut left = left;
    while left > 0 && snapshots[left - 1] >= up {
        steps.tick();
        left -= 1;
    }
    left
}

// Whether the last of the first `left` snapshots is at or over the number.
fn is_seen(snapshots: &[u64], left: usize, number: u64) -> bool
    requires { left ≤ length snapshots.now }
    ensures { result ≡ last_reaches number left snapshots.now }
{
    left > 0 && snapshots[left - 1] >= number
}
