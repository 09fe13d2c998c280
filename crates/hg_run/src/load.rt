//! The replay of a script that is made from a seed. Only its totals are printed.

ghost use Rattle.std.specs.Prelude.{◌≡◌, IfOk};
ghost use Rattle.std.specs.List.{flat_map};
ghost use Rattle.hg_base.specs.Script.{replay};
ghost use Rattle.hg_base.specs.Text.{totals_records};
ghost use Rattle.hg_records.specs.Bytes.{record_bytes};
ghost use Rattle.hg_script.specs.Lawful.{IsLawful};
ghost use Rattle.hg_words.specs.Options.{AreWithin};
ghost use Rattle.hg_run.specs.Printing.{AreTotalsOf, HasTotals, HasTotalsBy};
ghost use Rattle.hg_run.specs.Words.{settings_in};

use crate::replay_text::replay_lines;
use hg_base::{NoMemory, Totals};
use hg_script::Script;
use hg_seed::make_script;
use hg_transcript::totals_text;
use hg_words::Options;
use std::alloc::Global;
use std::sync::Wait;
use std::thread::Threads;

// The totals of a replay of a script.
fn totals_of_script<R: Threads + Wait + Sync>(
    rt: &R,
    alloc: Global,
    script: &Script,
    options: &Options,
) -> Result<Totals, NoMemory>
    requires lawful { IsLawful script.now }
    requires within { AreWithin options.now }
    ensures { IfOk result (HasTotals (settings_in replay options.now) script.now) }
{
    let ended = replay_lines(rt, alloc, script, options)?;
    Ok(ended.totals)
}

// The totals of a replay of the script that is made from a seed.
fn totals_of<R: Threads + Wait + Sync>(
    rt: &R,
    alloc: Global,
    seed: u64,
    options: &Options,
) -> Result<Totals, NoMemory>
    requires { AreWithin options.now }
    ensures { IfOk result (HasTotalsBy seed (settings_in replay options.now)) }
{
    let script = make_script(alloc, seed)?;
    totals_of_script(rt, alloc, &script, options)
}

fn text_of_totals(alloc: Global, totals: &Totals) -> Result<Vec<u8>, NoMemory>
    ensures { IfOk result
        (λ text. text.items ≡ flat_map record_bytes (totals_records totals.now)) }
{
    let mut text = Vec::new(alloc);
    totals_text(alloc, totals, &mut text)?;
    Ok(text)
}

/// The text of the totals of a replay of the script that is made from a seed.
pub(crate) fn load<R: Threads + Wait + Sync>(
    rt: &R,
    alloc: Global,
    seed: u64,
    options: &Options,
) -> Result<Vec<u8>, NoMemory>
    requires { AreWithin options.now }
    ensures { IfOk result (λ text. AreTotalsOf seed (settings_in replay options.now) text.items) }
{
    let totals = totals_of(rt, alloc, seed, options)?;
    text_of_totals(alloc, &totals)
}
