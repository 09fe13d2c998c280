//! Why the numbers of commits give no history, and which totals follow from the lines.

use crate::history::{Clash, History};
use crate::shown::shown;
use hg_base::{NoMemory, Rid};
use hg_script::Script;
use std::alloc::Global;

fn record_text(alloc: Global, script: &Script, rid: Rid) -> Result<String, NoMemory> {
    let key = rid.key;
    let name = match script.tables().get(rid.table.0 as usize) {
        Some(table) => shown(alloc, table.name())?,
        None => shown(alloc, b"?")?,
    };
    Ok(format!(in alloc; "key {key} of table {name}")?)
}

/// What is wrong with the number of a commit.
pub(crate) fn explain_clash(
    alloc: Global,
    script: &Script,
    clash: Clash,
) -> Result<String, NoMemory> {
    Ok(match clash {
        Clash::Zero => format!(in alloc; "commit numbers are counted from 1")?,
        Clash::Low { number, at } => format!(in alloc;
            "its number is above {at}, the snapshot of its transaction, and {number} is not"
        )?,
        Clash::Idle { number } => format!(in alloc;
            "commit {number} has written nothing, so it has no number"
        )?,
        Clash::Twice { number } => format!(in alloc;
            "its session has two transactions in group {number}"
        )?,
        Clash::Both { number, rid } => {
            let what = record_text(alloc, script, rid)?;
            format!(in alloc; "two transactions of group {number} write {what}")?
        }
        Clash::Missing { number, greatest } => format!(in alloc;
            "no commit has number {number}, and one has {greatest}: the numbers are all those from 1 on"
        )?,
        Clash::Lost {
            number,
            at,
            earlier,
            rid,
        } => {
            let what = record_text(alloc, script, rid)?;
            format!(in alloc;
                "commit {number}, at snapshot {at}, overwrites {what}, which commit {earlier} wrote and it did not see"
            )?
        }
    })
}

/// The totals that follow from the lines.
pub(crate) fn explain_totals(alloc: Global, history: &History) -> Result<String, NoMemory> {
    let totals = history.totals();
    let (made, undone, left) = (totals.made, totals.undone, totals.left);
    let (group, table, interval) = (totals.group, totals.table, totals.interval);
    Ok(format!(in alloc;
        "from the lines follow made {made}, undone {undone}, group {group}, table {table}, interval {interval} and left {left}"
    )?)
}
