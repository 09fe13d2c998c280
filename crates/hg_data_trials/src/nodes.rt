//! Nodes of `Chains` that are free, and given again.

ghost use Rattle.std.specs.Prelude.{◌<◌, ◌^◌};

use hg_base::{Image, Writer};
use hg_chain::Chains;
use std::alloc::Global;

// A deletion by the first transaction of a session, committed with the session's number.
fn write(chains: &mut Chains, place: u64, session: u32)
    requires place { place < 2 ^ 40 }
{
    let by = Writer {
        session,
        transaction: 1,
    };
    if chains.is_empty(place) {
        match chains.install(place, by, Image { row: None }) {
            Ok(_) => chains.stamp(place, by, u64::from(session)),
            Err(_) => {}
        }
    }
}

// Adds how many nodes there are, how many of them are free, and which of four places have a version.
fn tell_nodes(told: &mut String, chains: &Chains) {
    let there = [
        chains.newest(0).is_some(),
        chains.newest(1).is_some(),
        chains.newest(2).is_some(),
        chains.newest(5).is_some(),
    ];
    let _ = write!(told, "{} {} {there:?}\n", chains.nodes(), chains.free());
}

fn tell_cut(told: &mut String, chains: &mut Chains) {
    let cut = chains.cut(1, 9);
    let _ = write!(told, "{cut:?} {}\n", chains.is_empty(1));
}

// Three writers write at places 0, 1 and 2 and commit. The node that a cut at place 1 frees is given to place 5.
pub(crate) fn nodes_told(alloc: Global) -> String {
    let mut chains = Chains::new(alloc);
    let mut told = String::new(alloc);
    write(&mut chains, 0, 1);
    write(&mut chains, 1, 2);
    write(&mut chains, 2, 3);
    tell_nodes(&mut told, &chains);
    tell_cut(&mut told, &mut chains);
    tell_nodes(&mut told, &chains);
    write(&mut chains, 5, 4);
    tell_nodes(&mut told, &chains);
    told
}
