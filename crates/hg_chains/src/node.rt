//! What an arena keeps the older versions in: nodes, and strands of them.

use hg_base::Image;
use std::mem::size_of;

/// A version that is not the newest of its record, and the node behind it. The numbers of its writer stand apart from one another, so
/// that a node has no more than 64 bytes. A free node has no image.
#[derive(Drop)]
pub(crate) struct Node {
    pub next: u32,
    pub session: u32,
    pub transaction: u64,
    pub number: u64,
    pub image: Image,
}

const _: () = prove!(size_of::<Node>() <= 64);

/// So many nodes from the first on, each of which names the next.
#[derive(Clone, Copy)]
pub(crate) struct Strand {
    pub first: u32,
    pub count: u32,
}

impl Strand {
    pub const EMPTY: Strand = Strand { first: 0, count: 0 };
}
