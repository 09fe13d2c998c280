//! The newest versions of all places, the nodes of the others, and the free ones: what is read of them, and walks along the others.

ghost use Rattle.std.specs.Prelude.{◌≡◌, ◌+◌, ◌<◌, ◌≤◌, ◌^◌, ◌==◌, ◌&&◌, [], false, length, not, nat_lt, slice_set, take, vec_len, vec_capacity};
ghost use Rattle.hg_base.specs.Lists.{Each};
ghost use Rattle.hg_base.specs.declared.image.Image.{Image};
ghost use Rattle.hg_chains.specs.Versions.{IsChain, begins_at_most, is_at_most, is_open_by, left_by, newest};
ghost use Rattle.hg_chains.specs.Strands.{first_number, node_at, version_in, writer_in};
ghost use Rattle.hg_chains.specs.Arenas.{IsArena, IsAt, NodesStay, front_in, head_in, tail_in};

use crate::cursor::Cursor;
use crate::head::{Head, State};
use crate::node::{Node, Strand};
use crate::version::Stamp;
use hg_base::{Image, Steps, Writer};
use std::alloc::Global;
use std::sync::ledger::Ledger;

/// A head for each place up to some number, and the free nodes as one more strand.
#[derive(Drop)]
pub(crate) struct Arena {
    pub heads: Vec<Head>,
    pub nodes: Vec<Node>,
    pub free: Strand,
}

impl Arena {
    pub fn new(alloc: Global) -> Arena
        ensures heads { result.heads.items ≡ [] }
        ensures nodes { result.nodes.items ≡ [] }
        ensures free { result.free ≡ record { first = 0; count = 0 } }
    {
        Arena {
            heads: Vec::new(alloc),
            nodes: Vec::new(alloc),
            free: Strand::EMPTY,
        }
    }

    // ---- the newest version of a place

    /// When it came about.
    pub fn newest(&self, place: u64) -> Option<Stamp>
        ensures { result ≡ newest (front_in self.now place) }
    {
        match self.heads.get(place as usize) {
            Some(head) => head.stamp(),
            None => None,
        }
    }

    /// Its number, if it has one.
    pub fn first_number(&self, place: u64) -> Option<u64>
        ensures { result ≡ first_number (head_in self.now place) }
    {
        match self.heads.get(place as usize) {
            Some(head) => head.number(),
            None => None,
        }
    }

    /// Whether it has a number, and that is at or below the bound.
    pub fn begins_at_most(&self, place: u64, bound: u64) -> bool
        ensures { result ≡ begins_at_most bound (front_in self.now place) }
    {
        match self.heads.get(place as usize) {
            Some(head) => head.is_at_most(bound),
            None => false,
        }
    }

    /// Whether it is an open write of that transaction.
    pub fn is_open_by(&self, place: u64, by: Writer) -> bool
        ensures { result ≡ is_open_by by (front_in self.now place) }
    {
        match self.heads.get(place as usize) {
            Some(head) => head.is_open_by(by),
            None => false,
        }
    }

    /// Whether there is none.
    pub fn is_empty(&self, place: u64) -> bool
        ensures { result ≡ (length (front_in self.now place) == 0) }
    {
        match self.heads.get(place as usize) {
            Some(head) => match head.state {
                State::Empty => true,
                State::Open | State::Stamped => false,
            },
            None => true,
        }
    }

    // ---- the others

    /// The strand of the others.
    pub fn strand(&self, place: u64) -> Strand
        ensures { result ≡ (head_in self.now place).strand }
    {
        match self.heads.get(place as usize) {
            Some(head) => head.strand,
            None => Strand::EMPTY,
        }
    }

    /// The node behind one.
    pub fn next(&self, at: u32) -> u32
        requires { at < length self.now.nodes.items }
        ensures { result ≡ (node_at self.now.nodes.items at).next }
    {
        self.nodes[at as usize].next
    }

    /// Who wrote the version in a node.
    pub fn writer(&self, at: u32) -> Writer
        requires { at < length self.now.nodes.items }
        ensures { result ≡ writer_in (node_at self.now.nodes.items at) }
    {
        let node = &self.nodes[at as usize];
        Writer {
            session: node.session,
            transaction: node.transaction,
        }
    }

    pub fn set_next(&mut self, at: u32, next: u32)
        requires { at < length self.old.nodes.items }
        ensures heads { self.new.heads.items ≡ self.old.heads.items }
        ensures nodes { self.new.nodes.items ≡
            slice_set self.old.nodes.items at
            (record (node_at self.old.nodes.items at) { next = next }) }
        ensures capacity { vec_capacity self.new.nodes ≡ vec_capacity self.old.nodes }
        ensures free { self.new.free ≡ self.old.free }
    {
        self.nodes[at as usize].next = next;
    }

    pub fn set_strand(&mut self, place: u64, strand: Strand)
        requires { place < length self.old.heads.items }
        ensures heads { self.new.heads.items ≡
            slice_set self.old.heads.items place
            (record (head_in self.old place) { strand = strand }) }
        ensures nodes { self.new.nodes ≡ self.old.nodes }
        ensures free { self.new.free ≡ self.old.free }
    {
        self.heads[place as usize].strand = strand;
    }

    // ---- walks along the others

    /// Before the first of the others.
    pub fn start(&self, place: u64) -> Cursor
        ensures at { IsAt self.now place result }
        ensures kept { result.kept ≡ 0 }
    {
        let first = self.strand(place).first;
        Cursor {
            kept: 0,
            last: first,
            at: first,
        }
    }

    /// The number of the version in a node.
    pub fn number(&self, at: u32) -> u64
        requires { at < length self.now.nodes.items }
        ensures { result ≡ (node_at self.now.nodes.items at).number }
    {
        self.nodes[at as usize].number
    }

    /// Passes a version.
    pub fn pass(&self, cursor: Cursor) -> Cursor
        requires there { cursor.at < length self.now.nodes.items }
        requires more { cursor.kept + 1 < 2 ^ 32 }
        ensures { let next = (node_at self.now.nodes.items cursor.at).next in result ≡
            record { kept = cursor.kept + 1; last = cursor.at; at = next } }
    {
        Cursor {
            kept: cursor.kept + 1,
            last: cursor.at,
            at: self.next(cursor.at),
        }
    }

    /// Whether the walk stands before a version that isn't at the bound.
    pub fn is_newer(&self, strand: Strand, cursor: Cursor, bound: u64) -> bool
        requires { cursor.kept < strand.count → cursor.at < length self.now.nodes.items }
        ensures { result ≡
            (nat_lt cursor.kept strand.count && not (is_at_most bound (version_in
            (node_at self.now.nodes.items cursor.at)))) }
    {
        cursor.kept < strand.count && self.number(cursor.at) > bound
    }

    /// Passes the versions that aren't at the bound: since numbers fall, they stand in front of the others. The walk has passed some.
    pub fn passed<L: Ledger>(
        &self,
        place: u64,
        bound: u64,
        start: Cursor,
        steps: &mut Steps<L>,
    ) -> Cursor
        requires arena { IsArena self.now }
        requires chain { IsChain (tail_in self.now place) }
        requires at { IsAt self.now place start }
        requires within { start.kept ≤ (head_in self.now place).strand.count }
        requires newer { Each (λ v. is_at_most bound v ≡ false)
            (take start.kept (tail_in self.now place)) }
        ensures at { IsAt self.now place result }
        ensures kept { result.kept ≡ length (left_by bound (tail_in self.now place)) }
        ensures cost { steps.new + start.kept ≡ steps.old + result.kept }
    {
        let strand = self.strand(place);
        let mut cursor = start;
        while self.is_newer(strand, cursor, bound) {
            steps.tick();
            cursor = self.pass(cursor);
        }
        cursor
    }
}
