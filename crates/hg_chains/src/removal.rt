//! Removals of versions: a version leaves its chain, and its node is free.

ghost use Rattle.std.specs.Prelude.{◌≡◌, ◌+◌, ◌<◌, ◌^◌, ◌++◌, [], false, length, take, drop, if◌then◌else◌, slice_set, vec_capacity};
ghost use Rattle.hg_base.specs.declared.image.Image.{Image};
ghost use Rattle.hg_chains.specs.Strands.{node_at, freed, with_number};
ghost use Rattle.hg_chains.specs.Arenas.{IsArena, IsAt, FrontsStay, NodesStay, OthersStayIn, PopsIn, head_in, list_in, nodes_in, tail_in};

use crate::arena::Arena;
use crate::cursor::Cursor;
use crate::head::State;
use crate::node::Strand;
use hg_base::{Image, Writer};
use std::mem;

impl Arena {
    // Frees a node, and hands out its version's number and image.
    fn give(&mut self, at: u32) -> (u64, Image)
        requires there { at < length self.old.nodes.items }
        requires more { self.old.free.count + 1 < 2 ^ 32 }
        ensures heads { self.new.heads.items ≡ self.old.heads.items }
        ensures nodes { self.new.nodes.items ≡
            slice_set self.old.nodes.items at
            (freed self.old.free.first (node_at self.old.nodes.items at)) }
        ensures capacity { vec_capacity self.new.nodes ≡ vec_capacity self.old.nodes }
        ensures free { self.new.free ≡ record { first = at; count = self.old.free.count + 1 } }
        ensures held { result ≡
            ((node_at self.old.nodes.items at).number, (node_at self.old.nodes.items at).image) }
    {
        let node = &mut self.nodes[at as usize];
        node.next = self.free.first;
        let number = node.number;
        let image = mem::replace(&mut node.image, Image { row: None });
        self.free = Strand {
            first: at,
            count: self.free.count + 1,
        };
        (number, image)
    }

    // Removes the first of the versions behind the newest.
    fn pop(&mut self, place: u64) -> (u64, Image)
        requires arena { IsArena self.old }
        requires some { 0 < (head_in self.old place).strand.count }
        ensures arena { IsArena self.new }
        ensures here { tail_in self.new place ≡ drop 1 (tail_in self.old place) }
        ensures nodes { nodes_in self.new place ≡ drop 1 (nodes_in self.old place) }
        ensures fronts { FrontsStay self.old self.new }
        ensures first { (head_in self.new place).strand.first ≡
            (node_at self.old.nodes.items (head_in self.old place).strand.first).next }
        ensures others { OthersStayIn place self.old self.new }
        ensures freed { NodesStay self.old self.new }
        ensures held { result ≡ (
          (node_at self.old.nodes.items (head_in self.old place).strand.first).number,
          (node_at self.old.nodes.items (head_in self.old place).strand.first).image,
        ) }
    {
        let strand = self.strand(place);
        let left = Strand {
            first: self.next(strand.first),
            count: strand.count - 1,
        };
        self.set_strand(place, left);
        self.give(strand.first)
    }

    // Removes the version before which the walk stands, behind the last that it has passed.
    fn unlink(&mut self, place: u64, cursor: Cursor) -> (u64, Image)
        requires arena { IsArena self.old }
        requires at { IsAt self.old place cursor }
        requires behind { 0 < cursor.kept }
        requires some { cursor.kept < (head_in self.old place).strand.count }
        ensures arena { IsArena self.new }
        ensures here { tail_in self.new place ≡
            take cursor.kept (tail_in self.old place) ++
            drop (cursor.kept + 1) (tail_in self.old place) }
        ensures fronts { FrontsStay self.old self.new }
        ensures at { IsAt self.new place
            (record cursor { at = (node_at self.old.nodes.items cursor.at).next }) }
        ensures others { OthersStayIn place self.old self.new }
        ensures freed { NodesStay self.old self.new }
        ensures held { result ≡ (
          (node_at self.old.nodes.items cursor.at).number,
          (node_at self.old.nodes.items cursor.at).image,
        ) }
    {
        let strand = self.strand(place);
        let left = Strand {
            first: strand.first,
            count: strand.count - 1,
        };
        self.set_strand(place, left);
        let next = self.next(cursor.at);
        self.set_next(cursor.last, next);
        self.give(cursor.at)
    }

    // Puts a version that has a number into a head.
    fn set_first(&mut self, place: u64, by: Writer, number: u64, image: Image)
        requires { place < length self.old.heads.items }
        ensures heads { self.new.heads.items ≡ slice_set self.old.heads.items place
            (with_number by number image (head_in self.old place)) }
        ensures nodes { self.new.nodes ≡ self.old.nodes }
        ensures free { self.new.free ≡ self.old.free }
    {
        let head = &mut self.heads[place as usize];
        head.session = by.session;
        head.state = State::Stamped;
        head.transaction = by.transaction;
        head.number = number;
        head.image = image;
    }

    /// Empties a head behind which there are no versions, and hands out the number and the image that were there.
    pub fn empty(&mut self, place: u64) -> (u64, Image)
        requires arena { IsArena self.old }
        requires head { place < length self.old.heads.items }
        requires alone { (head_in self.old place).strand.count ≡ 0 }
        ensures arena { IsArena self.new }
        ensures here { list_in self.new place ≡ [] }
        ensures nodes { nodes_in self.new place ≡ [] }
        ensures others { OthersStayIn place self.old self.new }
        ensures freed { NodesStay self.old self.new }
        ensures held { result ≡
            ((head_in self.old place).number, (head_in self.old place).image) }
    {
        let head = &mut self.heads[place as usize];
        head.state = State::Empty;
        (
            head.number,
            mem::replace(&mut head.image, Image { row: None }),
        )
    }

    /// Removes the newest version of a place. The second one, if there is one, comes to the head, and its node is free.
    pub fn undo(&mut self, place: u64)
        requires arena { IsArena self.old }
        requires some { 0 < length (list_in self.old place) }
        ensures arena { IsArena self.new }
        ensures here { list_in self.new place ≡ drop 1 (list_in self.old place) }
        ensures behind { PopsIn place self.old self.new }
        ensures others { OthersStayIn place self.old self.new }
        ensures freed { NodesStay self.old self.new }
    {
        let strand = self.strand(place);
        if strand.count == 0 {
            let _ = self.empty(place);
        } else {
            let by = self.writer(strand.first);
            let (number, image) = self.pop(place);
            self.set_first(place, by, number, image);
        }
    }

    /// Removes the version before which the walk stands, and hands out its number and its image.
    pub fn remove(&mut self, place: u64, cursor: &mut Cursor) -> (u64, Image)
        requires arena { IsArena self.old }
        requires at { IsAt self.old place cursor.old }
        requires some { cursor.old.kept < (head_in self.old place).strand.count }
        ensures arena { IsArena self.new }
        ensures here { tail_in self.new place ≡
            take cursor.old.kept (tail_in self.old place) ++
            drop (cursor.old.kept + 1) (tail_in self.old place) }
        ensures fronts { FrontsStay self.old self.new }
        ensures at { IsAt self.new place cursor.new }
        ensures kept { cursor.new.kept ≡ cursor.old.kept }
        ensures others { OthersStayIn place self.old self.new }
        ensures nodes { NodesStay self.old self.new }
        ensures held { result ≡ (
          (node_at self.old.nodes.items cursor.old.at).number,
          (node_at self.old.nodes.items cursor.old.at).image,
        ) }
    {
        let from = *cursor;
        cursor.at = self.next(from.at);
        if from.kept == 0 {
            self.pop(place)
        } else {
            self.unlink(place, from)
        }
    }

    /// Removes the version before which the walk stands, or passes it.
    pub fn remove_or_pass(&mut self, place: u64, cursor: &mut Cursor, goes: bool)
        requires arena { IsArena self.old }
        requires at { IsAt self.old place cursor.old }
        requires some { cursor.old.kept < (head_in self.old place).strand.count }
        ensures arena { IsArena self.new }
        ensures here { tail_in self.new place ≡
            (if goes then take cursor.old.kept (tail_in self.old place) ++
            drop (cursor.old.kept + 1) (tail_in self.old place) else tail_in self.old
            place) }
        ensures fronts { FrontsStay self.old self.new }
        ensures at { IsAt self.new place cursor.new }
        ensures kept { cursor.new.kept ≡ cursor.old.kept + (if goes then 0 else 1) }
        ensures others { OthersStayIn place self.old self.new }
        ensures nodes { NodesStay self.old self.new }
        ensures same { goes ≡ false → self.new ≡ self.old }
    {
        if goes {
            let _ = self.remove(place, cursor);
        } else {
            *cursor = self.pass(*cursor);
        }
    }
}
