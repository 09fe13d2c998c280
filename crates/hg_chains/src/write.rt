//! Writes of versions: the room for one, an open write in front of a chain, its image and its number.

ghost use Rattle.std.specs.Prelude.{◌≡◌, ◌≢◌, ◌↔◌, ℕ, ◌+◌, ◌-◌, ◌<◌, ◌≤◌, ◌^◌, ◌∷◌, false, length, slice_set, IsTrue, OnOk, OnErr, IsOk, vec_len, vec_capacity};
ghost use Rattle.hg_base.specs.declared.writer.Writer.{Writer};
ghost use Rattle.hg_chains.specs.declared.head.State.TheVariants.{Empty};
ghost use Rattle.hg_chains.specs.Versions.{NoOther, installed, is_open_by, open_write, stamped};
ghost use Rattle.hg_chains.specs.Strands.{node_at, node_of, version_in, with_open};
ghost use Rattle.hg_chains.specs.Arenas.{IsArena, HasRoom, FrontsStay, OthersStayIn, PushesIn, head_in, list_in, nodes_in, tail_in, chain_in};

use crate::arena::Arena;
use crate::head::{Head, State};
use crate::node::{Node, Strand};
use hg_base::{Image, NoMemory, Writer};
use std::mem;

impl Arena {
    // Makes sure that a place has a head.
    fn reserve_head(&mut self, place: u64) -> Result<(), NoMemory>
        requires arena { IsArena self.old }
        requires place { place < 2 ^ 40 }
        ensures arena { IsArena self.new }
        ensures head { OnOk result (place < length self.new.heads.items) }
        ensures lists { (q : ℕ) → chain_in self.new q ≡ chain_in self.old q }
        ensures nodes { self.new.nodes ≡ self.old.nodes }
        ensures free { self.new.free ≡ self.old.free }
        ensures refused { OnErr result (self.new.heads.items ≡ self.old.heads.items) }
        ensures enough { place < length self.old.heads.items → IsOk result }
    {
        let many = self.heads.len();
        if many as u64 <= place {
            let more = place as usize + 1 - many;
            self.heads.reserve(more)?;
            for _head in 0..more {
                self.heads.push_reserved(Head::empty());
            }
        }
        Ok(())
    }

    // Makes sure that there can be so many nodes.
    fn reserve_nodes(&mut self, many: u64) -> Result<(), NoMemory>
        ensures heads { self.new.heads ≡ self.old.heads }
        ensures nodes { self.new.nodes.items ≡ self.old.nodes.items }
        ensures free { self.new.free ≡ self.old.free }
        ensures room { OnOk result (many ≤ vec_capacity self.new.nodes) }
        ensures kept { vec_capacity self.old.nodes ≤ vec_capacity self.new.nodes }
    {
        let more = (many as usize).saturating_sub(self.nodes.len());
        self.nodes.reserve(more)?;
        Ok(())
    }

    // Whether there are as many nodes as a `u32` counts.
    fn is_full(all: u64) -> bool
        ensures { IsTrue result ↔ (2 ^ 32 ≤ all + 1) }
    {
        all >= u64::from(u32::MAX)
    }

    /// Makes sure that a version can be added at a place, where there is room for so many versions, and for so many more than there are.
    pub fn make_room(&mut self, place: u64, all: u64, free: u64) -> Result<(), NoMemory>
        requires arena { IsArena self.old }
        requires place { place < 2 ^ 40 }
        requires room { all ≤ vec_capacity self.old.nodes }
        ensures arena { IsArena self.new }
        ensures head { OnOk result (place < length self.new.heads.items) }
        ensures lists { (q : ℕ) → chain_in self.new q ≡ chain_in self.old q }
        ensures nodes { self.new.nodes.items ≡ self.old.nodes.items }
        ensures free { self.new.free ≡ self.old.free }
        ensures room { all ≤ vec_capacity self.new.nodes }
        ensures more { OnOk result (free ≡ 0 →
            (all + 1 ≤ vec_capacity self.new.nodes) × (all + 1 < 2 ^ 32)) }
        ensures refused { OnErr result (self.new.heads.items ≡ self.old.heads.items) }
        ensures enough { 0 < free → place < length self.old.heads.items → IsOk result }
    {
        if free == 0 {
            if Arena::is_full(all) {
                return Err(NoMemory);
            }
            self.reserve_nodes(all + 1)?;
        }
        self.reserve_head(place)
    }

    // Puts a node where the first free one is, and adds it only where none is free.
    fn take(&mut self, node: Node) -> u32
        requires free { 0 < self.old.free.count →
            self.old.free.first < length self.old.nodes.items }
        requires room { self.old.free.count ≡ 0 →
            (vec_len self.old.nodes < vec_capacity self.old.nodes) ×
            (vec_len self.old.nodes + 1 < 2 ^ 32) }
        ensures heads { self.new.heads.items ≡ self.old.heads.items }
        ensures capacity { vec_capacity self.new.nodes ≡ vec_capacity self.old.nodes }
        ensures here { node_at self.new.nodes.items result ≡ node }
        ensures within { result < length self.new.nodes.items }
        ensures others { (j : ℕ) → j < length self.old.nodes.items → j ≢ result →
            node_at self.new.nodes.items j ≡ node_at self.old.nodes.items j }
        ensures grown { self.old.free.count ≡ 0 →
            (result ≡ length self.old.nodes.items) ×
            (length self.new.nodes.items ≡ length self.old.nodes.items + 1) ×
            (self.new.free ≡ self.old.free) }
        ensures reused { 0 < self.old.free.count →
            (result ≡ self.old.free.first) ×
            (length self.new.nodes.items ≡ length self.old.nodes.items) ×
            (self.new.free.first ≡ (node_at self.old.nodes.items self.old.free.first).next) ×
            (self.new.free.count + 1 ≡ self.old.free.count) }
    {
        if self.free.count == 0 {
            let at = self.nodes.len() as u32;
            self.nodes.push_reserved(node);
            return at;
        }
        let at = self.free.first;
        self.free = Strand {
            first: self.next(at),
            count: self.free.count - 1,
        };
        self.nodes[at as usize] = node;
        at
    }

    // Puts a version before the others of a place, of which the newest stands in the head.
    fn push(&mut self, place: u64, node: Node)
        requires arena { IsArena self.old }
        requires room { HasRoom self.old place }
        requires some { (head_in self.old place).state ≢ Empty }
        requires link { node.next ≡ (head_in self.old place).strand.first }
        ensures arena { IsArena self.new }
        ensures here { tail_in self.new place ≡ version_in node ∷ tail_in self.old place }
        ensures fronts { FrontsStay self.old self.new }
        ensures behind { PushesIn place self.old self.new }
        ensures others { OthersStayIn place self.old self.new }
        ensures capacity { vec_capacity self.new.nodes ≡ vec_capacity self.old.nodes }
    {
        let Strand { first: _, count } = self.strand(place);
        let at = self.take(node);
        self.set_strand(
            place,
            Strand {
                first: at,
                count: count + 1,
            },
        );
    }

    // Puts an open write into a head, and hands out what was there.
    fn begin(&mut self, place: u64, by: Writer, image: Image) -> (State, Node)
        requires { place < length self.old.heads.items }
        ensures heads { self.new.heads.items ≡ slice_set self.old.heads.items place
            (with_open by image (head_in self.old place)) }
        ensures nodes { self.new.nodes ≡ self.old.nodes }
        ensures free { self.new.free ≡ self.old.free }
        ensures held { result ≡ ((head_in self.old place).state, node_of (head_in self.old place)) }
    {
        let head = &mut self.heads[place as usize];
        let state = head.state;
        let covered = Node {
            next: head.strand.first,
            session: head.session,
            transaction: head.transaction,
            number: head.number,
            image: mem::replace(&mut head.image, image),
        };
        head.session = by.session;
        head.state = State::Open;
        head.transaction = by.transaction;
        head.number = 0;
        (state, covered)
    }

    /// Puts an open write in front of the versions of a place: into its head. The version that was there goes to a node, and a node is
    /// added only where none is free.
    pub fn write(&mut self, place: u64, by: Writer, image: Image)
        requires arena { IsArena self.old }
        requires room { HasRoom self.old place }
        requires no_other { NoOther by (list_in self.old place) }
        requires not_open { is_open_by by (list_in self.old place) ≡ false }
        ensures arena { IsArena self.new }
        ensures here { list_in self.new place ≡ open_write by image ∷ list_in self.old place }
        ensures behind { PushesIn place self.old self.new }
        ensures others { OthersStayIn place self.old self.new }
        ensures capacity { vec_capacity self.new.nodes ≡ vec_capacity self.old.nodes }
    {
        let (state, covered) = self.begin(place, by, image);
        match state {
            State::Empty => {}
            State::Open | State::Stamped => self.push(place, covered),
        }
    }

    /// Gives the newest version of a place another image.
    pub fn set_image(&mut self, place: u64, image: Image)
        requires arena { IsArena self.old }
        requires head { place < length self.old.heads.items }
        ensures arena { IsArena self.new }
        ensures here { (by : Writer) → IsTrue (is_open_by by (list_in self.old place)) →
            list_in self.new place ≡ installed by image (list_in self.old place) }
        ensures stay { nodes_in self.new place ≡ nodes_in self.old place }
        ensures others { OthersStayIn place self.old self.new }
        ensures nodes { self.new.nodes ≡ self.old.nodes }
    {
        self.heads[place as usize].image = image;
    }

    /// Gives the newest version of a place a number.
    pub fn set_number(&mut self, place: u64, number: u64)
        requires arena { IsArena self.old }
        requires head { place < length self.old.heads.items }
        ensures arena { IsArena self.new }
        ensures here { (by : Writer) → IsTrue (is_open_by by (list_in self.old place)) →
            list_in self.new place ≡ stamped by number (list_in self.old place) }
        ensures stay { nodes_in self.new place ≡ nodes_in self.old place }
        ensures others { OthersStayIn place self.old self.new }
        ensures nodes { self.new.nodes ≡ self.old.nodes }
    {
        let head = &mut self.heads[place as usize];
        head.state = State::Stamped;
        head.number = number;
    }
}
