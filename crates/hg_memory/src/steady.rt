//! Streams in memory that never fail, for tests.

ghost use Rattle.std.specs.Prelude.{◌≡◌, ◌-◌, ◌<◌, ◌++◌, [], false, Ok, Some, length, take, min, max, IfOk, OnOk, OnErr};
ghost use Rattle.std.specs.Io.{ReadsAtMost};
ghost use Rattle.std.specs.Io.KnownBytes.{ReadConsumes};
ghost use Rattle.hg_base.specs.Faults.{HasCause, TakesSome, counted};
ghost use Rattle.hg_base.specs.Flows.{AddsFirst, finds_end};
ghost use Rattle.hg_memory.specs.Memory.{steady_inflow, steady_outflow};

use crate::memory::copy_front;
use hg_base::{Failed, NoMemory, Piece, Sink, Source, ToldBytes};
use std::alloc::Global;
use std::marker::Model;

/// Gives bytes that lie in memory, at most `most` of them a call.
#[derive(Drop)]
pub struct SteadySource {
    bytes: Vec<u8>,
    at: usize,
    is_over: bool,
    most: usize,
}

impl Model for SteadySource {
    ghost use Rattle.std.specs.Prelude.{◌<◌, ◌≤◌, length, take, drop};
    ghost use Rattle.hg_memory.specs.Memory.{SteadyFeed};

    ghost Value = { SteadyFeed };

    ghost view = { λ s. record {
      given = take s.at s.bytes.items;
      left = drop s.at s.bytes.items;
      is_over = s.is_over;
      most = s.most;
    } };

    ghost invariant = { λ s. (s.at ≤ length s.bytes.items) × (0 < s.most) };
}

impl SteadySource {
    pub fn new(bytes: Vec<u8>, most: usize) -> SteadySource
        requires { 0 < most }
        ensures { result ≡
            record { given = []; left = bytes.items; is_over = false; most = most } }
    {
        SteadySource {
            bytes,
            at: 0,
            is_over: false,
            most,
        }
    }
}

impl Source for SteadySource {
    ghost flow = { steady_inflow };

    fn read(&mut self, into: &mut [u8]) -> Result<usize, Failed>
        ensures bound { ReadsAtMost result into.new }
        ensures given { AddsFirst self.old.given self.new.given result into.new }
        ensures over { IfOk result (λ n. self.new.is_over ≡ finds_end n into.new) }
        ensures left { ReadConsumes (Some self.old.left) (Some self.new.left) result into.new }
        ensures cause { HasCause 0 0 result }

        // Each call gives as much as it may.
        ensures count { result ≡
            Ok (min (min (length self.old.left) self.old.most) (length into.old)) }
        ensures most { self.new.most ≡ self.old.most }
    {
        let count = copy_front(&self.bytes[self.at..], self.most, into);
        self.at += count;
        self.is_over = count == 0 && !into.is_empty();
        Ok(count)
    }
}

/// Takes all that it is given, at most `most` bytes a call, and keeps what its room holds. Past its room it only counts.
#[derive(Drop)]
pub struct SteadySink {
    taken: ToldBytes,
    bytes: Vec<u8>,
    room: usize,
    most: usize,
    past: u64,
}

impl Model for SteadySink {
    ghost use Rattle.std.specs.Prelude.{◌≡◌, ◌+◌, ◌<◌, ◌≤◌, vec_len, vec_capacity};
    ghost use Rattle.hg_memory.specs.Memory.{SteadyTray};

    ghost Value = { SteadyTray };

    ghost view = { λ s. record { taken = s.taken.bytes; kept = s.bytes.items; room = s.room; most = s.most; past = s.past } };

    ghost invariant = { λ s. (vec_len s.bytes + s.room ≤ vec_capacity s.bytes) × (0 < s.most) ×
        (s.past ≡ 0 → s.bytes.items ≡ s.taken.bytes) };
}

impl SteadySink {
    pub fn new(alloc: Global, most: usize) -> SteadySink
        requires { 0 < most }
        ensures { result ≡ record { taken = []; kept = []; room = 0; most = most; past = 0 } }
    {
        SteadySink {
            taken: ToldBytes::new(),
            bytes: Vec::new(alloc),
            room: 0,
            most,
            past: 0,
        }
    }

    /// Makes room for at least this many bytes more.
    pub fn reserve(&mut self, bytes: usize) -> Result<(), NoMemory>
        ensures room { OnOk result (self.new ≡ record self.old { room = max self.old.room bytes }) }
        ensures refused { OnErr result (self.new ≡ self.old) }
    {
        self.bytes.reserve(bytes)?;
        self.room = self.room.max(bytes);
        Ok(())
    }

    /// The bytes that were kept.
    pub fn bytes(&self) -> &[u8]
        ensures kept { result.now ≡ self.now.kept }
        ensures all { self.now.past ≡ 0 → result.now ≡ self.now.taken }
    {
        &self.bytes
    }

    /// How many bytes were taken past the room. The count stays at its last value.
    pub fn past(&self) -> u64
        ensures { result ≡ self.now.past }
    {
        self.past
    }
}

impl Sink for SteadySink {
    ghost flow = { steady_outflow };

    fn write(&mut self, piece: &[u8]) -> Result<usize, Failed>
        ensures bound { TakesSome result piece.now }
        ensures taken { AddsFirst self.old.taken self.new.taken result piece.now }
        ensures cause { HasCause 0 0 result }

        // Each call takes as much as it may, and keeps of it what there is room for.
        ensures count { result ≡ Ok (min (length piece.now) self.old.most) }
        ensures kept { self.new.kept ≡
            self.old.kept ++
            take (min (min (length piece.now) self.old.most) self.old.room) piece.now }
        ensures room { self.new.room ≡ self.old.room - min (length piece.now) self.old.most }
        ensures past { self.new.past ≡
            counted self.old.past (min (length piece.now) self.old.most - self.old.room) }
        ensures most { self.new.most ≡ self.old.most }
    {
        let count = piece.len().min(self.most);
        let kept = count.min(self.room);
        self.room -= kept;
        if self.bytes.extend_from_slice(&piece[..kept]).is_err() {
            unreachable!();
        }
        self.past = self.past.saturating_add((count - kept) as u64);
        self.taken = self.taken.then(&Piece {
            bytes: &piece[..count],
        });
        Ok(count)
    }
}
