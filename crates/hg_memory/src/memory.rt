//! Streams in memory of which listed calls fail, for tests.

ghost use Rattle.std.specs.Prelude.{◌≡◌, ◌+◌, ◌-◌, ◌<◌, ◌≤◌, ◌==◌, ◌&&◌, ◌||◌, ◌++◌, [], false, Ok, Some, length, take, drop, min, max, is_err, vec_len, vec_capacity, IfOk, OnOk, OnErr, nat_lt};
ghost use Rattle.std.specs.Io.{ReadsAtMost};
ghost use Rattle.std.specs.Io.KnownBytes.{ReadConsumes};
ghost use Rattle.std.specs.List.{list_any};
ghost use Rattle.hg_base.specs.Faults.{HasCause, TakesSome, next_count};
ghost use Rattle.hg_base.specs.Flows.{AddsFirst, finds_end};
ghost use Rattle.hg_memory.specs.Memory.{inflow_of, outflow_of};

use hg_base::{Failed, NoMemory, Sink, Source};
use std::alloc::Global;
use std::marker::Model;

/// Gives bytes that lie in memory, at most `most` of them a call. Calls are numbered from 1, and those listed fail.
#[derive(Drop)]
pub struct MemorySource {
    bytes: Vec<u8>,
    at: usize,
    is_over: bool,
    most: usize,
    failing: Vec<u64>,
    calls: u64,
    faults: u64,
}

impl Model for MemorySource {
    ghost use Rattle.std.specs.Prelude.{◌<◌, ◌≤◌, length, take, drop};
    ghost use Rattle.hg_memory.specs.Memory.{Feed};

    ghost Value = { Feed };

    ghost view = { λ s. record {
      given = take s.at s.bytes.items;
      left = drop s.at s.bytes.items;
      is_over = s.is_over;
      most = s.most;
      failing = s.failing.items;
      calls = s.calls;
      faults = s.faults;
    } };

    ghost invariant = { λ s. (s.at ≤ length s.bytes.items) × (0 < s.most) };
}

/// Copies the front of what is left to the front of a buffer, as much as one call may give, and says how much.
pub(crate) fn copy_front(left: &[u8], most: usize, into: &mut [u8]) -> usize
    ensures count { result ≡ min (min (length left.now) most) (length into.old) }
    ensures copied { into.new ≡ take result left.now ++ drop result into.old }
{
    let count = left.len().min(most).min(into.len());
    into[..count].copy_from_slice(&left[..count]);
    count
}

fn is_listed(failing: &[u64], call: u64) -> bool
    ensures { result ≡ list_any (λ k. k == call) failing.now }
{
    failing.iter().any(|k| *k == call)
}

impl MemorySource {
    pub fn new(bytes: Vec<u8>, most: usize, failing: Vec<u64>) -> MemorySource
        requires { 0 < most }
        ensures { result ≡
            record {
              given = [];
              left = bytes.items;
              is_over = false;
              most = most;
              failing = failing.items;
              calls = 0;
              faults = 0;
            } }
    {
        MemorySource {
            bytes,
            at: 0,
            is_over: false,
            most,
            failing,
            calls: 0,
            faults: 0,
        }
    }
}

impl Source for MemorySource {
    ghost flow = { inflow_of };

    fn read(&mut self, into: &mut [u8]) -> Result<usize, Failed>
        ensures bound { ReadsAtMost result into.new }
        ensures given { AddsFirst self.old.given self.new.given result into.new }
        ensures over { IfOk result (λ n. self.new.is_over ≡ finds_end n into.new) }
        ensures left { ReadConsumes (Some self.old.left) (Some self.new.left) result into.new }
        ensures cause { HasCause self.old.faults self.new.faults result }

        // Exactly the listed calls fail, and the others give as much as they may.
        ensures listed { is_err result ≡
            list_any (λ k. k == next_count self.old.calls) self.old.failing }
        ensures count { IfOk result
            (λ n. n ≡ min (min (length self.old.left) self.old.most) (length into.old)) }
        ensures moved { OnOk result (self.new ≡
            record self.old {
              given = self.new.given;
              left = self.new.left;
              is_over = self.new.is_over;
              calls = next_count self.old.calls;
            }) }
        ensures failed { OnErr result (self.new ≡
            record self.old
            { calls = next_count self.old.calls; faults = next_count self.old.faults }) }
    {
        self.calls = self.calls.saturating_add(1);
        if is_listed(&self.failing, self.calls) {
            self.faults = self.faults.saturating_add(1);
            return Err(Failed);
        }
        let count = copy_front(&self.bytes[self.at..], self.most, into);
        self.at += count;
        self.is_over = count == 0 && !into.is_empty();
        Ok(count)
    }
}

/// Takes bytes into the room that was reserved, at most `most` of them a call. Calls are numbered from 1, and those
/// listed fail, as does a call past the room.
#[derive(Drop)]
pub struct MemorySink {
    bytes: Vec<u8>,
    room: usize,
    most: usize,
    failing: Vec<u64>,
    calls: u64,
    faults: u64,
}

impl Model for MemorySink {
    ghost use Rattle.std.specs.Prelude.{◌+◌, ◌<◌, ◌≤◌, vec_len, vec_capacity};
    ghost use Rattle.hg_memory.specs.Memory.{Tray};

    ghost Value = { Tray };

    ghost view = { λ s. record { taken = s.bytes.items; room = s.room; most = s.most; failing = s.failing.items; calls = s.calls; faults = s.faults } };

    ghost invariant = { λ s. (vec_len s.bytes + s.room ≤ vec_capacity s.bytes) × (0 < s.most) };
}

impl MemorySink {
    pub fn new(alloc: Global, most: usize, failing: Vec<u64>) -> MemorySink
        requires { 0 < most }
        ensures { result ≡
            record
            { taken = []; room = 0; most = most; failing = failing.items; calls = 0; faults = 0 } }
    {
        MemorySink {
            bytes: Vec::new(alloc),
            room: 0,
            most,
            failing,
            calls: 0,
            faults: 0,
        }
    }

    /// Makes room for at least this many bytes more.
    pub fn reserve(&mut self, bytes: usize) -> Result<(), NoMemory>
        ensures room { OnOk result (self.new ≡ record self.old { room = max self.old.room bytes }) }
        ensures refused { OnErr result (self.new ≡ self.old) }
    {
        self.bytes.reserve(bytes)?;
        self.room = self.room.max(bytes);
        Ok(())
    }

    /// The bytes that were taken.
    pub fn bytes(&self) -> &[u8]
        ensures { result.now ≡ self.now.taken }
    {
        &self.bytes
    }
}

impl Sink for MemorySink {
    ghost flow = { outflow_of };

    fn write(&mut self, piece: &[u8]) -> Result<usize, Failed>
        ensures bound { TakesSome result piece.now }
        ensures taken { AddsFirst self.old.taken self.new.taken result piece.now }
        ensures cause { HasCause self.old.faults self.new.faults result }

        // Exactly the listed calls fail, and those past the room, and the others take as much as they may.
        ensures listed { is_err result ≡
            (list_any (λ k. k == next_count self.old.calls) self.old.failing ||
            ((self.old.room == 0) && nat_lt 0 (length piece.now))) }
        ensures count { IfOk result
            (λ n. n ≡ min (min (length piece.now) self.old.most) self.old.room) }
        ensures moved { IfOk result (λ n.
            self.new ≡
            record self.old {
              taken = self.new.taken;
              room = self.old.room - n;
              calls = next_count self.old.calls;
            }) }
        ensures failed { OnErr result (self.new ≡
            record self.old
            { calls = next_count self.old.calls; faults = next_count self.old.faults }) }
    {
        self.calls = self.calls.saturating_add(1);
        if is_listed(&self.failing, self.calls) || (self.room == 0 && !piece.is_empty()) {
            self.faults = self.faults.saturating_add(1);
            return Err(Failed);
        }
        let count = piece.len().min(self.most).min(self.room);
        self.room -= count;
        if self.bytes.extend_from_slice(&piece[..count]).is_err() {
            unreachable!();
        }
        Ok(count)
    }
}
