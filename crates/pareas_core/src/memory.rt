// Ends in memory: for tests, and for callers that have all bytes at hand.

ghost use Rattle.std.specs.Prelude.{◌≡◌, ◌+◌, ◌-◌, ◌^◌, ◌<◌, ◌≤◌, ◌↔◌, ◌⊎◌, [], drop, length, min, Contains, IfOk, IsErr, OnOk};
ghost use Rattle.std.specs.Io.{ReadsAtMost, WritesAtMost};
ghost use Rattle.std.specs.Io.KnownBytes.{ReadConsumes, WriteAppends};
ghost use Rattle.pareas_core.specs.Causes.{HasCause};

use crate::ends::{ByteIn, ByteOut, Failed};
use std::alloc::{AllocError, Global};
use std::marker::Model;

/// An input over bytes in memory. A read gives at most `step` bytes, and some reads fail, by their numbers
/// from 1 on.
#[derive(Drop)]
pub struct MemoryIn {
    bytes: Vec<u8>,
    start: usize,
    step: usize,
    failing: Vec<u64>,
    calls: u64,
    faults: u64,
}

impl Model for MemoryIn {
    ghost use Rattle.std.specs.Prelude.{◌≤◌, drop, length};
    ghost use Rattle.pareas_core.specs.Memory.{InMemory};

    ghost Value = { InMemory };

    ghost view = { λ m. record { left = drop m.start m.bytes.items; step = m.step; failing = m.failing.items; calls = m.calls; faults = m.faults } };

    ghost invariant = { λ m. (m.start ≤ length m.bytes.items) × (1 ≤ m.step) };
}

impl MemoryIn {
    /// An input of these bytes.
    pub fn new(bytes: Vec<u8>, step: usize, failing: Vec<u64>) -> Self
        requires { 1 ≤ step }
        ensures { result ≡ record { left = bytes.items; step = step; failing = failing.items; calls = 0; faults = 0 } }
    {
        MemoryIn {
            bytes,
            start: 0,
            step,
            failing,
            calls: 0,
            faults: 0,
        }
    }
}

impl ByteIn for MemoryIn {
    ghost use Rattle.std.specs.Prelude.{Some};

    ghost left = { λ m. Some m.left };

    ghost faults = { λ m. m.faults };

    fn read(&mut self, buf: &mut [u8]) -> Result<usize, Failed>
        ensures bound { ReadsAtMost result buf.new }
        ensures bytes { ReadConsumes (Some self.old.left) (Some self.new.left) result buf.new }
        ensures cause { HasCause self.old.faults self.new.faults result }
        ensures failing { IsErr result ↔ Contains self.old.failing self.new.calls }
        ensures counted { self.new.calls ≡ min (self.old.calls + 1) (2 ^ 64 - 1) }
        ensures piece { IfOk result (λ n. n ≡ min (min (length buf.old) self.old.step) (length self.old.left)) }
        ensures kept { (self.new.step ≡ self.old.step) × (self.new.failing ≡ self.old.failing) }
    {
        self.calls = self.calls.saturating_add(1);
        if self.failing.contains(&self.calls) {
            self.faults = self.faults.saturating_add(1);
            return Err(Failed);
        }
        let left = &self.bytes[self.start..];
        let count = buf.len().min(self.step).min(left.len());
        buf[..count].copy_from_slice(&left[..count]);
        self.start += count;
        Ok(count)
    }
}

/// An output into memory, with room for `room` bytes. A write takes at most `step` bytes. Some writes fail, by their
/// numbers from 1 on, and so does each whose bytes have no room any more, as on a full disk.
#[derive(Drop)]
pub struct MemoryOut {
    written: Vec<u8>,
    room: usize,
    step: usize,
    failing: Vec<u64>,
    calls: u64,
    faults: u64,
}

impl Model for MemoryOut {
    ghost use Rattle.std.specs.Prelude.{◌+◌, ◌≤◌, vec_capacity, vec_len};
    ghost use Rattle.pareas_core.specs.Memory.{OutMemory};

    ghost Value = { OutMemory };

    ghost view = { λ m. record { written = m.written.items; room = m.room; step = m.step; failing = m.failing.items; calls = m.calls; faults = m.faults } };

    ghost invariant = { λ m. (1 ≤ m.step) × (vec_len m.written + m.room ≤ vec_capacity m.written) };
}

impl MemoryOut {
    /// An output with room for `room` bytes, into which nothing was written.
    pub fn new(
        alloc: Global,
        room: usize,
        step: usize,
        failing: Vec<u64>,
    ) -> Result<Self, AllocError>
        requires { 1 ≤ step }
        ensures { IfOk result (λ m. m ≡ record { written = []; room = room; step = step; failing = failing.items; calls = 0; faults = 0 }) }
    {
        Ok(MemoryOut {
            written: Vec::with_capacity(alloc, room)?,
            room,
            step,
            failing,
            calls: 0,
            faults: 0,
        })
    }

    /// All bytes that were written.
    pub fn written(&self) -> &[u8]
        ensures { result.now ≡ self.now.written }
    {
        &self.written
    }
}

impl ByteOut for MemoryOut {
    ghost use Rattle.std.specs.Prelude.{Some};

    ghost written = { λ m. Some m.written };

    ghost faults = { λ m. m.faults };

    fn write(&mut self, buf: &[u8]) -> Result<usize, Failed>
        ensures bound { WritesAtMost result buf.now }
        ensures progress { IfOk result (λ n. 0 < length buf.now → 0 < n) }
        ensures bytes { WriteAppends (Some self.old.written) (Some self.new.written) result buf.now }
        ensures cause { HasCause self.old.faults self.new.faults result }
        ensures failing { IsErr result ↔ (Contains self.old.failing self.new.calls ⊎ (self.old.room < min (length buf.now) self.old.step)) }
        ensures room { self.new.room + length self.new.written ≡ self.old.room + length self.old.written }
        ensures counted { self.new.calls ≡ min (self.old.calls + 1) (2 ^ 64 - 1) }
        ensures piece { IfOk result (λ n. n ≡ min (length buf.now) self.old.step) }
        ensures kept { (self.new.step ≡ self.old.step) × (self.new.failing ≡ self.old.failing) }
    {
        self.calls = self.calls.saturating_add(1);
        let count = buf.len().min(self.step);
        let takes = count <= self.room && !self.failing.contains(&self.calls);
        if takes && self.written.extend_from_slice(&buf[..count]).is_ok() {
            self.room -= count;
            return Ok(count);
        }
        self.faults = self.faults.saturating_add(1);
        Err(Failed)
    }
}
