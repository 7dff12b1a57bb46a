// Small writes, gathered.

ghost use Rattle.std.specs.Prelude.{◌≡◌, ◌+◌, ◌≤◌, ◌++◌, [], length, OnErr, OnOk};
ghost use Rattle.std.specs.Io.KnownBytes.{Appends};
ghost use Rattle.pareas_core.specs.Causes.{Rose};
ghost use Rattle.pareas_core.specs.Reading.{WritesAllBut, WritesPrefix};

use crate::ends::{ByteOut, Failed};
use crate::writing::write_all;
use std::marker::Model;

/// How many bytes a buffer holds.
const ROOM: usize = 4096;

/// Bytes that were put and aren't written yet. It asks for no memory, so a delivery that has begun doesn't run out of it.
#[derive(Drop)]
pub(crate) struct Buffer {
    bytes: [u8; ROOM],
    count: usize,
}

impl Model for Buffer {
    ghost use Rattle.std.specs.Prelude.{ℕ, ◌≤◌, List, take};

    ghost Value = { List ℕ };

    ghost view = { λ b. take b.count b.bytes };

    ghost invariant = { λ b. b.count ≤ 4096 };
}

impl Buffer {
    /// A buffer without bytes.
    pub(crate) fn new() -> Self
        ensures { result ≡ [] }
    {
        Buffer {
            bytes: [0; ROOM],
            count: 0,
        }
    }

    // How many bytes it has room for, behind those that it holds.
    fn room(&self) -> usize
        ensures { length self.now + result ≡ 4096 }
    {
        ROOM - self.count
    }

    // Holds the bytes, too.
    fn hold(&mut self, bytes: &[u8])
        requires room { length self.old + length bytes.now ≤ 4096 }
        ensures { self.new ≡ self.old ++ bytes.now }
    {
        let end = self.count + bytes.len();
        self.bytes[self.count..end].copy_from_slice(bytes);
        self.count = end;
    }

    /// Puts bytes behind those that were put before. What there is room for is only held, and a long piece isn't copied.
    pub(crate) fn put<O: ByteOut>(&mut self, out: &mut O, bytes: &[u8]) -> Result<(), Failed>
        ensures put { OnOk result (WritesAllBut self.new (O.written out.old) (O.written out.new) (self.old ++ bytes.now)) }
        ensures worked { OnOk result (O.faults out.new ≡ O.faults out.old) }
        ensures prefix { OnErr result (WritesPrefix (O.written out.old) (O.written out.new) (self.old ++ bytes.now)) }
        ensures failed { OnErr result (Rose (O.faults out.old) (O.faults out.new)) }
    {
        if bytes.len() <= self.room() {
            self.hold(bytes);
            return Ok(());
        }
        self.flush(out)?;
        if bytes.len() <= ROOM {
            self.hold(bytes);
            return Ok(());
        }
        write_all(out, bytes)
    }

    /// Writes the bytes that it holds.
    pub(crate) fn flush<O: ByteOut>(&mut self, out: &mut O) -> Result<(), Failed>
        ensures emptied { OnOk result (self.new ≡ []) }
        ensures written { OnOk result (Appends (O.written out.old) (O.written out.new) self.old) }
        ensures worked { OnOk result (O.faults out.new ≡ O.faults out.old) }
        ensures prefix { OnErr result (WritesPrefix (O.written out.old) (O.written out.new) self.old) }
        ensures failed { OnErr result (Rose (O.faults out.old) (O.faults out.new)) }
    {
        write_all(out, &self.bytes[..self.count])?;
        self.count = 0;
        Ok(())
    }
}
