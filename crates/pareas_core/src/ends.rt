// Where bytes come from and where they go. Each end counts its faults; the count never falls.

ghost use Rattle.std.specs.Prelude.{ℕ, List, Option, Result, ◌≤◌, ◌<◌, length, IfOk};
ghost use Rattle.std.specs.Io.{ReadsAtMost, WritesAtMost};
ghost use Rattle.std.specs.Io.KnownBytes.{ReadConsumes, WriteAppends};
ghost use Rattle.pareas_core.specs.Causes.{HasCause};

/// A read or a write failed.
#[derive(Clone, Copy, PartialEq, Eq, Debug)]
pub struct Failed;

/// An input, read piece by piece.
pub trait ByteIn {
    /// The bytes left, where the end tells them.
    ghost left: { Self → Option (List ℕ) };

    /// How many reads failed so far. The count stands still at its type's end, 2^64 - 1.
    ghost faults: { Self → ℕ };

    /// The next bytes, at most as many as the buffer holds; none into a buffer with room only where none is left.
    fn read(&mut self, buf: &mut [u8]) -> Result<usize, Failed>
        ensures bound { ReadsAtMost result buf.new }
        ensures bytes { ReadConsumes (left self.old) (left self.new) result buf.new }
        ensures cause { HasCause (faults self.old) (faults self.new) result };
}

/// An output, written piece by piece.
pub trait ByteOut {
    /// The bytes written, where the end tells them.
    ghost written: { Self → Option (List ℕ) };

    /// How many writes failed so far. The count stands still at its type's end, 2^64 - 1.
    ghost faults: { Self → ℕ };

    /// Writes a front of the bytes, at least one byte where there is one.
    fn write(&mut self, buf: &[u8]) -> Result<usize, Failed>
        ensures bound { WritesAtMost result buf.now }
        ensures progress { IfOk result (λ n. 0 < length buf.now → 0 < n) }
        ensures bytes { WriteAppends (written self.old) (written self.new) result buf.now }
        ensures cause { HasCause (faults self.old) (faults self.new) result };
}
