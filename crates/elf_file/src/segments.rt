// The segments of a file, as they stand in memory.

ghost use Rattle.std.specs.Prelude.{◌≡◌, ◌+◌, length};
ghost use Rattle.elf_file.specs.Load.{Loaded};

use std::marker::Model;

/// Bytes in memory from an address on. The flags are 4 for reading, 2 for writing, 1 for execution.
#[derive(Drop)]
pub struct Segment {
    start: u32,
    bytes: Vec<u8>,
    flags: u32,
}

impl Model for Segment {
    ghost Value = { Loaded };

    ghost view = { λ s. record { start = s.start; bytes = s.bytes.items; flags = s.flags } };
}

impl Segment {
    pub fn new(start: u32, bytes: Vec<u8>, flags: u32) -> Segment
        ensures { result ≡ record { start = start; bytes = bytes.items; flags = flags } }
    {
        Segment {
            start,
            bytes,
            flags,
        }
    }

    /// The address of the first byte.
    pub fn start(&self) -> u32
        ensures { result ≡ self.now.start }
    {
        self.start
    }

    /// The address behind the last byte, which may be 2^32.
    pub fn end(&self) -> u64
        ensures { result ≡ self.now.start + length self.now.bytes }
    {
        self.start as u64 + self.bytes.len() as u64
    }

    pub fn bytes(&self) -> &[u8]
        ensures { result.now ≡ self.now.bytes }
    {
        &self.bytes
    }

    pub fn flags(&self) -> u32
        ensures { result ≡ self.now.flags }
    {
        self.flags
    }

    /// The bytes, without a copy.
    pub fn into_bytes(self) -> Vec<u8>
        ensures { result.items ≡ self.bytes }
    {
        self.bytes
    }
}

/// What a file has the loader put into memory, and where the run begins.
#[derive(Drop)]
pub struct Segments {
    entry: u32,
    segments: Vec<Segment>,
}

impl Model for Segments {
    ghost use Rattle.elf_file.specs.Load.{Segments as LoadedSegments};

    ghost Value = { LoadedSegments };

    ghost view = { λ s. record { entry = s.entry; segments = s.segments.items } };
}

impl Segments {
    pub fn new(entry: u32, segments: Vec<Segment>) -> Segments
        ensures { result ≡ record { entry = entry; segments = segments.items } }
    {
        Segments { entry, segments }
    }

    pub fn entry(&self) -> u32
        ensures { result ≡ self.now.entry }
    {
        self.entry
    }

    /// The segments in the order of their program headers.
    pub fn segments(&self) -> &[Segment]
        ensures { result.now ≡ self.now.segments }
    {
        &self.segments
    }

    /// The segments, without a copy.
    pub fn into_segments(self) -> Vec<Segment>
        ensures { result.items ≡ self.segments }
    {
        self.segments
    }
}
