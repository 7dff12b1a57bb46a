// Numbers in bytes, the lowest byte first. Bytes behind the last one count as 0.

ghost use Rattle.std.specs.Prelude.{◌≡◌, ◌≤◌, ◌^◌, slice_index};
ghost use Rattle.elf_file.specs.Load.{half_at as half_of, word_at as word_of};

use byteorder::{ByteOrder, LittleEndian};

fn byte_at(bytes: &[u8], at: usize) -> u8
    ensures { result ≡ slice_index bytes.now at }
{
    match bytes.get(at) {
        Some(byte) => *byte,
        None => 0,
    }
}

/// The number in the two bytes at an offset.
pub(crate) fn half_at(bytes: &[u8], offset: usize) -> u16
    requires { offset ≤ 2 ^ 40 }
    ensures { result ≡ half_of bytes.now offset }
{
    LittleEndian::read_u16(&[byte_at(bytes, offset), byte_at(bytes, offset + 1)])
}

/// The number in the four bytes at an offset.
pub(crate) fn word_at(bytes: &[u8], offset: usize) -> u32
    requires { offset ≤ 2 ^ 40 }
    ensures { result ≡ word_of bytes.now offset }
{
    LittleEndian::read_u32(&[
        byte_at(bytes, offset),
        byte_at(bytes, offset + 1),
        byte_at(bytes, offset + 2),
        byte_at(bytes, offset + 3),
    ])
}
