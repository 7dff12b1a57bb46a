// Numbers in bytes, little endian.

ghost use Rattle.std.specs.Prelude.{◌≡◌, ◌+◌, ◌≤◌, ◌<◌, ◌^◌, ◌⊎◌, length, take, drop};
ghost use Rattle.rv_isa.specs.Memory.{number_of, overwritten, bytes_of};

use byteorder::{ByteOrder, LittleEndian};

/// The number that the bytes at an offset spell.
#[inline(always)]
pub(crate) fn read_number(bytes: &[u8], offset: usize, size: u32) -> u32
    requires inside { offset + size ≤ length bytes.now }
    requires size { (size ≡ 1) ⊎ (size ≡ 2) ⊎ (size ≡ 4) }
    ensures number { result ≡ number_of (take size (drop offset bytes.now)) }
    ensures fits { result < 256 ^ size }
{
    match size {
        1 => bytes[offset] as u32,
        2 => LittleEndian::read_u16(&bytes[offset..]) as u32,
        _ => LittleEndian::read_u32(&bytes[offset..]),
    }
}

/// Writes the low bytes of a value over those at an offset.
#[inline(always)]
pub(crate) fn write_number(bytes: &mut [u8], offset: usize, size: u32, value: u32)
    requires inside { offset + size ≤ length bytes.old }
    requires size { (size ≡ 1) ⊎ (size ≡ 2) ⊎ (size ≡ 4) }
    ensures { bytes.new ≡ overwritten bytes.old offset (bytes_of size value) }
{
    match size {
        1 => bytes[offset] = (value % 256) as u8,
        2 => LittleEndian::write_u16(&mut bytes[offset..offset + 2], (value % 65536) as u16),
        _ => LittleEndian::write_u32(&mut bytes[offset..offset + 4], value),
    }
}
