//! Items that are cut into chunks.
ghost use Rattle.std.specs.Prelude.{◌≡◌, ◌+◌, ◌*◌, ◌<◌, ◌≤◌, ◌^◌, min};
ghost use Rattle.chunk_seats.specs.Chunks.{chunk_of, chunk_count};

/// The place of a chunk's first item, which is the end where the chunk begins behind it.
pub fn chunk_start(len: usize, size: u32, c: u64) -> usize
    ensures { result ≡ min (c * size) len }
{
    c.saturating_mul(u64::from(size)).min(len as u64) as usize
}

/// The items of a chunk, of which there are none where it begins behind the end.
pub fn chunk_slice<T>(items: &[T], size: u32, c: u64) -> &[T]
    ensures { result.now ≡ chunk_of size items.now c }
{
    let from = chunk_start(items.len(), size, c);
    let to = from + (items.len() - from).min(size as usize);
    &items[from..to]
}

/// How many chunks of that size the items make.
pub fn count_chunks(len: usize, size: u32) -> usize
    requires len { len < 2 ^ 63 }
    requires size { (0 < size) × (size ≤ 65536) }
    ensures { result ≡ chunk_count size len }
{
    (len + (size as usize - 1)) / size as usize
}
