// Little-endian numbers in bytes. A byte past the end of the slice reads as 0, so every place has
// an answer; whoever must tell a short slice apart looks at its length first.
ghost use Rattle.std.specs.Prelude.{◌≡◌, ℕ, ◌+◌, ◌<◌, slice_index};
ghost use Rattle.raw_bytes.specs.Numbers.{little_endian, signed32};

use std::array::from_fn;

// The byte at a place.
pub fn u8_at(bytes: &[u8], at: usize) -> u8
    ensures { result ≡ little_endian 1 bytes.now at }
{
    bytes.get(at).copied().unwrap_or(0)
}

// The number of two bytes at a place.
pub fn u16_at(bytes: &[u8], at: usize) -> u16
    ensures { result ≡ little_endian 2 bytes.now at }
{
    u16::from_le_bytes(bytes_at(bytes, at))
}

// The number of four bytes at a place.
pub fn u32_at(bytes: &[u8], at: usize) -> u32
    ensures { result ≡ little_endian 4 bytes.now at }
{
    u32::from_le_bytes(bytes_at(bytes, at))
}

// The signed number of four bytes at a place, in two's complement.
pub fn i32_at(bytes: &[u8], at: usize) -> i32
    ensures { result ≡ signed32 (little_endian 4 bytes.now at) }
{
    i32::from_le_bytes(bytes_at(bytes, at))
}

// So many bytes from a place on.
fn bytes_at<const N: usize>(bytes: &[u8], at: usize) -> [u8; N]
    ensures { (i : ℕ) → i < N → slice_index result i ≡ slice_index bytes.now (at + i) }
{
    from_fn(|i| u8_at(bytes, at.saturating_add(i)))
}
