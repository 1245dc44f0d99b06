// Numbers read from bytes, little-endian. A byte behind the end reads as 0.
ghost use Rattle.std.specs.Prelude.{◌≡◌, ◌<◌, ◌+◌, ℕ, get_or, drop};
ghost use Rattle.model.specs.Bundles.{number2, number4};

use std::array;

pub fn byte_at(bytes: &[u8], at: usize) -> u8
    ensures { result ≡ get_or bytes.now at 0 }
{
    bytes.get(at).copied().unwrap_or(0)
}

// What stands from a place on.
pub(crate) fn rest_at(bytes: &[u8], at: usize) -> &[u8]
    ensures { result.now ≡ drop at bytes.now }
{
    bytes.get(at..).unwrap_or(&[])
}

// So many bytes from a place on, at once where all stand there.
fn bytes_at<const N: usize>(bytes: &[u8], at: u32) -> [u8; N]
    ensures { (i : ℕ) → i < N → get_or result i 0 ≡ get_or bytes.now (at + i) 0 }
{
    let rest = rest_at(bytes, at as usize);
    match rest.first_chunk() {
        Some(whole) => *whole,
        None => array::from_fn(|i| byte_at(rest, i)),
    }
}

// A number of 2 bytes, and of 4: `from_le_bytes` is each type's own, and no trait's.
pub fn number2_at(bytes: &[u8], at: u32) -> u16
    ensures { result ≡ number2 bytes.now at }
{
    u16::from_le_bytes(bytes_at(bytes, at))
}

pub fn number4_at(bytes: &[u8], at: u32) -> u32
    ensures { result ≡ number4 bytes.now at }
{
    u32::from_le_bytes(bytes_at(bytes, at))
}
