// A bundle's contents: how many entries it has, each entry, and the body that an entry names.
ghost use Rattle.std.specs.Prelude.{◌≡◌};
ghost use Rattle.model.specs.Bundles.{entry_count, contents_at, body_length, page_of};

use crate::numbers::{byte_at, number2_at, number4_at, rest_at};
use model::ContentsEntry;

// "Body lengths for kinds 0 to 5 are 131, 10, 10, 10, 10 and 1 bytes."
pub const BODY_LENGTHS: [usize; 6] = [131, 10, 10, 10, 10, 1];

// The length of a kind's body; 0 for a kind that there is not.
pub fn body_length(kind: u8) -> usize
    ensures { result ≡ body_length kind }
{
    BODY_LENGTHS.get(kind as usize).copied().unwrap_or(0)
}

// m, as the first two bytes have it.
pub fn entry_count(bytes: &[u8]) -> u16
    ensures { result ≡ entry_count bytes.now }
{
    number2_at(bytes, 0)
}

// An entry of the contents: kind (1), seat (1), start (2), sum (4).
pub fn contents_at(bytes: &[u8], i: u16) -> ContentsEntry
    ensures { result ≡ contents_at bytes.now i }
{
    let at = 2 + 8 * (i as u32);
    ContentsEntry {
        kind: byte_at(bytes, at as usize),
        seat: byte_at(bytes, at as usize + 1),
        start: number2_at(bytes, at + 2),
        sum: number4_at(bytes, at + 4),
    }
}

// "What a page shows is that body's own bytes in the bundle": a part of the caller's slice. Where the slice ends before
// the body does, what is there of it.
pub fn body(bytes: &[u8], c: ContentsEntry) -> &[u8]
    ensures { result.now ≡ (page_of bytes.now c).body }
{
    let rest = rest_at(bytes, c.start as usize);
    rest.get(..body_length(c.kind)).unwrap_or(rest)
}
