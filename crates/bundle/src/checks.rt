// The four conditions of a bundle, each over the whole of it.
ghost use Rattle.std.specs.Prelude.{◌≡◌};
ghost use Rattle.model.specs.Bundles.{bad_header, misplaced, wrong_entry, wrong_sum_at, first_bad_sum};
ghost use Rattle.pages.specs.Kinds.{number_of};
ghost use Rattle.bundle.specs.Promises.{walk_of};

use crate::sums::body_sum;
use model::ContentsEntry;
use pages::contents::{body, body_length, contents_at, entry_count};
use pages::kinds::Kind;

// 13: fewer than 2 bytes, m outside 1 to 1,000, or fewer than 2 + 8m bytes.
pub fn is_bad_header(bytes: &[u8]) -> bool
    ensures { result ≡ bad_header bytes.now }
{
    let m = entry_count(bytes) as usize;
    bytes.len() < 2 || m < 1 || 1_000 < m || bytes.len() < 2 + 8 * m
}

// Kind 0 stands at entry 0 and nowhere else.
fn is_misplaced(i: u16, kind: Kind) -> bool
    ensures { result ≡ misplaced i (number_of kind) }
{
    (kind == Kind::Opening) != (i == 0)
}

// 14: kind above 5, kind 0 misplaced, seat (0 unless the kind is 3) or start wrong.
pub fn is_wrong_entry(i: u16, start: u32, c: ContentsEntry) -> bool
    ensures { result ≡ wrong_entry i start c }
{
    let Ok(kind) = Kind::try_from(c.kind) else {
        return true;
    };
    is_misplaced(i, kind) || (kind != Kind::Ack && c.seat != 0) || c.start as u32 != start
}

// Goes through the contents with the place where each body starts: "the first at 2 + 8m, each next
// where the one before it ends". The answer is where the last body ends, or the lowest entry that is wrong.
pub fn walk_contents(bytes: &[u8]) -> Result<u32, u16>
    ensures { result ≡ walk_of bytes.now }
{
    let m = entry_count(bytes);
    let mut start = 2 + 8 * (m as u32);
    for i in 0..m {
        let c = contents_at(bytes, i);
        if is_wrong_entry(i, start, c) {
            return Err(i);
        }
        start += body_length(c.kind) as u32;
    }
    Ok(start)
}

// The entry's sum is not that of its body.
fn is_wrong_sum(bytes: &[u8], i: u16) -> bool
    ensures { result ≡ wrong_sum_at bytes.now i }
{
    let c = contents_at(bytes, i);
    c.sum != body_sum(body(bytes, c))
}

// 16: the lowest entry with a wrong sum.
pub fn first_wrong_sum(bytes: &[u8]) -> Option<u16>
    ensures { result ≡ first_bad_sum bytes.now }
{
    (0..entry_count(bytes)).find(|i| is_wrong_sum(bytes, *i))
}
