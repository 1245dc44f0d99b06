// A bundle: its check, and its reading page by page, by a cursor. What a page holds is read by the crate `pages`; a
// reading that holds its bundle is in the crate `reader`.

#![tactic(auto)]

ghost use Rattle.std.specs.Prelude.{◌≡◌};
ghost use Rattle.bundle.specs.Promises.{CheckedAs, ReadAs};

use crate::checks::{first_wrong_sum, is_bad_header, walk_contents};
use model::{BundleError, ContentsEntry, Refusal};
use pages::contents::{contents_at, entry_count};

pub mod checks;
pub mod sums;

// Where a reading of a bundle goes on: the entry behind the page last taken.
#[derive(Clone, Copy)]
pub struct Cursor {
    pub next: u16,
}

// What a reading finds: the next page's entry, if there is one, and where to go on, or stay.
#[derive(Clone, Copy)]
pub struct Read {
    pub page: Option<ContentsEntry>,
    pub next: Cursor,
}

// The check of a bundle: how many entries it has, or the refusal and the entry. Codes 13, 14, 15 and 16 in this
// order, the lowest entry first.
#[tactic(auto, unfolding(model::specs::Bundles::check_bundle))]
pub fn check(bytes: &[u8]) -> Result<u16, BundleError>
    ensures { CheckedAs bytes.now result }
{
    if is_bad_header(bytes) {
        return Err(BundleError::new(Refusal::BadHeader, 0));
    }
    let end = walk_contents(bytes).map_err(|i| BundleError::new(Refusal::BadContents, i))?;
    if bytes.len() != end as usize {
        return Err(BundleError::new(Refusal::BadEnd, 0));
    }
    match first_wrong_sum(bytes) {
        Some(i) => Err(BundleError::new(Refusal::BadSum, i)),
        None => Ok(entry_count(bytes)),
    }
}

// "A reading of a bundle goes on from the page last taken. After the last page it replies that there
// are no more, and stays there."
pub fn read_next(bytes: &[u8], c: Cursor) -> Read
    ensures { ReadAs bytes.now c.next result }
{
    let i = c.next;
    if i < entry_count(bytes) {
        Read {
            page: Some(contents_at(bytes, i)),
            next: Cursor { next: i + 1 },
        }
    } else {
        Read {
            page: None,
            next: c,
        }
    }
}
