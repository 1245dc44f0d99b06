// A reading of a bundle that holds the bundle: few thin functions over the cursor's. Other crates read by `read_page`
// and `opening_body`, which take plain parameters.

#![tactic(auto)]

ghost use Rattle.std.specs.Prelude.{◌≡◌};
ghost use Rattle.bundle.specs.Promises.{ReadAs};
ghost use Rattle.reader.specs.Promises.{gone_on, last_body, opening_body};

use bundle::{Cursor, Read, read_next};
use pages::contents::{body, contents_at};

// The bundle, and the entry behind the page last taken.
#[derive(Drop)]
pub struct Reader<'a> {
    pub bundle: &'a [u8],
    pub next: u16,
}

impl<'a> Reader<'a> {
    // A reading that has taken no page yet. It reads a bundle that `check` found sound; of
    // other bytes it reads what is there.
    pub fn new(bundle: &'a [u8]) -> Reader<'a>
        ensures { (result.bundle ≡ bundle.entry) × (result.next ≡ 0) }
    {
        Reader { bundle, next: 0 }
    }

    // "A reading of a bundle goes on from the page last taken. After the last page it replies that there
    // are no more, and stays there."
    pub fn take(&mut self) -> Read
        ensures { ReadAs self.old.bundle.now self.old.next result × (self.new ≡ gone_on self.old result) }
    {
        let page = read_next(self.bundle, Cursor { next: self.next });
        self.next = page.next.next;
        page
    }

    // The body of the page last taken, its own bytes in the bundle; before the first page there is none.
    pub fn shown(self) -> &'a [u8]
        ensures { result.now ≡ last_body self.entry.bundle.now self.entry.next }
    {
        match self.next.checked_sub(1) {
            Some(last) => body(self.bundle, contents_at(self.bundle, last)),
            None => &[],
        }
    }
}

// One page by plain parameters: a reading is taken up at this place, and takes the next page.
pub fn read_page(bundle: &[u8], at: Cursor) -> Read
    ensures { ReadAs bundle.now at.next result }
{
    let mut reading = Reader {
        bundle,
        next: at.next,
    };
    reading.take()
}

// The opening page's body by plain parameters: a reading takes its first page and shows it.
#[tactic(auto, using(crate::proofs::Pages::shows_first))]
pub fn opening_body(bundle: &[u8]) -> &[u8]
    ensures { result.now ≡ opening_body bundle.now }
{
    let mut reading = Reader::new(bundle);
    reading.take();
    reading.shown()
}
