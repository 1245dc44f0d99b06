// The writer of bundles: an opening page and a list of messages written into a lent buffer as a bundle's bytes.

#![tactic(auto)]

ghost use Rattle.std.specs.Prelude.{suc, ◌+◌, ◌*◌, ◌≤◌, ◌≡◌, length};
ghost use Rattle.model.specs.Writing.{written};
ghost use Rattle.basics.specs.Outputs.{Appends};
ghost use Rattle.bundle.specs.Promises.{longest};
ghost use Rattle.writer.specs.Promises.{WroteAll, WroteList, entries_of, first_start, message_bodies};

use crate::bodies::{put_message, put_opening};
use crate::contents::{message_entry, message_length, opening_entry, put_entry};
use basics::output::Output;
use model::{BundleError, Message, Opening, Refusal};
use pages::contents::body_length;

mod bodies;
mod contents;
pub mod records;
pub mod sinks;

// The most messages that a bundle has, beside its opening page.
pub const MOST_MESSAGES: usize = 999;

// An opening page and the messages behind it, few enough for a bundle.
#[derive(Clone, Copy)]
struct Bundle<'a> {
    page: Opening,
    messages: &'a [Message],
    ghost few: { length messages.now ≤ 999 },
    ghost balances: { length page.balances ≡ 32 },
}

impl<'a> Bundle<'a> {
    // Where the contents end: behind m, and the entries of the opening page and of the messages.
    fn contents_end(&self) -> usize
        ensures { result ≡ 2 + 8 * suc (length self.now.messages.now) }
    {
        2 + 8 * (self.messages.len() + 1)
    }

    // Where the first message's body starts: behind the opening page's.
    fn first_start(&self) -> usize
        ensures { result ≡ first_start (length self.now.messages.now) }
    {
        self.contents_end() + body_length(0)
    }

    // The length of the bundle: where the last message's body ends.
    fn size(&self) -> usize
        ensures { result ≡ length (written self.now.page self.now.messages.now) }
    {
        let bodies: usize = self.messages.iter().map(|m| message_length(*m)).sum();
        self.first_start() + bodies
    }

    // The entries of the messages, each with the place where its body starts: "each next where the one before it ends".
    fn put_entries(&self, out: &mut Output)
        ensures { Appends out.old (entries_of self.now.messages.now) (8 * length self.now.messages.now) out.new }
    {
        let mut start = self.first_start();
        for m in self.messages {
            put_entry(out, message_entry(*m, start as u16));
            start += message_length(*m);
        }
    }

    // The bodies of the messages, one behind the other.
    fn put_bodies(&self, out: &mut Output)
        ensures { Appends out.old (message_bodies self.now.messages.now) (10 * length self.now.messages.now) out.new }
    {
        for m in self.messages {
            put_message(out, *m);
        }
    }

    // The whole bundle: m, the contents, the bodies.
    fn put(&self, out: &mut Output)
        ensures { Appends out.old (written self.now.page self.now.messages.now) longest out.new }
    {
        let count = (self.messages.len() + 1) as u16;
        out.put_all(&count.to_le_bytes());
        put_entry(out, opening_entry(self.page, self.contents_end() as u16));
        self.put_entries(out);
        put_opening(out, self.page);
        self.put_bodies(out);
    }
}

// Writes the bundle of a page and of the messages into the front of the buffer that is lent, and replies its length;
// what stands behind it stays. 18 for more than 999 messages; then 19 for a buffer that is shorter than the bundle. A
// refusal leaves the buffer as it was.
pub fn write_list(page: Opening, messages: &[Message], out: &mut [u8]) -> Result<u32, BundleError>
    ensures { WroteAll page messages.now out.old result out.new }
{
    if MOST_MESSAGES < messages.len() {
        return Err(BundleError::new(Refusal::TooManyMessages, 0));
    }
    let bundle = Bundle { page, messages };
    let size = bundle.size();
    if out.len() < size {
        return Err(BundleError::new(Refusal::NoRoom, 0));
    }
    bundle.put(&mut Output::new(out));
    Ok(size as u32)
}

// The same of the first `count` of the messages, or of all where there are fewer: 18 goes by the count, whatever the
// list holds.
pub fn write(
    page: Opening,
    messages: &[Message],
    count: usize,
    out: &mut [u8],
) -> Result<u32, BundleError>
    ensures { WroteList page messages.now count out.old result out.new }
{
    if MOST_MESSAGES < count {
        Err(BundleError::new(Refusal::TooManyMessages, 0))
    } else {
        let first = count.min(messages.len());
        write_list(page, &messages[..first], out)
    }
}
