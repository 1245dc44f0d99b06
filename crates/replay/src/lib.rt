// A whole bundle against a ledger: every byte that `daybook` writes, into a lent buffer.

#![tactic(auto)]

ghost use Rattle.std.specs.Prelude.{◌≤◌, ◌≡◌};
ghost use Rattle.model.specs.Bundles.{entry_count};
ghost use Rattle.basics.specs.Outputs.{Appends};
ghost use Rattle.layout.specs.Layout.{ledger_in};
ghost use Rattle.replay.specs.Text.{closing, text_of};
ghost use Rattle.replay.specs.Lists.{ListOf};
ghost use Rattle.replay.specs.Promises.{closing_most, text_most, Replayed, ReplayedInput, PlayedAll, OpensBook};

use basics::output::Output;
use bundle::{Cursor, check};
use layout::{BOOK_WORDS, Book};
use ledger::{call, list_waiting, open};
use model::{Account, BundleError, Refusal};
use pages::messages::{message_of, opening_of};
use reader::{opening_body, read_page};
use store::{accounts_of, balance_of, current_of};
use text::lines::{put_account, put_refusal, put_reply};

// The longest text: 999 lines of a proposed transfer, 36 bytes each, and 32 lines of an
// account, 27 bytes each: 36,828 bytes.
pub const TEXT_SIZE: usize = 36 * 999 + 27 * 32;

// How much of its input `daybook` reads: one byte more than the longest bundle has, 18,124 bytes.
pub const INPUT_SIZE: usize = 2 + 8 * 1_000 + 131 + 999 * 10 + 1;

// A bundle's page 0 opens the book, whatever its words were; or it is refused, and they are as they were. The refusal
// is the bundle's, or the opening's, which names entry 0.
fn open_bundle(bytes: &[u8], words: &mut Book) -> Result<(), BundleError>
    ensures { OpensBook bytes.now words.old result words.new }
{
    check(bytes)?;
    open(words, opening_of(opening_body(bytes))).map_err(|refusal| BundleError::new(refusal, 0))
}

// The entries behind the opening page, in their order, as messages to the book, each with its line.
fn play(bytes: &[u8], words: &mut Book, out: &mut Output)
    requires { entry_count bytes.now ≤ 1_000 }
    ensures { PlayedAll bytes.now words.old words.new out.old out.new }
{
    let mut cursor = Cursor { next: 1 };
    loop {
        let i = cursor.next;
        let read = read_page(bytes, cursor);
        let Some(c) = read.page else {
            return;
        };
        cursor = read.next;
        if let Some(m) = message_of(bytes, c) {
            put_reply(out, i as u32, call(words, m));
        }
    }
}

// The closing lines: each account with its balance and its current number.
fn put_closing(words: &Book, out: &mut Output)
    ensures { Appends out.old (closing (ledger_in words.now)) closing_most out.new }
{
    for a in 0..accounts_of(words) {
        let account = Account(a);
        put_account(
            out,
            a,
            balance_of(words, account),
            current_of(words, account),
        );
    }
}

// The text that `daybook` writes for these bytes.
fn put_text(bytes: &[u8], out: &mut Output)
    ensures { Appends out.old (text_of bytes.now) text_most out.new }
{
    let mut words = [0; BOOK_WORDS];
    match open_bundle(bytes, &mut words) {
        Ok(()) => {
            play(bytes, &mut words, out);
            put_closing(&words, out);
        }
        Err(e) => put_refusal(out, u8::from(e.refusal), e.entry),
    }
}

// The same, at the buffer's front; its length is replied.
pub fn replay(bytes: &[u8], out: &mut [u8; TEXT_SIZE]) -> usize
    ensures { Replayed (text_of bytes.now) out.old out.new result }
{
    let mut text = Output::new(out);
    put_text(bytes, &mut text);
    text.filled
}

// The text for an input of which the buffer holds as many first bytes as it has room for, or the whole if it is
// shorter. A count above the buffer's size counts as that size.
pub fn replay_input(input: &[u8; INPUT_SIZE], read: usize, out: &mut [u8; TEXT_SIZE]) -> usize
    ensures { ReplayedInput input.now read out.old out.new result }
{
    replay(&input[..read.min(INPUT_SIZE)], out)
}

// The waiting list, lowest account first, asked behind a bundle's last entry; the text goes nowhere. A bundle or an
// opening that is refused has no list: its own code is replied.
pub fn list_after(bytes: &[u8], buffer: &mut [u8]) -> Result<u32, Refusal>
    ensures { ListOf bytes.now buffer.old result buffer.new }
{
    let mut words = [0; BOOK_WORDS];
    match open_bundle(bytes, &mut words) {
        Ok(()) => {
            let mut nowhere = [0; 1];
            play(bytes, &mut words, &mut Output::new(&mut nowhere));
            list_waiting(&words, buffer)
        }
        Err(e) => Err(e.refusal),
    }
}
