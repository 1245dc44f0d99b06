// What a host in Rust or C calls; the crate host_c exports each of these functions under its name. Each takes any
// numbers and any bytes, and its contract fixes the result, by the documents' definitions and by those in specs/, which
// say how a reply is told as numbers.

#![tactic(auto)]

ghost use Rattle.std.specs.Prelude.{◌≡◌};
ghost use Rattle.model.specs.Acks.{enough};
ghost use Rattle.model.specs.Refusals.{list_refusal};
ghost use Rattle.model.specs.Bundles.{body_sum, transfer_of, check_bundle};
ghost use Rattle.model.specs.Joins.{evidence};
ghost use Rattle.model.specs.Calls.{waiting_accounts};
ghost use Rattle.layout.specs.Layout.{book_words, ledger_in};
ghost use Rattle.ledger.specs.Promises.{SwitchedAs};
ghost use Rattle.replay.specs.Lists.{accounts_behind, refusal_behind};
ghost use Rattle.replay.specs.Text.{text_of};
ghost use Rattle.replay.specs.Promises.{Replayed};
ghost use Rattle.saving.specs.Saved.{saved_size, saved};
ghost use Rattle.host.specs.Messages.{reply_words, ToldOpening, OpenedHanded, ToldCall};
ghost use Rattle.host.specs.Keeping.{number_of_load, ToldLoad};
ghost use Rattle.host.specs.Quorums.{Fewest};
ghost use Rattle.host.specs.Waiting.{number_of, ToldList};
ghost use Rattle.host.specs.BundleNumbers.{number_of_bundle, ToldWriting};
ghost use Rattle.host.specs.Evidences.{answer_words, evidence_words};

use crate::handing::{answer, check_handed};
use basics::quorums::is_enough;
use bundle::check;
use bundle::sums::body_sum;
use evidence::{join, shown, shown_start};
use layout::{BOOK_WORDS, Book, HeldBook};
use ledger::{list_waiting, open, switch};
use model::{BundleError, FoundPair, JoinError, Refusal, Reply, Transfer};
use pages::contents::BODY_LENGTHS;
use pages::kinds::Kind;
use pages::messages::{opening_of, transfer_of};
use replay::{TEXT_SIZE, list_after, replay};
use saving::{LoadError, SAVED_SIZE, load, save};
use writer::records::write_records;

mod handing;

// How many words a reply has: its letter, and the four values of the longest.
pub const REPLY_WORDS: usize = 5;

// A book is 1,380 words that the host lends and keeps: `ledger_open` opens it, `ledger_call` plays a message on it,
// `ledger_waiting` lists what waits in it, `ledger_save` and `ledger_load` are for its disk. Words that are all 0
// are a book that refuses every message. A book held from before request 5 of document 02 is 1,252 words:
// `ledger_switch` takes it over.

// How many words a book has.
pub fn ledger_words() -> u32
    ensures { result ≡ book_words }
{
    BOOK_WORDS as u32
}

// Opens the book from a page, a bundle's body of kind 0: n, f, k, 32 balances. Returns 0, and the book is
// the page's, whatever it was; or the code that the page is refused by, 15 where it is not 131 bytes
// long, and each word is as it was.
pub fn ledger_open(words: &mut Book, page: &[u8]) -> u8
    ensures { ToldOpening words.old page.now result words.new }
{
    match open_handed(words, page) {
        Ok(()) => 0, // opened
        Err(r) => u8::from(r),
    }
}

// The same, answered by the refusal.
fn open_handed(words: &mut Book, page: &[u8]) -> Result<(), Refusal>
    ensures { OpenedHanded words.old page.now result words.new }
{
    check_handed(0, Kind::Opening as u8, 0, page)?;
    open(words, opening_of(page))
}

// Takes over a book held from before request 5: the book is what the held one becomes, whatever it was. The held one
// stays as it was; the two must not overlap, as no buffer that is written may overlap another.
pub fn ledger_switch(held: &HeldBook, words: &mut Book)
    ensures { SwitchedAs held.now words.new }
{
    switch(held, words);
}

// The words of a reply: its letter, what it carries, and zeros.
fn reply_words(r: Reply) -> [u32; REPLY_WORDS]
    ensures { result ≡ reply_words r }
{
    let letter = r.letter() as u32;
    match r {
        Reply::Circulate | Reply::Acknowledge | Reply::Note => [letter, 0, 0, 0, 0],
        Reply::Accept(value) | Reply::Balance(value) => [letter, value, 0, 0, 0],
        Reply::Propose(t) => [
            letter,
            t.account.0 as u32,
            t.number,
            t.value,
            t.recipient.0 as u32,
        ],
        Reply::Refuse(refusal) => [letter, u8::from(refusal) as u32, 0, 0, 0],
    }
}

// Plays one message on the book: kind, seat and body as a bundle has them. Writes the reply: the letter in ASCII, what
// it carries (K the count, P account, number, value and recipient, B the balance, R the code), and zeros. R 14 where
// the kind is no message's, 0 or above 5, or where the seat is not 0 and the kind has none; then R 15 where the body is
// not as long as its kind's. With every R each word of the book is as it was.
pub fn ledger_call(
    words: &mut Book,
    kind: u8,
    seat: u8,
    body: &[u8],
    reply: &mut [u32; REPLY_WORDS],
)
    ensures { ToldCall words.old (record { kind = kind; seat = seat; body = body.now }) words.new reply.new }
{
    *reply = reply_words(answer(words, kind, seat, body));
}

// A list's reply as one number: how many accounts were written, or 256 times the code.
fn number_of(reply: Result<u32, Refusal>) -> u32
    ensures { result ≡ number_of reply }
{
    match reply {
        Ok(count) => count,
        Err(refusal) => 256 * (u8::from(refusal) as u32),
    }
}

// Writes the waiting list, the accounts at which a transfer waits in the book, lowest first, into the front of the list
// that is lent, 32 bytes or more. Returns how many; or 256 times 17 where the list is shorter, and it is as it was.
pub fn ledger_waiting(words: &Book, list: &mut [u8]) -> u32
    ensures { ToldList (list_refusal list.old) (waiting_accounts (ledger_in words.now)) list.old result list.new }
{
    number_of(list_waiting(words, list))
}

// How many bytes a saved book has.
pub fn ledger_saved_size() -> u32
    ensures { result ≡ saved_size }
{
    SAVED_SIZE as u32
}

// Saves the book: its 5,532 bytes to keep, whatever the buffer held. The book stays as it was.
pub fn ledger_save(words: &Book, bytes: &mut [u8; SAVED_SIZE])
    ensures { bytes.new ≡ saved words.now }
{
    save(words, bytes);
}

// A load's reply as one number.
fn number_of_load(reply: Result<(), LoadError>) -> u8
    ensures { result ≡ number_of_load reply }
{
    match reply {
        Ok(()) => 0,
        Err(LoadError::WrongMark) => 101,
        Err(LoadError::UnknownFormat) => 102,
        Err(LoadError::WrongLength) => 103,
        Err(LoadError::WrongSum) => 104,
    }
}

// Loads a saved book. Returns 0, and the words are those that were saved, whatever they were; or, tried in this order,
// 101 for a wrong mark, 102 for a format that is not known, 103 for a length that is not that format's, 104 for a wrong
// sum, and each word is as it was.
pub fn ledger_load(words: &mut Book, bytes: &[u8]) -> u8
    ensures { ToldLoad words.old bytes.now result words.new }
{
    number_of_load(load(words, bytes))
}

// How many equal acks accept a transfer: the fewest of which twice as many exceed n + 3f.
pub fn ledger_acks_needed(seats: u8, faults: u8) -> u16
    ensures { Fewest seats faults result }
{
    ((seats as u16) + 3 * (faults as u16)) / 2 + 1
}

// So many equal acks accept a transfer.
pub fn ledger_is_enough(seats: u8, faults: u8, acks: u8) -> bool
    ensures { result ≡ enough seats faults acks }
{
    is_enough(seats, faults, acks)
}

// The text that `daybook` writes for these bytes, at the front of a buffer of 36,828 bytes, which every
// text fits; its length is returned.
pub fn daybook_text(bytes: &[u8], text: &mut [u8; TEXT_SIZE]) -> usize
    ensures { Replayed (text_of bytes.now) text.old text.new result }
{
    replay(bytes, text)
}

// The waiting list of the ledger that a bundle leaves, lowest account first, in the front of the list that is lent: how
// many were written. Where it is refused, 256 times the code: that of the bundle or of its opening, else 17.
pub fn daybook_waiting(bytes: &[u8], list: &mut [u8]) -> u32
    ensures { ToldList (refusal_behind bytes.now list.old) (accounts_behind bytes.now) list.old result list.new }
{
    number_of(list_after(bytes, list))
}

// A reply about a bundle as one number: how many entries it has, or its length; or 65,536 times the code, and the
// entry.
fn number_of_bundle(reply: Result<u32, BundleError>) -> u32
    ensures { result ≡ number_of_bundle reply }
{
    match reply {
        Ok(number) => number,
        Err(e) => 65_536 * (u8::from(e.refusal) as u32) + (e.entry as u32),
    }
}

// The check of a bundle. Returns how many entries it has, 1 to 1,000; or 65,536 times the
// code, 13 to 16, and the entry.
pub fn bundle_check(bytes: &[u8]) -> u32
    ensures { result ≡ number_of_bundle (check_bundle bytes.now) }
{
    number_of_bundle(check(bytes).map(u32::from))
}

// The sum of a body, as a bundle's contents entry has it.
pub fn bundle_sum(body: &[u8]) -> u32
    ensures { result ≡ body_sum body.now }
{
    body_sum(body)
}

// How many bytes an opening page has.
pub const PAGE_SIZE: usize = BODY_LENGTHS[Kind::Opening as usize];

// Writes the bundle of an opening page and of messages into the front of the buffer that is lent; what stands behind it
// stays. A message is a record of 12 bytes: kind, seat, and ten bytes of a body as a bundle has it (of a question's the
// account is read and no more). Returns the bundle's length, which is below 65,536. Where it is refused, 65,536 times
// the code, and the entry, and the buffer is as it was: 18 for more than 999 whole records; 14 with the entry of the
// lowest record (the first has entry 1) that has a kind of no message, or a seat where its kind has none; 15 where the
// last record is not whole; 19 where the buffer is shorter than the bundle.
pub fn bundle_write(page: &[u8; PAGE_SIZE], records: &[u8], out: &mut [u8]) -> u32
    ensures { ToldWriting page.now records.now out.old result out.new }
{
    number_of_bundle(write_records(opening_of(page), records, out))
}

// How many bytes a slip has.
pub const SLIP_SIZE: usize = BODY_LENGTHS[Kind::Ack as usize];

// How many words a join's reply has: its number and values, where the body starts that is shown, and the four values of
// its slip.
pub const EVIDENCE_WORDS: usize = 11;

// The words of a join's reply, given where the body starts that is shown, and its slip.
fn evidence_words(
    found: Result<Option<FoundPair>, JoinError>,
    start: u16,
    slip: Transfer,
) -> [u32; EVIDENCE_WORDS]
    ensures { result ≡ answer_words found start slip }
{
    match found {
        Ok(Some(pair)) => [
            0,
            1,
            pair.seat.0 as u32,
            pair.first as u32,
            pair.second as u32,
            u8::from(pair.shown) as u32,
            start as u32,
            slip.account.0 as u32,
            slip.number,
            slip.value,
            slip.recipient.0 as u32,
        ],
        Ok(None) => [0; EVIDENCE_WORDS],
        Err(e) => {
            let code = u8::from(e.refusal) as u32;
            let bundle = u8::from(e.bundle) as u32;
            [code, bundle, e.entry as u32, 0, 0, 0, 0, 0, 0, 0, 0]
        }
    }
}

// The evidence join of two bundles: which seat acked two slips. The ruled slip is a body of ten bytes. Writes the
// reply. Of a pair: 0, 1, the seat, the entry of its ack in the first bundle and in the second, which bundle holds the
// body that is shown (1 or 2), where that body starts there, and its account, number, value and recipient. Without a
// pair: zeros. Where it is refused: the code (13 to 16, or 21), which bundle (1 or 2; 0 with 21), the entry, and zeros.
pub fn bundle_evidence<'a>(
    first: &'a [u8],
    second: &'a [u8],
    ruled: &[u8; SLIP_SIZE],
    reply: &mut [u32; EVIDENCE_WORDS],
)
    ensures { reply.new ≡ evidence_words first.now second.now (evidence first.now second.now (transfer_of ruled.now)) }
{
    let found = join(first, second, transfer_of(ruled));
    let start = shown_start(first, second, found);
    *reply = evidence_words(found, start, transfer_of(shown(first, second, found)));
}
