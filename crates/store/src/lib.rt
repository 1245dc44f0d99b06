// The ledger's words, read and stored. No other crate computes where a thing stands in them. A public function asks
// for nothing, but that an ack which is stored is of a seat below 16. What it promises is said of the ledger that the
// words are; of a transfer that is stored, also of the words, since a value of 0 is an empty place. Each mark and each
// place has functions of its own, since their contracts name a field of the entry; what they share is `word`,
// `put_word` and `slot_of`.

#![tactic(auto, using(crate::proofs::Storing::reads_and_stores), unfolding(layout::specs::Layout::ledger_in, layout::specs::Layout::entry_by))]

ghost use Rattle.std.specs.Prelude.{◌≡◌, ◌≤◌, ◌<◌};
ghost use Rattle.model.specs.Records.{entry_of, with_entry, with_balance, with_acked, with_proposed, with_booked, with_retained_of, with_retained_proposed, with_none_retained, with_entries};
ghost use Rattle.model.specs.Refusals.{ack_from};
ghost use Rattle.layout.specs.Layout.{block_words, held_block_words, block, held_block, as_read, slot_by, up_to, ledger_in, entry_in, held_in};
ghost use Rattle.layout.specs.Blocks.{put, Stores};
ghost use Rattle.store.specs.Stores.{cleared, numbered, AckStored, PendingStored, RetainedStored, GroupStored, copied};

use layout::{
    ACCOUNTS, ACK_RECIPIENTS, ACK_VALUES, ACKED, BALANCE, BLOCK, BLOCKS, Book, CURRENT, FAULTS,
    HELD_ACCOUNTS, HELD_BLOCK, HELD_FAULTS, HELD_SEATS, HELD_TOTAL, HeldBook, PENDING_NUMBER,
    PENDING_RECIPIENT, PENDING_VALUE, PLACES, PROPOSED, RETAINED_NUMBER, RETAINED_PROPOSED,
    RETAINED_RECIPIENT, RETAINED_VALUE, SEATS, TOTAL,
};
use model::{Account, Seat, Transfer};

// A word of an account's block; behind the last account 0.
fn word(words: &Book, a: Account, at: usize) -> u32
    requires { at < block_words }
    ensures { result ≡ as_read a.0 (block words.now a.0) at }
{
    let account = a.0 as usize;
    if account < BLOCKS {
        words[account * BLOCK + at]
    } else {
        0
    }
}

// Behind the last account nothing is stored.
fn put_word(words: &mut Book, a: Account, at: usize, value: u32)
    requires { at < block_words }
    ensures { Stores words.old a.0 (put (block words.old a.0) at value) words.new }
{
    let account = a.0 as usize;
    if account < BLOCKS {
        words[account * BLOCK + at] = value;
    }
}

// A number that is at most the limit; any other is read as 0.
fn up_to(limit: u8, value: u32) -> u8
    ensures { result ≡ up_to limit value }
{
    match u8::try_from(value) {
        Ok(number) if number <= limit => number,
        _ => 0,
    }
}

// n
pub fn seats_of(words: &Book) -> u8
    ensures { result ≡ (ledger_in words.now).seats }
{
    up_to(16, words[SEATS])
}

// f
pub fn faults_of(words: &Book) -> u8
    ensures { result ≡ (ledger_in words.now).faults }
{
    up_to(16, words[FAULTS])
}

// k
pub fn accounts_of(words: &Book) -> u8
    ensures { result ≡ (ledger_in words.now).accounts }
{
    up_to(32, words[ACCOUNTS])
}

// The opening sum.
pub fn total_of(words: &Book) -> u32
    ensures { result ≡ (ledger_in words.now).total }
{
    words[TOTAL]
}

pub fn put_group(words: &mut Book, seats: u8, faults: u8, accounts: u8, total: u32)
    ensures { GroupStored words.old seats faults accounts total words.new }
{
    words[SEATS] = seats as u32;
    words[FAULTS] = faults as u32;
    words[ACCOUNTS] = accounts as u32;
    words[TOTAL] = total;
}

pub fn balance_of(words: &Book, a: Account) -> u32
    ensures { result ≡ (entry_in words.now a).balance }
{
    word(words, a, BALANCE)
}

pub fn current_of(words: &Book, a: Account) -> u32
    ensures { result ≡ (entry_in words.now a).current }
{
    word(words, a, CURRENT)
}

// This seat has acked the account's next number.
pub fn is_acked(words: &Book, a: Account) -> bool
    ensures { result ≡ (entry_in words.now a).acked }
{
    word(words, a, ACKED) != 0
}

// A transfer was proposed for the account's next number.
pub fn is_proposed(words: &Book, a: Account) -> bool
    ensures { result ≡ (entry_in words.now a).proposed }
{
    word(words, a, PROPOSED) != 0
}

// A place with the words of a transfer's value, number and recipient, in the block of the account that pays.
fn slot_of(a: Account, value: u32, number: u32, recipient: u32) -> Option<Transfer>
    ensures { result ≡ slot_by a.0 value number recipient }
{
    if value == 0 {
        return None;
    }
    Some(Transfer {
        account: a,
        number,
        value,
        recipient: Account((recipient % 256) as u8),
    })
}

// The accepted transfer that waits, if any.
pub fn pending_of(words: &Book, a: Account) -> Option<Transfer>
    ensures { result ≡ (entry_in words.now a).pending }
{
    slot_of(
        a,
        word(words, a, PENDING_VALUE),
        word(words, a, PENDING_NUMBER),
        word(words, a, PENDING_RECIPIENT),
    )
}

// The retained transfer, the latest that was accepted, if any.
pub fn retained_of(words: &Book, a: Account) -> Option<Transfer>
    ensures { result ≡ (entry_in words.now a).retained }
{
    slot_of(
        a,
        word(words, a, RETAINED_VALUE),
        word(words, a, RETAINED_NUMBER),
        word(words, a, RETAINED_RECIPIENT),
    )
}

// A transfer was proposed for the number of the retained one.
pub fn is_retained_proposed(words: &Book, a: Account) -> bool
    ensures { result ≡ (entry_in words.now a).retained_proposed }
{
    word(words, a, RETAINED_PROPOSED) != 0
}

// A seat's ack for the account's next number, if any is recorded, told with a number: the
// next, as the caller has found it. There is no place behind the 16th.
pub fn ack_from(words: &Book, a: Account, s: Seat, next: u32) -> Option<Transfer>
    ensures { result ≡ numbered next (ack_from (entry_in words.now a) s) }
{
    let seat = s.0 as usize;
    if PLACES <= seat {
        return None;
    }
    slot_of(
        a,
        word(words, a, ACK_VALUES + seat),
        next,
        word(words, a, ACK_RECIPIENTS + seat),
    )
}

pub fn put_balance(words: &mut Book, a: Account, balance: u32)
    ensures { ledger_in words.new ≡ with_entry (ledger_in words.old) a (with_balance (entry_in words.old a) balance) }
{
    put_word(words, a, BALANCE, balance);
}

pub fn put_acked(words: &mut Book, a: Account)
    ensures { ledger_in words.new ≡ with_entry (ledger_in words.old) a (with_acked (entry_in words.old a)) }
{
    put_word(words, a, ACKED, 1);
}

pub fn put_proposed(words: &mut Book, a: Account)
    ensures { ledger_in words.new ≡ with_entry (ledger_in words.old) a (with_proposed (entry_in words.old a)) }
{
    put_word(words, a, PROPOSED, 1);
}

// A seat's ack of a transfer is recorded: the one place where it is.
pub fn put_ack(words: &mut Book, s: Seat, t: Transfer)
    requires { s.0 < 16 }
    ensures { AckStored words.old s t words.new }
{
    let seat = s.0 as usize;
    put_word(words, t.account, ACK_VALUES + seat, t.value);
    put_word(
        words,
        t.account,
        ACK_RECIPIENTS + seat,
        t.recipient.0 as u32,
    );
}

// An accepted transfer waits.
pub fn put_pending(words: &mut Book, t: Transfer)
    ensures { PendingStored words.old t words.new }
{
    put_word(words, t.account, PENDING_VALUE, t.value);
    put_word(words, t.account, PENDING_NUMBER, t.number);
    put_word(words, t.account, PENDING_RECIPIENT, t.recipient.0 as u32);
}

// A transfer of the account's next number is retained, with the mark that this number has.
pub fn put_retained(words: &mut Book, t: Transfer)
    ensures { RetainedStored words.old t words.new }
{
    let proposed = word(words, t.account, PROPOSED);
    put_word(words, t.account, RETAINED_VALUE, t.value);
    put_word(words, t.account, RETAINED_NUMBER, t.number);
    put_word(words, t.account, RETAINED_RECIPIENT, t.recipient.0 as u32);
    put_word(words, t.account, RETAINED_PROPOSED, proposed);
}

pub fn put_retained_proposed(words: &mut Book, a: Account)
    ensures { ledger_in words.new ≡ with_entry (ledger_in words.old) a (with_retained_proposed (entry_in words.old a)) }
{
    put_word(words, a, RETAINED_PROPOSED, 1);
}

// The words of an account's block from one place up to another are 0.
fn clear(words: &mut Book, a: Account, from: usize, to: usize)
    requires { (from ≤ to) × (to ≤ block_words) }
    ensures { Stores words.old a.0 (cleared (block words.old a.0) from to) words.new }
{
    let account = a.0 as usize;
    if account < BLOCKS {
        let start = account * BLOCK;
        words[start + from..start + to].fill(0);
    }
}

// Nothing is retained.
pub fn put_none_retained(words: &mut Book, a: Account)
    ensures { ledger_in words.new ≡ with_entry (ledger_in words.old) a (with_none_retained (entry_in words.old a)) }
{
    clear(words, a, RETAINED_VALUE, BLOCK);
}

// A number was booked: it is the current one, and the account's acks, marks and what waited are
// cleared. What is retained stays.
pub fn put_booked(words: &mut Book, a: Account, number: u32)
    ensures { ledger_in words.new ≡ with_entry (ledger_in words.old) a (with_booked (entry_in words.old a) number) }
{
    clear(words, a, CURRENT, RETAINED_VALUE);
    put_word(words, a, CURRENT, number);
}

// The words of an account's block in a book held from before, which ends before what is
// retained, are those of its block now. Word by word: by copy_from_slice the static library needs memmove from outside.
fn copy_block(held: &HeldBook, words: &mut Book, a: Account)
    ensures { Stores words.old a.0 (copied (held_block held.now a.0) (block words.old a.0) held_block_words) words.new }
{
    let account = a.0 as usize;
    if account < BLOCKS {
        let start = account * HELD_BLOCK;
        for at in 0..HELD_BLOCK {
            put_word(words, a, at, held[start + at]);
        }
    }
}

// An account is as in a book held from before; what is retained stays.
pub fn take_entry(held: &HeldBook, words: &mut Book, a: Account)
    ensures { ledger_in words.new ≡ with_entry (ledger_in words.old) a (with_retained_of (entry_of (held_in held.now) a) (entry_in words.old a)) }
{
    copy_block(held, words, a);
}

// n, f, k and the opening sum are as in a book held from before.
pub fn take_group(held: &HeldBook, words: &mut Book)
    ensures { ledger_in words.new ≡ with_entries (held_in held.now) (ledger_in words.old).entries }
{
    put_group(
        words,
        up_to(16, held[HELD_SEATS]),
        up_to(16, held[HELD_FAULTS]),
        up_to(32, held[HELD_ACCOUNTS]),
        held[HELD_TOTAL],
    );
}
