// The book (document 01) as plain words, in memory that the caller lends: where each thing stands. What the words mean
// is said in specs/Layout.antt, for every content; only the crate `store` reads and writes one thing in them, and
// `saving` copies them as they stand.

#![tactic(auto)]

// Each of the 32 accounts has a block of words; the group's words stand behind the last block.
pub const BLOCKS: usize = 32;

pub const BLOCK: usize = 43;
// Within an account's block: balance and current number,
pub const BALANCE: usize = 0;

pub const CURRENT: usize = 1;
// the marks: this seat has acked the next number; a transfer was proposed for it,
pub const ACKED: usize = 2;

pub const PROPOSED: usize = 3;
// the accepted transfer that waits; where its value is 0, none does,
pub const PENDING_VALUE: usize = 4;

pub const PENDING_NUMBER: usize = 5;

pub const PENDING_RECIPIENT: usize = 6;
// for each of 16 seats its ack for the next number: all values, then all recipients. A value of 0 is no ack,
pub const PLACES: usize = 16;

pub const ACK_VALUES: usize = 7;

pub const ACK_RECIPIENTS: usize = ACK_VALUES + PLACES;
// and the retained transfer, the latest that was accepted; where its value is 0, none is; and the mark: a
// transfer was proposed for its number.
pub const RETAINED_VALUE: usize = 39;

pub const RETAINED_NUMBER: usize = 40;

pub const RETAINED_RECIPIENT: usize = 41;

pub const RETAINED_PROPOSED: usize = 42;
// The group's words: n, f, k and the opening sum.
pub const SEATS: usize = BLOCKS * BLOCK;

pub const FAULTS: usize = SEATS + 1;

pub const ACCOUNTS: usize = SEATS + 2;

pub const TOTAL: usize = SEATS + 3;
// How many words a book has: 1,380.
pub const BOOK_WORDS: usize = SEATS + 4;

// The book, in memory that a caller lends.
pub type Book = [u32; BOOK_WORDS];
// A book held from before request 5 of document 02: its blocks end before the retained
// transfer, and it has 1,252 words.
pub const HELD_BLOCK: usize = RETAINED_VALUE;

pub const HELD_SEATS: usize = BLOCKS * HELD_BLOCK;

pub const HELD_FAULTS: usize = HELD_SEATS + 1;

pub const HELD_ACCOUNTS: usize = HELD_SEATS + 2;

pub const HELD_TOTAL: usize = HELD_SEATS + 3;

pub const HELD_WORDS: usize = HELD_SEATS + 4;

pub type HeldBook = [u32; HELD_WORDS];
