// Plays the openings and messages of document 01's known pages, and cases of document 02's requests 2, 3 and 5, on the
// compiled ledger and writes each reply as a line: the letter, then the values in two digits. What it must write is the
// file `stdout` beside src/, taken from the documents.

#![tactic(auto)]

use layout::{BOOK_WORDS, Book};
use model::{Account, Message, Opening, Reply, Seat, Transfer};

// A value behind a space, in two digits. Here and below, what cannot be written is not told: the lines are compared by
// whoever runs this. Each part of a line is written by itself, so that an output that fails holds as much as it can.
fn value(rt: &impl Print, n: u32) {
    let _ = print!(rt; " {n:02}");
}

// A reply as a line: its letter, and what it carries.
fn show(rt: &impl Print, reply: Reply) {
    let _ = print!(rt; "{}", reply.letter() as char);
    match reply {
        Reply::Accept(n) | Reply::Balance(n) => value(rt, n),
        Reply::Propose(t) => {
            value(rt, t.account.0.into());
            value(rt, t.number);
            value(rt, t.value);
            value(rt, t.recipient.0.into());
        }
        Reply::Refuse(refusal) => value(rt, u8::from(refusal).into()),
        Reply::Circulate | Reply::Acknowledge | Reply::Note => {}
    }
    let _ = println!(rt);
}

fn transfer(account: u8, number: u32, value: u32, recipient: u8) -> Transfer {
    Transfer {
        account: Account(account),
        number,
        value,
        recipient: Account(recipient),
    }
}

// The opening of two accounts: its code, 0 where it opens.
fn opening(rt: &impl Print, words: &mut Book, seats: u8, faults: u8, first: u32, second: u32) {
    let mut balances = [0; 32];
    balances[0] = first;
    balances[1] = second;
    let page = Opening {
        seats,
        faults,
        accounts: 2,
        balances,
    };
    let code = ledger::open(words, page).map_or_else(u8::from, |()| 0);
    let _ = print!(rt; "O");
    value(rt, code.into());
    let _ = println!(rt);
}

// One message, its reply written.
fn play(rt: &impl Print, words: &mut Book, m: Message) {
    show(rt, ledger::call(words, m));
}

fn ack(rt: &impl Print, words: &mut Book, seat: u8, t: Transfer) {
    play(rt, words, Message::Ack(Seat(seat), t));
}

// Acks, each of a seat, one after another.
fn acks(rt: &impl Print, words: &mut Book, given: &[(u8, Transfer)]) {
    for (seat, t) in given {
        ack(rt, words, *seat, *t);
    }
}

fn question(rt: &impl Print, words: &mut Book, account: u8) {
    play(rt, words, Message::Inquiry(Account(account)));
}

// The waiting list: how many, and the first byte of the buffer.
fn waiting(rt: &impl Print, words: &Book) {
    let mut buffer = [99; 32];
    let told = ledger::list_waiting(words, &mut buffer).unwrap_or_else(|r| u8::from(r) as u32);
    let _ = print!(rt; "W");
    value(rt, told);
    value(rt, buffer[0].into());
    let _ = println!(rt);
}

// "n 5, f 1 and n 17, f 0 are refused with 1."
fn openings(rt: &impl Print) {
    let mut book = [0; BOOK_WORDS];
    opening(rt, &mut book, 5, 1, 10, 5);
    opening(rt, &mut book, 17, 0, 10, 5);
}

// "acks for t from seats 0, 1, 2, for u from 3, 4: the fifth gives P t; seat 5 for t gives N."
fn split_three_two(rt: &impl Print) {
    let t = transfer(0, 1, 4, 1);
    let u = transfer(0, 1, 5, 1);
    let mut book = [0; BOOK_WORDS];
    opening(rt, &mut book, 6, 1, 10, 3);
    acks(
        rt,
        &mut book,
        &[(0, t), (1, t), (2, t), (3, u), (4, u), (5, t), (5, u)],
    );
}

// "Same, but t from 0 to 3 and u from 4: P t, then seat 5 for t gives K."
fn split_four_one(rt: &impl Print) {
    let t = transfer(0, 1, 4, 1);
    let mut book = [0; BOOK_WORDS];
    opening(rt, &mut book, 6, 1, 10, 3);
    acks(
        rt,
        &mut book,
        &[
            (0, t),
            (1, t),
            (2, t),
            (3, t),
            (4, transfer(0, 1, 5, 1)),
            (5, t),
        ],
    );
}

// "n 8, f 1, seven acks split 3, 3, 1", twice: by request 2 of document 02 P carries the slip of seats 0 to 2,
// be their acks the first or not.
fn split_three_three(rt: &impl Print) {
    let t = transfer(0, 1, 4, 1);
    let u = transfer(0, 1, 5, 1);
    let mut book = [0; BOOK_WORDS];
    opening(rt, &mut book, 8, 1, 10, 3);
    let mut other = book;
    acks(
        rt,
        &mut book,
        &[
            (0, t),
            (1, t),
            (2, t),
            (3, u),
            (4, u),
            (5, u),
            (6, transfer(0, 1, 4, 0)),
        ],
    );
    acks(
        rt,
        &mut other,
        &[
            (3, t),
            (4, t),
            (5, t),
            (0, u),
            (1, u),
            (2, u),
            (6, transfer(0, 1, 4, 0)),
        ],
    );
}

// A home pays itself: its request and slip meet 20, after 5 and before 6, 7 and 11; acks of such a
// slip are taken, and it is booked.
fn self_payment(rt: &impl Print) {
    let t = transfer(0, 1, 4, 0);
    let mut book = [0; BOOK_WORDS];
    opening(rt, &mut book, 6, 1, 10, 5);
    play(rt, &mut book, Message::Request(t));
    play(rt, &mut book, Message::Circulated(t));
    play(rt, &mut book, Message::Circulated(transfer(0, 9, 4, 0)));
    play(rt, &mut book, Message::Circulated(transfer(0, 9, 0, 0)));
    play(rt, &mut book, Message::Circulated(transfer(0, 1, 11, 0)));
    acks(rt, &mut book, &[(0, t), (1, t), (2, t), (3, t), (4, t)]);
    play(rt, &mut book, Message::Circulated(t));
    play(rt, &mut book, Message::Decision(transfer(0, 2, 4, 0)));
    question(rt, &mut book, 0);
}

// A seat that has accepted t puts it forward when an ack of u comes, once: while it waits, in place of 8, and
// once it is booked, in place of 6. An equal ack, and a ruling, bring nothing; nor does an ack of a number that
// was put forward while it waited.
fn late_proposal(rt: &impl Print) {
    let t = transfer(0, 1, 4, 1);
    let u = transfer(0, 1, 5, 1);
    let mut book = [0; BOOK_WORDS];
    opening(rt, &mut book, 1, 0, 10, 3);
    acks(rt, &mut book, &[(0, t), (0, t)]);
    play(rt, &mut book, Message::Decision(u));
    acks(rt, &mut book, &[(0, u), (0, u)]);
    opening(rt, &mut book, 6, 1, 0, 5);
    play(rt, &mut book, Message::Decision(t));
    acks(rt, &mut book, &[(0, t), (0, u), (0, u)]);
    play(rt, &mut book, Message::Decision(transfer(1, 1, 5, 0)));
    ack(rt, &mut book, 1, u);
}

// "Balances 10 and 5, just opened: a first slip from account 0 of 10 gives A; one of 11 in its
// place gives 11; one of 16 gives 5."
fn funds(rt: &impl Print) {
    let mut book = [0; BOOK_WORDS];
    opening(rt, &mut book, 6, 1, 10, 5);
    let mut other = book;
    play(rt, &mut other, Message::Circulated(transfer(0, 1, 10, 1)));
    play(rt, &mut book, Message::Circulated(transfer(0, 1, 11, 1)));
    play(rt, &mut book, Message::Circulated(transfer(0, 1, 16, 1)));
    play(rt, &mut book, Message::Request(transfer(0, 1, 10, 1)));
}

// "Balances 0 and 5: ruling (0, 1, 5, 1) gives K 0; then ruling (1, 1, 5, 0) gives K 2, balances 0 and 5."
fn rulings(rt: &impl Print) {
    let mut book = [0; BOOK_WORDS];
    opening(rt, &mut book, 6, 1, 0, 5);
    play(rt, &mut book, Message::Decision(transfer(0, 1, 5, 1)));
    waiting(rt, &book);
    play(rt, &mut book, Message::Decision(transfer(1, 1, 5, 0)));
    waiting(rt, &book);
    question(rt, &mut book, 0);
    question(rt, &mut book, 1);
}

// The case of document 01's whole output: a slip, its acks from seats 0 to 4, a question.
fn whole_case(rt: &impl Print) {
    let t = transfer(0, 1, 4, 1);
    let mut book = [0; BOOK_WORDS];
    opening(rt, &mut book, 6, 1, 10, 3);
    play(rt, &mut book, Message::Circulated(t));
    acks(rt, &mut book, &[(0, t), (1, t), (2, t), (3, t), (4, t)]);
    question(rt, &mut book, 1);
    question(rt, &mut book, 0);
}

fn main(rt: HostRuntime) {
    openings(&rt);
    split_three_two(&rt);
    split_four_one(&rt);
    split_three_three(&rt);
    self_payment(&rt);
    late_proposal(&rt);
    funds(&rt);
    rulings(&rt);
    whole_case(&rt);
}
