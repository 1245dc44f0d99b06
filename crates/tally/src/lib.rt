// The acks that are recorded for an account's next number, and what follows from them. Their places tell no number: a
// transfer is compared as one of the next.

#![tactic(auto)]

ghost use Rattle.std.specs.Prelude.{◌≡◌, ◌<◌};
ghost use Rattle.model.specs.Acks.{acks_for, most_acked};
ghost use Rattle.model.specs.Refusals.{ack_from};
ghost use Rattle.layout.specs.Layout.{entry_in};
ghost use Rattle.store.specs.Stores.{with_number};
ghost use Rattle.tally.specs.Results.{counted, at_next, Gathers, Decides, leader_of};

use basics::slots::is_held;
use layout::Book;
use model::{Account, Seat, Transfer};
use store::{ack_from, faults_of, is_proposed, seats_of};

// The running tally of one number, for one transfer. The seats stand in an array, with their number beside it: no heap.
#[derive(Clone, Copy)]
pub struct Tally {
    // the seats whose acks are equal to the transfer, lowest first; behind them are zeros
    pub gathered: [Seat; 16],
    // how many they are
    pub equal: u8,
    // how many seats' acks are recorded
    pub recorded: u8,
}

impl Tally {
    // The tally, brought up to date with the ack in one seat's place, if any.
    fn with_place(mut self, t: Transfer, p: Seat, s: Option<Transfer>) -> Tally
        requires { (self.equal < 16) × (self.recorded < 16) }
        ensures { result ≡ counted self t p s }
    {
        if is_held(t, s) {
            self.gathered[self.equal as usize] = p;
            self.equal += 1;
        }
        self.recorded += u8::from(s.is_some());
        self
    }

    // The same where the tally lies: one ack brings it up to date.
    fn count(&mut self, t: Transfer, p: Seat, s: Option<Transfer>)
        requires { (self.old.equal < 16) × (self.old.recorded < 16) }
        ensures { self.new ≡ counted self.old t p s }
    {
        *self = self.with_place(t, p, s);
    }
}

// Goes through the seats from 0 and gathers those whose ack for the account's next number equals the transfer: the
// running tally, which each recorded ack brings up to date.
pub fn gather(words: &Book, t: Transfer) -> Tally
    ensures { Gathers words.now t result }
{
    let mut tally = Tally {
        gathered: [Seat(0); 16],
        equal: 0,
        recorded: 0,
    };
    for p in 0..16 {
        let s = ack_from(words, t.account, Seat(p), t.number);
        // a place with no ack leaves the tally as it is
        if s.is_some() {
            tally.count(t, Seat(p), s);
        }
    }
    tally
}

// At least n - f acks are recorded, two conflict, and nothing was put forward for this number. All are of one number,
// so that two which are not equal conflict: two conflict where fewer are equal to one of them than are recorded.
pub fn must_propose(words: &Book, a: Account, y: Tally) -> bool
    ensures { Decides words.now a y result }
{
    seats_of(words).saturating_sub(faults_of(words)) <= y.recorded
        && y.equal < y.recorded
        && !is_proposed(words, a)
}

// How many of the acks that are recorded for an account's next number are equal to the transfer,
// where only the number is wanted.
fn acks_for(words: &Book, t: Transfer) -> u8
    ensures { result ≡ acks_for (at_next (entry_in words.now t.account) t) (entry_in words.now t.account).acks }
{
    (0..16)
        .filter(|s| is_held(t, ack_from(words, t.account, Seat(*s), t.number)))
        .count() as u8
}

// A transfer and how many acks are equal to it.
#[derive(Clone, Copy)]
pub struct Leader {
    pub transfer: Transfer,
    pub acks: u8,
}

// Of the leader and the transfer that a seat acked for t's account, if any, told with t's number, the one with
// more acks; on a tie the leader.
fn better(words: &Book, best: Leader, t: Transfer, s: Seat) -> Leader
    ensures { result
        ≡ leader_of (entry_in words.now t.account).acks t.number best (ack_from (entry_in words.now t.account) s) }
{
    match ack_from(words, t.account, s, t.number) {
        None => best,
        Some(transfer) => {
            let acks = acks_for(words, transfer);
            if best.acks < acks {
                Leader { transfer, acks }
            } else {
                best
            }
        }
    }
}

// The most acked transfer of t's account, told with t's number: going through the seats from 0, the first of those with
// the most acks. Where nothing is recorded its account, value and recipient are 0.
pub fn most_acked(words: &Book, t: Transfer) -> Transfer
    ensures { result ≡ with_number (most_acked (entry_in words.now t.account).acks) t.number }
{
    let nobody = Leader {
        transfer: Transfer {
            account: Account(0),
            number: t.number,
            value: 0,
            recipient: Account(0),
        },
        acks: 0,
    };
    (0..16)
        .map(Seat)
        .fold(nobody, |best, s| better(words, best, t, s))
        .transfer
}
