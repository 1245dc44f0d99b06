// The five kinds of message, each where the ledger lies. What a function promises is in specs/Promises.antt.
ghost use Rattle.model.specs.declared.Message.TheVariants.{Request, Circulated, Ack, Decision, Inquiry};
ghost use Rattle.calls.specs.Promises.{Answered, NotLate, NotEnough, Accepted};

use basics::quorums::is_enough;
use checks::{ack_check, circulated_check, late_proposal, request_check, transfer_check};
use layout::Book;
use model::{Account, Refusal, Reply, Seat, Transfer};
use settling::settle_all;
use store::{
    accounts_of, balance_of, faults_of, put_ack, put_acked, put_pending, put_proposed,
    put_retained, put_retained_proposed, seats_of,
};
use tally::{Tally, gather, most_acked, must_propose};

// A home's new transfer: circulate it.
pub fn request(words: &Book, t: Transfer) -> Reply
    ensures { Answered words.now (Request t) result words.now }
{
    match request_check(words, t) {
        Ok(()) => Reply::Circulate,
        Err(r) => Reply::Refuse(r),
    }
}

// A circulated transfer (document 01: slip): this seat acks it.
pub fn acknowledge(words: &mut Book, t: Transfer) -> Reply
    ensures { Answered words.old (Circulated t) result words.new }
{
    if let Err(r) = circulated_check(words, t) {
        return Reply::Refuse(r);
    }
    put_acked(words, t.account);
    Reply::Acknowledge
}

// A seat's ack of a transfer. Where it conflicts with the one that its account retains, the latest that was accepted,
// and nothing was proposed for that number yet, the seat joins in and proposes the retained one, and the ack is not
// recorded (document 02, request 5). Else it is tried and recorded.
pub fn receive_ack(words: &mut Book, s: Seat, t: Transfer) -> Reply
    ensures { Answered words.old (Ack s t) result words.new }
{
    match late_proposal(words, s, t) {
        Some(retained) => {
            put_retained_proposed(words, t.account);
            Reply::Propose(retained)
        }
        None => record_ack(words, s, t),
    }
}

// A seat's ack of a transfer, beside lines 35 to 37 of Algorithm 1 in document 000, with
// document 01's threshold in line 37.
fn record_ack(words: &mut Book, s: Seat, t: Transfer) -> Reply
    ensures { NotLate words.old s t result words.new }
{
    // line 35: an ack of t from seat s is delivered; that its number is valid is among the checks, 4 to 10
    if let Err(r) = ack_check(words, s, t) {
        return Reply::Refuse(r);
    }
    // line 36, record: acks[t.sender][s] := t
    put_ack(words, s, t);
    // line 37, gather: {p ∈ Π | acks[t.sender][p] = t}, from seat 0 on
    let tally = gather(words, t);
    // line 37, compare: is their number more than (n + 3f) / 2?
    if is_enough(seats_of(words), faults_of(words), tally.equal) {
        accept(words, t)
    } else {
        propose_or_note(words, t, tally)
    }
}

// The council's decision (document 01: ruling): its transfer is accepted.
pub fn decide(words: &mut Book, t: Transfer) -> Reply
    ensures { Answered words.old (Decision t) result words.new }
{
    match transfer_check(words, t) {
        Ok(()) => accept(words, t),
        Err(r) => Reply::Refuse(r),
    }
}

// A balance question.
pub fn inquire(words: &Book, a: Account) -> Reply
    ensures { Answered words.now (Inquiry a) result words.now }
{
    if accounts_of(words) <= a.0 {
        return Reply::Refuse(Refusal::OutOfRange);
    }
    Reply::Balance(balance_of(words, a))
}

// What follows from the ack that was just recorded, where those equal to it are not enough: P or N.
fn propose_or_note(words: &mut Book, t: Transfer, tally: Tally) -> Reply
    ensures { NotEnough words.old t tally result words.new }
{
    if must_propose(words, t.account, tally) {
        let most = most_acked(words, t);
        put_proposed(words, t.account);
        return Reply::Propose(most);
    }
    Reply::Note
}

// The accepted transfer is retained, it waits, and settling begins: K carries how many transfers it applied.
fn accept(words: &mut Book, t: Transfer) -> Reply
    ensures { Accepted words.old t result words.new }
{
    put_retained(words, t);
    put_pending(words, t);
    Reply::Accept(settle_all(words))
}
