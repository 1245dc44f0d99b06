// The tests of each message, in the documents' order: the refusal of the first that holds.

#![tactic(auto)]

ghost use Rattle.std.specs.Prelude.{◌≡◌};
ghost use Rattle.model.specs.Refusals.{first_refusal, check_of, out_of_range, waits_already, number_rules, transfer_rules, offer_rules, request_rules, circulated_rules, ack_rules};
ghost use Rattle.layout.specs.Layout.{ledger_in, entry_in};
ghost use Rattle.checks.specs.Promises.{late_slip};

use basics::slots::{is_against, is_held};
use basics::transfers::{in_conflict, same_number};
use layout::Book;
use model::{Refusal, Seat, Transfer};
use store::{
    accounts_of, ack_from, balance_of, current_of, is_acked, is_retained_proposed, pending_of,
    retained_of, seats_of, total_of,
};

fn is_out_of_range(words: &Book, t: Transfer) -> bool
    ensures { result ≡ out_of_range (ledger_in words.now) t }
{
    let accounts = accounts_of(words);
    accounts <= t.account.0
        || accounts <= t.recipient.0
        || t.number == 0
        || t.value == 0
        || total_of(words) < t.value
}

fn waits(s: Option<Transfer>, t: Transfer) -> bool
    ensures { result ≡ waits_already s t }
{
    s.is_some_and(|p| same_number(p, t))
}

// What the number of every transfer meets, whichever message brings it: 6 to 8.
fn number_check(words: &Book, t: Transfer) -> Result<(), Refusal>
    ensures { result ≡ check_of (first_refusal (number_rules (entry_in words.now t.account) t)) }
{
    let current = current_of(words, t.account);
    if t.number <= current {
        return Err(Refusal::PastNumber);
    }
    if 1 < t.number - current {
        return Err(Refusal::FutureNumber);
    }
    if waits(pending_of(words, t.account), t) {
        return Err(Refusal::AlreadyAccepted);
    }
    Ok(())
}

// What the transfer of an ack or a decision meets: 5 to 8.
pub fn transfer_check(words: &Book, t: Transfer) -> Result<(), Refusal>
    ensures { result
        ≡ check_of (first_refusal (transfer_rules (ledger_in words.now) (entry_in words.now t.account) t)) }
{
    if is_out_of_range(words, t) {
        return Err(Refusal::OutOfRange); // 5, of an ack or a decision
    }
    number_check(words, t)
}

// What a request or a circulated transfer meets first: 5, 20, then 6 to 8.
fn offer_check(words: &Book, t: Transfer) -> Result<(), Refusal>
    ensures { result ≡ check_of (first_refusal (offer_rules (ledger_in words.now) (entry_in words.now t.account) t)) }
{
    if is_out_of_range(words, t) {
        return Err(Refusal::OutOfRange);
    }
    if t.recipient == t.account {
        return Err(Refusal::SelfPayment);
    }
    number_check(words, t)
}

pub fn request_check(words: &Book, t: Transfer) -> Result<(), Refusal>
    ensures { result
        ≡ check_of (first_refusal (request_rules (ledger_in words.now) (entry_in words.now t.account) t)) }
{
    offer_check(words, t)?;
    if balance_of(words, t.account) < t.value { // a request above the balance
        return Err(Refusal::InsufficientFunds); // 11, of a request
    }
    Ok(())
}

pub fn circulated_check(words: &Book, t: Transfer) -> Result<(), Refusal>
    ensures { result
        ≡ check_of (first_refusal (circulated_rules (ledger_in words.now) (entry_in words.now t.account) t)) }
{
    offer_check(words, t)?;
    if is_acked(words, t.account) {
        return Err(Refusal::AlreadyAcked);
    }
    if balance_of(words, t.account) < t.value { // a circulated transfer above the balance
        return Err(Refusal::InsufficientFunds);
    }
    Ok(())
}

#[tactic(auto, using(crate::proofs::Acks::of_ack))]
pub fn ack_check(words: &Book, s: Seat, t: Transfer) -> Result<(), Refusal>
    ensures { result ≡ check_of (first_refusal (ack_rules (ledger_in words.now) (entry_in words.now t.account) s t)) }
{
    if seats_of(words) <= s.0 {
        return Err(Refusal::UnknownSeat);
    }
    transfer_check(words, t)?;
    let a = ack_from(words, t.account, s, t.number);
    if is_held(t, a) {
        return Err(Refusal::AckRepeated);
    }
    if is_against(t, a) {
        return Err(Refusal::AckConflicting);
    }
    Ok(())
}

// The transfer that a late proposal carries, if an ack brings one: the retained one, where the ack passes 4 and 5, its
// transfer is another of that account and number, and nothing was proposed for it.
pub fn late_proposal(words: &Book, s: Seat, t: Transfer) -> Option<Transfer>
    ensures { result ≡ late_slip (ledger_in words.now) (entry_in words.now t.account) s t }
{
    // what is retained comes first, which tells most acks apart
    let retained = retained_of(words, t.account)?;
    if !in_conflict(retained, t)
        || is_retained_proposed(words, t.account)
        || seats_of(words) <= s.0
        || is_out_of_range(words, t)
    {
        return None;
    }
    Some(retained)
}
