// Settling, where the ledger lies: while some waiting transfer is affordable, the one with
// the lowest account is applied.

#![tactic(auto)]

ghost use Rattle.std.specs.Prelude.{◌≡◌, ◌<◌};
ghost use Rattle.model.specs.Records.{with_entries, with_entry};
ghost use Rattle.model.specs.Settling.{affordable, lowest_affordable, credited, debited, apply};
ghost use Rattle.layout.specs.Layout.{ledger_in, entry_in};
ghost use Rattle.settling.specs.Results.{Settles};

use layout::Book;
use model::{Account, Transfer};
use store::{balance_of, pending_of, put_balance, put_booked};

// An accepted transfer waits at this account, and its value is at most the balance.
fn is_affordable(words: &Book, a: Account) -> bool
    ensures { result ≡ affordable (entry_in words.now a) }
{
    pending_of(words, a).is_some_and(|t| t.value <= balance_of(words, a))
}

// The lowest account at which an affordable transfer waits.
fn lowest_affordable(words: &Book) -> Option<Account>
    ensures { result ≡ lowest_affordable (ledger_in words.now).entries }
{
    (0..32)
        .find(|a| is_affordable(words, Account(*a)))
        .map(Account)
}

// "Booking takes the value from the payer, .. sets current to the slip's number, and clears
// the account's acks and marks."
fn debit(words: &mut Book, a: Account, t: Transfer)
    ensures { ledger_in words.new ≡ with_entry (ledger_in words.old) a (debited (entry_in words.old a) t) }
{
    put_balance(words, a, balance_of(words, a).saturating_sub(t.value));
    put_booked(words, a, t.number);
}

// "Booking .. gives it to the recipient": modulo 2^32, as the definition.
fn credit(words: &mut Book, a: Account, value: u32)
    ensures { ledger_in words.new ≡ with_entry (ledger_in words.old) a (credited (entry_in words.old a) value) }
{
    put_balance(words, a, balance_of(words, a).wrapping_add(value));
}

// Applies (books) the transfer that waits at an account: payer first, then recipient, who may be the payer.
fn apply_at(words: &mut Book, a: Account)
    ensures { ledger_in words.new ≡ with_entries (ledger_in words.old) (apply (ledger_in words.old).entries a) }
{
    if let Some(t) = pending_of(words, a) {
        debit(words, a, t);
        credit(words, t.recipient, t.value);
    }
}

// "While some waiting slip's value is at most its payer's balance, the one with the lowest account is booked. ..
// Settling calls itself again on the waiting slips that are left, one fewer each time": that number falls at each call.
// How many were booked is replied.
pub fn settle_all(words: &mut Book) -> u32
    ensures { Settles words.old words.new result }
{
    match lowest_affordable(words) {
        None => 0,
        Some(a) => {
            apply_at(words, a);
            settle_all(words) + 1
        }
    }
}
