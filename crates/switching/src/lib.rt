// The switch to the rules since request 5 of document 02, where the ledger lies: a book held from before is taken
// over into one of today's layout.

#![tactic(auto)]

ghost use Rattle.std.specs.Prelude.{◌≡◌, ◌<◌};
ghost use Rattle.model.specs.Records.{entry_of, with_entry};
ghost use Rattle.model.specs.Switches.{since_request3, retains_waiting, switched};
ghost use Rattle.layout.specs.Layout.{ledger_in, held_in};
ghost use Rattle.switching.specs.Promises.{EntriesTaken};

use layout::{Book, HeldBook};
use model::Account;
use store::{pending_of, put_none_retained, put_retained, take_entry, take_group};

// An account of the held book: what waits is retained, with the mark of its number; where nothing waits, nothing is.
#[tactic(auto, using(crate::proofs::Accounts::nothing_waits))]
fn take_account(held: &HeldBook, words: &mut Book, a: Account)
    ensures { ledger_in words.new
        ≡ with_entry (ledger_in words.old) a (retains_waiting (entry_of (held_in held.now) a)) }
{
    take_entry(held, words, a);
    match pending_of(words, a) {
        Some(t) => put_retained(words, t),
        None => put_none_retained(words, a),
    }
}

// The 32 accounts.
#[tactic(auto, using(crate::proofs::Accounts::of_accounts))]
fn take_accounts(held: &HeldBook, words: &mut Book)
    ensures { EntriesTaken held.now words.old words.new }
{
    for i in 0..32 {
        take_account(held, words, Account(i));
    }
}

// The words are what the held book becomes, whatever they were.
pub fn take_over(held: &HeldBook, words: &mut Book)
    ensures { ledger_in words.new ≡ switched since_request3 (held_in held.now) }
{
    take_accounts(held, words);
    take_group(held, words);
}
