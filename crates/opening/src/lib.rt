// The opening of a ledger, where it lies: codes 1, 2 and 3.

#![tactic(auto)]

ghost use Rattle.std.specs.Prelude.{◌≡◌, not, ◌<◌, eqb, drop, MatchResult, Some, None};
ghost use Rattle.model.specs.Basics.{sum_of, any};
ghost use Rattle.model.specs.Records.{fresh_entry, with_entry};
ghost use Rattle.model.specs.Refusals.{first_refusal};
ghost use Rattle.model.specs.Openings.{bad_group, bad_accounts, open_rules};
ghost use Rattle.layout.specs.Layout.{ledger_in};
ghost use Rattle.opening.specs.Promises.{FreshEntries, FreshLedger, Opens};

use layout::Book;
use model::{Account, Opening, Refusal};
use store::{put_balance, put_booked, put_group, put_none_retained};

fn is_bad_group(page: &Opening) -> bool
    ensures { result ≡ bad_group page.now }
{
    page.seats < 1 || 16 < page.seats || u32::from(page.seats) <= 5 * u32::from(page.faults)
}

// A balance from `from` on is not 0.
fn some_behind(balances: &[u32; 32], from: u8) -> bool
    ensures { result ≡ any (λ b. not (eqb b 0)) (drop from balances.now) }
{
    balances.iter().skip(from as usize).any(|b| *b != 0)
}

fn is_bad_accounts(page: &Opening) -> bool
    ensures { result ≡ bad_accounts page.now }
{
    page.accounts < 1 || 32 < page.accounts || some_behind(&page.balances, page.accounts)
}

// The opening sum, which may be larger than a balance can be.
fn sum(balances: &[u32; 32]) -> u64
    ensures { result ≡ sum_of (λ b. b) balances.now }
{
    balances.iter().map(|b| u64::from(*b)).sum()
}

// The opening sum of a page that is not refused.
fn open_check(page: &Opening) -> Result<u32, Refusal>
    ensures { MatchResult result
        (λ total. (first_refusal (open_rules page.now) ≡ None) × (total ≡ sum_of (λ b. b) page.now.balances))
        (λ r. first_refusal (open_rules page.now) ≡ Some r) }
{
    if is_bad_group(page) {
        return Err(Refusal::BadGroup);
    }
    if is_bad_accounts(page) {
        return Err(Refusal::BadAccounts);
    }
    u32::try_from(sum(&page.balances)).map_err(|_| Refusal::SumTooLarge)
}

// An account at opening.
#[tactic(auto, using(crate::proofs::Fresh::fresh_put))]
fn put_fresh(words: &mut Book, a: Account, balance: u32)
    ensures { ledger_in words.new ≡ with_entry (ledger_in words.old) a (fresh_entry balance) }
{
    put_booked(words, a, 0);
    put_none_retained(words, a);
    put_balance(words, a, balance);
}

// The 32 accounts at opening.
fn put_entries(words: &mut Book, balances: &[u32; 32])
    ensures { FreshEntries words.old balances.now words.new }
{
    for (i, balance) in balances.iter().enumerate() {
        put_fresh(words, Account(i as u8), *balance);
    }
}

// A ledger just opened from a page, given its opening sum.
fn put_ledger(words: &mut Book, page: &Opening, total: u32)
    ensures { FreshLedger page.now total words.new }
{
    put_entries(words, &page.balances);
    put_group(words, page.seats, page.faults, page.accounts, total);
}

// The opening: the words are the page's ledger, or, where it is refused, as they were.
pub fn open_page(words: &mut Book, page: Opening) -> Result<(), Refusal>
    ensures { Opens words.old page result words.new }
{
    let total = open_check(&page)?;
    put_ledger(words, &page, total);
    Ok(())
}
