// Transfers compared.
ghost use Rattle.std.specs.Prelude.{◌≡◌};
ghost use Rattle.model.specs.Transfers.{same_number, equal, conflict};

use model::Transfer;

// Both have the same account and number.
pub fn same_number(t: Transfer, u: Transfer) -> bool
    ensures { result ≡ same_number t u }
{
    t.account == u.account && t.number == u.number
}

// That `==` is document 01's "equal".
#[tactic(auto, unfolding(model::specs::Transfers::equal))]
pub fn is_equal(t: Transfer, u: Transfer) -> bool
    ensures { result ≡ equal t u }
{
    t == u
}

#[tactic(auto, unfolding(model::specs::Transfers::conflict))]
pub fn in_conflict(t: Transfer, u: Transfer) -> bool
    ensures { result ≡ conflict t u }
{
    same_number(t, u) && !is_equal(t, u)
}
