// A place that may hold a transfer, tested.
ghost use Rattle.std.specs.Prelude.{◌≡◌};
ghost use Rattle.model.specs.Acks.{holds, conflicts};

use crate::transfers::in_conflict;
use model::Transfer;

// The place holds a transfer equal to this one.
#[tactic(auto, unfolding(model::specs::Transfers::equal))]
pub fn is_held(t: Transfer, s: Option<Transfer>) -> bool
    ensures { result ≡ holds t s }
{
    s == Some(t)
}

// The place holds a transfer that conflicts with this one.
pub fn is_against(t: Transfer, s: Option<Transfer>) -> bool
    ensures { result ≡ conflicts t s }
{
    s.is_some_and(|u| in_conflict(u, t))
}
