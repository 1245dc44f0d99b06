// Two bundles joined: which seat acked two transfers, and the body that is shown.

#![tactic(auto)]

ghost use Rattle.std.specs.Prelude.{◌≡◌, MatchResult};
ghost use Rattle.model.specs.Basics.{same};
ghost use Rattle.model.specs.Types.{refused_at};
ghost use Rattle.model.specs.Bundles.{check_bundle};
ghost use Rattle.model.specs.Joins.{shown_by, answer_of, bundle_named, entry_named, shown_start};
ghost use Rattle.evidence.specs.Promises.{JoinedAs, ShownAs};

use bundle::check;
use model::{FoundPair, JoinError, Refusal, Seat, Transfer, Which};
use pages::contents::{body, contents_at};
use pages::messages::transfer_of;
use pairs::earliest_pair;
use reader::opening_body;

// Two slices hold the same bytes.
fn is_same(a: &[u8], b: &[u8]) -> bool
    ensures { result ≡ same a.now b.now }
{
    a.len() == b.len() && a.iter().zip(b).all(|(x, y)| x == y)
}

// "of the two bodies, the one that differs from a ruled slip": the first bundle's, unless its transfer is the ruled
// one, and then the second's.
#[tactic(auto, unfolding(model::specs::Transfers::equal))]
fn shown_by(ruled: Transfer, t: Transfer) -> Which
    ensures { result ≡ shown_by ruled t }
{
    if t == ruled {
        Which::Second
    } else {
        Which::First
    }
}

// What is told of a pair: the seat, both entries, and which body is shown.
fn told(first: &[u8], ruled: Transfer, i: u16, j: u16) -> FoundPair
    ensures { Ok (Some result) ≡ answer_of first.now ruled (Some (i, j)) }
{
    let c = contents_at(first, i);
    FoundPair {
        seat: Seat(c.seat),
        first: i,
        second: j,
        shown: shown_by(ruled, transfer_of(body(first, c))),
    }
}

// The check of a bundle, of which a refusal names the bundle too.
fn checked(bytes: &[u8], bundle: Which) -> Result<u16, JoinError>
    ensures { MatchResult result (λ m. check_bundle bytes.now ≡ Ok m)
        (λ e. (e.bundle ≡ bundle) × (check_bundle bytes.now ≡ refused_at e.refusal e.entry)) }
{
    check(bytes).map_err(|e| JoinError {
        refusal: e.refusal,
        bundle,
        entry: e.entry,
    })
}

// The join: "the first bundle's 13 to 16, then the second's, then 21 if the two opening pages differ", and then the
// earliest pair, if there is one.
pub fn join(first: &[u8], second: &[u8], ruled: Transfer) -> Result<Option<FoundPair>, JoinError>
    ensures { JoinedAs first.now second.now ruled result }
{
    checked(first, Which::First)?;
    checked(second, Which::Second)?;
    if !is_same(opening_body(first), opening_body(second)) {
        return Err(JoinError {
            refusal: Refusal::PagesDiffer,
            bundle: Which::Neither,
            entry: 0,
        });
    }
    Ok(earliest_pair(first, second).map(|(i, j)| told(first, ruled, i, j)))
}

// The bundle that is meant; of neither, no bytes.
fn bundle_named<'a>(which: Which, first: &'a [u8], second: &'a [u8]) -> &'a [u8]
    ensures { result.now ≡ bundle_named which first.now second.now }
{
    match which {
        Which::First => first,
        Which::Second => second,
        Which::Neither => &[],
    }
}

// Of a pair's entries the one in the bundle whose body is shown.
fn entry_named(pair: FoundPair) -> u16
    ensures { result ≡ entry_named pair.shown pair.first pair.second }
{
    match pair.shown {
        Which::First => pair.first,
        Which::Second => pair.second,
        Which::Neither => 0,
    }
}

// The body that is shown by an answer, "as that body's bytes in whichever bundle holds it": a part of the first or of
// the second slice. Without a pair, and where the join is refused, it is empty.
pub fn shown<'a>(
    first: &'a [u8],
    second: &'a [u8],
    found: Result<Option<FoundPair>, JoinError>,
) -> &'a [u8]
    ensures { ShownAs first.now second.now found result.now }
{
    let Ok(Some(pair)) = found else {
        return &[];
    };
    let held = bundle_named(pair.shown, first, second);
    body(held, contents_at(held, entry_named(pair)))
}

// Where it starts in that bundle, for hosts to which no slice can be handed; 0 where it is empty.
pub fn shown_start(first: &[u8], second: &[u8], found: Result<Option<FoundPair>, JoinError>) -> u16
    ensures { result ≡ shown_start first.now second.now found }
{
    let Ok(Some(pair)) = found else {
        return 0;
    };
    let held = bundle_named(pair.shown, first, second);
    contents_at(held, entry_named(pair)).start
}
