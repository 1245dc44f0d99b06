// The keys of a bundle's pages, by which pairs are told: see specs/Keys.antt.
ghost use Rattle.std.specs.Prelude.{◌≡◌, ◌≤◌, cond, eqb};
ghost use Rattle.model.specs.Bundles.{entry_count, page_at};
ghost use Rattle.pairs.specs.Keys.{head_of, tail_of, key_of, no_head, page_key, Keys};

use model::{ContentsEntry, Transfer};
use pages::contents::{body, contents_at, entry_count};
use pages::kinds::Kind;
use pages::messages::transfer_of;

// How many entries a sound bundle has at most.
pub const MOST_ENTRIES: usize = 1_000;

// An ack as two numbers.
#[derive(Clone, Copy, PartialEq, Eq)]
pub struct Key {
    pub head: u64,
    pub tail: u64,
}

// 2^48, the head of a page that is no ack: above the head of every ack. An Option<Key> would be half as large again.
const NO_HEAD: u64 = 281_474_976_710_656;

// What stands in a place in which no key is stored yet: zeros, with which an array is filled at once.
pub const NO_KEY: Key = Key { head: 0, tail: 0 };

// The seat, account and number of an ack.
pub fn head_of(seat: u8, t: Transfer) -> u64
    ensures { result ≡ head_of seat t }
{
    u64::from(seat) + 256 * (u64::from(t.account.0) + 256 * u64::from(t.number))
}

// Its value and recipient.
pub fn tail_of(t: Transfer) -> u64
    ensures { result ≡ tail_of t }
{
    u64::from(t.value) + 4_294_967_296 * u64::from(t.recipient.0)
}

// The key of an ack.
pub fn key_of(seat: u8, t: Transfer) -> Key
    ensures { result ≡ key_of seat t }
{
    Key {
        head: head_of(seat, t),
        tail: tail_of(t),
    }
}

// The head of a page, given what its body holds.
fn page_head(c: ContentsEntry, t: Transfer) -> u64
    ensures { result ≡ cond (eqb c.kind 3) (head_of c.seat t) no_head }
{
    if c.kind == u8::from(Kind::Ack) {
        head_of(c.seat, t)
    } else {
        NO_HEAD
    }
}

// The key of entry j's page.
fn page_key(bytes: &[u8], j: u16) -> Key
    ensures { result ≡ page_key (page_at bytes.now j) }
{
    let c = contents_at(bytes, j);
    let t = transfer_of(body(bytes, c));
    Key {
        head: page_head(c, t),
        tail: tail_of(t),
    }
}

// Stores the keys of a bundle. Into lent memory: by value they and the links cost the join a sixth more instructions.
pub fn store_keys(bytes: &[u8], keys: &mut [Key; MOST_ENTRIES])
    requires { entry_count bytes.now ≤ 1_000 }
    ensures { Keys bytes.now keys.new }
{
    for j in 0..entry_count(bytes) {
        keys[usize::from(j)] = page_key(bytes, j);
    }
}
