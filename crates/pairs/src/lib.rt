// The pairs of two bundles: a seat's acks of two transfers that conflict. They are found by an index over the second
// bundle's pages, so that for an ack of the first only those of one bucket are looked at, and of those that follow one
// another with the same key one.

#![tactic(auto)]

ghost use Rattle.std.specs.Prelude.{◌≡◌, ◌≤◌};
ghost use Rattle.model.specs.Basics.{first_where};
ghost use Rattle.model.specs.Bundles.{entry_count};
ghost use Rattle.model.specs.Joins.{seats_of, partner_of, earliest_pair};
ghost use Rattle.pairs.specs.Keys.{Keys, meets};
ghost use Rattle.pairs.specs.Links.{Linked};

use crate::keys::{Key, MOST_ENTRIES, NO_KEY, key_of, store_keys};
use crate::links::{Links, NO_LINKS, bucket_of};
use pages::contents::{body, contents_at, entry_count};
use pages::kinds::Kind;
use pages::messages::transfer_of;
use pages::numbers::byte_at;

pub mod keys;
pub mod links;

// A bundle with the keys of its pages, and their links.
#[derive(Drop)]
struct Index<'a> {
    bundle: &'a [u8],
    keys: &'a [Key; MOST_ENTRIES],
    links: &'a Links,
    ghost keyed: { Keys bundle.now keys.now },
    ghost linked: { Linked keys.now (entry_count bundle.now) 0 links.now.buckets links.now.followers },
}

impl<'a> Index<'a> {
    // The lowest entry that makes a pair with an ack of this key: found along the links of its bucket.
    fn first_meeting(&self, key: Key) -> Option<u16>
        ensures { result ≡ first_where (meets self.now.keys.now key) (entry_count self.now.bundle.now) 0 }
    {
        let mut next = self.links.buckets[bucket_of(key.head)];
        while let Some(j) = next {
            let other = self.keys[usize::from(j)];
            if other.head == key.head && other.tail != key.tail {
                return Some(j);
            }
            next = self.links.followers[usize::from(j)];
        }
        None
    }

    // The lowest entry that makes a pair with entry i of the first bundle, in which there are so many seats.
    fn partner(&self, first: &[u8], seats: u8, i: u16) -> Option<u16>
        requires { seats ≡ seats_of first.now }
        ensures { result ≡ partner_of first.now self.now.bundle.now i }
    {
        let c = contents_at(first, i);
        if c.kind != u8::from(Kind::Ack) || seats <= c.seat {
            return None;
        }
        self.first_meeting(key_of(c.seat, transfer_of(body(first, c))))
    }
}

// The pair with the earliest entry in the first bundle, and of those with the earliest in the second.
pub fn earliest_pair(first: &[u8], second: &[u8]) -> Option<(u16, u16)>
    requires { entry_count second.now ≤ 1_000 }
    ensures { result ≡ earliest_pair first.now second.now }
{
    let seats = byte_at(body(first, contents_at(first, 0)), 0);
    let mut keys = [NO_KEY; MOST_ENTRIES];
    store_keys(second, &mut keys);
    let mut links = NO_LINKS;
    links.link(&keys, entry_count(second));
    let index = Index {
        bundle: second,
        keys: &keys,
        links: &links,
    };
    for i in 0..entry_count(first) {
        if let Some(j) = index.partner(first, seats, i) {
            return Some((i, j));
        }
    }
    None
}
