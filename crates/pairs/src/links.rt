// An index over a bundle's keys: see specs/Links.antt.
ghost use Rattle.std.specs.Prelude.{◌≡◌, ◌≤◌, ◌<◌, IfSome};
ghost use Rattle.pairs.specs.Links.{bucket_of, follower_of, Linked};

use crate::keys::{Key, MOST_ENTRIES};

// How many buckets there are: a prime number.
pub const BUCKETS: usize = 1_021;

// For each bucket its lowest entry, and for each entry the next one that follows it.
#[derive(Drop)]
pub struct Links {
    pub buckets: [Option<u16>; BUCKETS],
    pub followers: [Option<u16>; MOST_ENTRIES],
}

// No entry is linked.
pub const NO_LINKS: Links = Links {
    buckets: [None; BUCKETS],
    followers: [None; MOST_ENTRIES],
};

// The bucket of a head.
pub fn bucket_of(head: u64) -> usize
    ensures { result ≡ bucket_of head }
{
    (head % BUCKETS as u64) as usize
}

impl Links {
    // The entry that follows entry j, given the next one of its bucket: where that has the same key, what follows it.
    fn follower(&self, keys: &[Key; MOST_ENTRIES], j: u16, next: Option<u16>) -> Option<u16>
        requires j_bound { j < 1_000 }
        requires next_bound { IfSome next (λ k. k < 1_000) }
        ensures { result ≡ follower_of keys.now self.now.followers j next }
    {
        let k = usize::from(next?);
        if keys[usize::from(j)] == keys[k] {
            self.followers[k]
        } else {
            next
        }
    }

    // Links the first m entries, from the last to the first.
    pub fn link(&mut self, keys: &[Key; MOST_ENTRIES], m: u16)
        requires { m ≤ 1_000 }
        ensures { Linked keys.now m 0 self.new.buckets self.new.followers }
    {
        self.buckets = [None; BUCKETS];
        for j in (0..m).rev() {
            let bucket = bucket_of(keys[usize::from(j)].head);
            let next = self.buckets[bucket];
            self.followers[usize::from(j)] = self.follower(keys, j, next);
            self.buckets[bucket] = Some(j);
        }
    }
}
