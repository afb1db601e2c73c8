// Finding features and dependencies in an index, and adding to it.
ghost use Rattle.std.specs.Prelude.{◌≡◌, ℕ, ◌+◌, ◌<◌, ◌≤◌, false, [], ◌∷◌, ◌++◌, length, nat_le};
ghost use Rattle.graph.specs.Keys.{is_key, has_key};
ghost use Rattle.graph.specs.Buckets.{buckets, key_of, key_view, keys_of, entry_at, bucket_of, past, Linked, newest_of, is_far, IsEntry, InBucket};
ghost use Rattle.graph.specs.Limits.{max_features};

use crate::index::{BUCKETS, FACTOR, Index, IndexEntry, Key, Lists};
use crate::limits::MAX_FEATURES;

// The bucket of a key.
fn bucket(key: Key<'_>) -> usize
    ensures value { result ≡ bucket_of key.entry.owner key.entry.name.now }
    ensures below { result < buckets }
{
    key.name.iter().fold(
        key.owner as usize % BUCKETS,
        |h, b|
            requires { h < buckets }
        { (h * FACTOR + usize::from(*b)) % BUCKETS },
    )
}

impl<'a> Lists<'a> {
    // One entry more.
    fn add(&mut self, key: Key<'a>)
        requires room { self.old.count < max_features }
        requires linked { Linked self.old.entries self.old.heads self.old.count }
        ensures count { self.new.count ≡ self.old.count + 1 }
        ensures keys { keys_of self.new.entries self.new.count ≡ keys_of self.old.entries self.old.count ++ key_view key.entry ∷ [] }
        ensures linked { Linked self.new.entries self.new.heads self.new.count }
    {
        let h = bucket(key);
        let k = self.count;
        self.entries[k as usize] = IndexEntry {
            name: key.name,
            owner: key.owner,
            next: self.heads[h],
        };
        self.heads[h] = Some(k);
        self.count = k + 1;
    }
}

impl<'a> Index<'a> {
    // An index of nothing.
    pub(crate) fn new(file: &'a [u8]) -> Index<'a>
        ensures { (result.file.now ≡ file.now) × (result.lists.count ≡ 0) }
    {
        let blank = IndexEntry {
            name: &[],
            owner: 0,
            next: None,
        };
        let lists = Lists {
            count: 0,
            entries: [blank; MAX_FEATURES],
            heads: [None; BUCKETS],
        };
        Index { file, lists }
    }

    // Whether entry `k` is of this package and name.
    fn is_at(&self, k: usize, key: Key<'_>) -> bool
        requires { k < self.now.lists.count }
        ensures { result ≡ is_key key.entry.owner key.entry.name.now (key_of (entry_at self.now.lists.entries k)) }
    {
        self.lists.entries[k].key() == key
    }

    // The newest entry of a key that is no newer than one of its bucket, which comes first in the bucket's list.
    fn search(&self, from: Option<u16>, key: Key<'_>) -> Option<u16>
        requires { InBucket self.now.lists.entries self.now.lists.count key.owner key.name.now from }
        ensures { result ≡ newest_of self.now.lists.entries key.entry.owner key.entry.name.now (past from) }
    {
        let mut at = from;
        while let Some(k) = at {
            if self.is_at(k as usize, key) {
                return Some(k);
            }
            at = self.lists.entries[k as usize].next;
        }
        None
    }

    // The same, where none of the first `low` entries has the key: it leaves the list where this comes to one of these.
    fn search_above(&self, from: Option<u16>, low: u32, key: Key<'_>) -> Option<u16>
        requires own { InBucket self.now.lists.entries self.now.lists.count key.owner key.name.now from }
        requires none { (k : ℕ) → k < low → is_key key.owner key.name.now (key_of (entry_at self.now.lists.entries k)) ≡ false }
        ensures { result ≡ newest_of self.now.lists.entries key.entry.owner key.entry.name.now (past from) }
    {
        let mut at = from;
        while let Some(k) = at {
            if u32::from(k) < low {
                return None;
            }
            if self.is_at(k as usize, key) {
                return Some(k);
            }
            at = self.lists.entries[k as usize].next;
        }
        None
    }

    // Whether the list of a key's bucket, from one of its entries on, has more than so many before it comes to one of the
    // first `high`.
    fn is_far(&self, from: Option<u16>, key: Key<'_>, high: u32, most: u32) -> bool
        requires { InBucket self.now.lists.entries self.now.lists.count key.owner key.name.now from }
        ensures { result ≡ is_far self.now.lists.entries high from most }
    {
        let mut at = from;
        let mut rest = most;
        while let Some(k) = at {
            if u32::from(k) < high {
                return false;
            }
            if rest == 0 {
                return true;
            }
            rest -= 1;
            at = self.lists.entries[k as usize].next;
        }
        false
    }

    // The newest of the first `high` entries that has a key, where none of the first `low` has it. It looks at each of
    // the others.
    fn scan(&self, low: u32, high: u32, key: Key<'_>) -> Option<u16>
        requires within { high ≤ self.now.lists.count }
        requires none { (k : ℕ) → k < low → is_key key.owner key.name.now (key_of (entry_at self.now.lists.entries k)) ≡ false }
        ensures { result ≡ newest_of self.now.lists.entries key.entry.owner key.entry.name.now high }
    {
        let mut at = high;
        while at > low {
            at -= 1;
            if self.is_at(at as usize, key) {
                return Some(at as u16);
            }
        }
        None
    }

    // The newest entry of a key.
    pub(crate) fn find(&self, key: Key<'_>) -> Option<u16>
        ensures { result ≡ newest_of self.now.lists.entries key.entry.owner key.entry.name.now self.now.lists.count }
    {
        self.search(self.lists.heads[bucket(key)], key)
    }

    // The newest entry of a key, which only those from `low` to `high` may have. Where more entries than these stand before
    // them in the list of its bucket, it does not follow the list, but looks at each of them.
    pub(crate) fn find_within(&self, low: u32, high: u32, key: Key<'_>) -> Option<u16>
        requires within { (low ≤ high) × (high ≤ self.now.lists.count) }
        requires none { (k : ℕ) → k < low → is_key key.owner key.name.now (key_of (entry_at self.now.lists.entries k)) ≡ false }
        requires all { newest_of self.now.lists.entries key.owner key.name.now high ≡ newest_of self.now.lists.entries key.owner key.name.now self.now.lists.count }
        ensures { result ≡ newest_of self.now.lists.entries key.entry.owner key.entry.name.now self.now.lists.count }
    {
        let head = self.lists.heads[bucket(key)];
        if self.is_far(head, key, high, high - low) {
            self.scan(low, high, key)
        } else {
            self.search_above(head, low, key)
        }
    }

    // The newest entry of a key that is older than one of that key, where none of the first `low` entries has it.
    pub(crate) fn older(&self, k: u16, low: u32, key: Key<'_>) -> Option<u16>
        requires entry { IsEntry self.now.lists.entries self.now.lists.count key.owner key.name.now k }
        requires none { (k : ℕ) → k < low → is_key key.owner key.name.now (key_of (entry_at self.now.lists.entries k)) ≡ false }
        ensures { result ≡ newest_of self.now.lists.entries key.entry.owner key.entry.name.now k }
    {
        self.search_above(self.lists.entries[k as usize].next, low, key)
    }

    // Whether there is an entry of this package and name.
    pub(crate) fn has(&self, key: Key<'_>) -> bool
        ensures { result ≡ has_key key.entry.owner key.entry.name.now (keys_of self.now.lists.entries self.now.lists.count) }
    {
        self.find(key).is_some()
    }

    // Whether there is no room for an entry more.
    pub(crate) fn is_full(&self) -> bool
        ensures { result ≡ nat_le max_features (length (keys_of self.now.lists.entries self.now.lists.count)) }
    {
        usize::from(self.lists.count) >= MAX_FEATURES
    }

    // One entry more.
    pub(crate) fn add(&mut self, key: Key<'a>)
        requires room { self.old.lists.count < max_features }
        ensures file { self.new.file.now ≡ self.old.file.now }
        ensures count { self.new.lists.count ≡ self.old.lists.count + 1 }
        ensures keys { keys_of self.new.lists.entries self.new.lists.count ≡ keys_of self.old.lists.entries self.old.lists.count ++ key_view key.entry ∷ [] }
    {
        self.lists.add(key)
    }
}
