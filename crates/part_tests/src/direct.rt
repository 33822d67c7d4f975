//! What the definition says of two keys in a bucket, under a fold that keeps the last length, how often it changed and a
//! hash of all lengths.

use crate::one_bucket::Event;
use std::alloc::{AllocError, Global};

/// The fold's query: it has a history, a sum and a product.
pub const QUERY: &[u8] = b"def all([last, changes, hash],[pkt_len]) {\n\
    if (last != pkt_len) { changes = changes + 1; }\n\
    last = pkt_len;\n\
    hash = hash * 31 + pkt_len;\n\
    }\n\
    r = groupby(pktstream, [srcip], all);\n\
    print r;\n";

/// A key: whether it has an open epoch, how many epochs it had, and the fold over all its packets.
#[derive(Drop)]
struct OneKey {
    is_open: bool,
    epochs: u64,
    last: u64,
    changes: u64,
    hash: u64,
}

/// The sources 1 and 2, and which of them was used last.
#[derive(Drop)]
pub struct TwoKeys {
    first: OneKey,
    second: OneKey,
    latest: u64,
}

impl OneKey {
    const UNUSED: OneKey = OneKey {
        is_open: false,
        epochs: 0,
        last: 0,
        changes: 0,
        hash: 0,
    };

    fn fold(&mut self, length: u64) {
        if self.last != length {
            self.changes = self.changes.wrapping_add(1);
        }
        self.last = length;
        self.hash = self.hash.wrapping_mul(31).wrapping_add(length);
    }
}

impl TwoKeys {
    pub fn new() -> TwoKeys {
        TwoKeys {
            first: OneKey::UNUSED,
            second: OneKey::UNUSED,
            latest: 1,
        }
    }

    // The key that was used last, and the other one.
    fn by_use(&mut self) -> (&mut OneKey, &mut OneKey) {
        if self.latest == 1 {
            (&mut self.first, &mut self.second)
        } else {
            (&mut self.second, &mut self.first)
        }
    }

    // A packet. A key that has no open epoch begins one, and in a bucket of one way that ends the other key's.
    fn packet(&mut self, source: u64, length: u64, ways: usize) {
        self.latest = source;
        let (used, other) = self.by_use();
        if !used.is_open {
            used.is_open = true;
            used.epochs = used.epochs.wrapping_add(1);
            if ways == 1 {
                other.is_open = false;
            }
        }
        used.fold(length);
    }

    // Ends the epoch of the key that was used longest ago, and says whether there was one.
    fn evict(&mut self) -> bool {
        let (latest, other) = self.by_use();
        let least = if other.is_open { other } else { latest };
        let was_open = least.is_open;
        least.is_open = false;
        was_open
    }

    /// An event in a bucket of `ways` ways. True where it is an eviction that ended an epoch.
    pub fn make(&mut self, event: Event, ways: usize) -> bool {
        match event {
            Event::Packet(source, length) => {
                self.packet(source, length, ways);
                false
            }
            Event::Evict => self.evict(),
            Event::Merge | Event::Sweep => false,
        }
    }

    /// How many epochs are open.
    pub fn held(&self) -> usize {
        usize::from(self.first.is_open) + usize::from(self.second.is_open)
    }

    /// A row for each key that was used: the key, how many epochs it had, and its state.
    pub fn rows(&self, alloc: Global) -> Result<Vec<u64>, AllocError> {
        let mut rows = Vec::new(alloc);
        for (source, one) in [(1, &self.first), (2, &self.second)] {
            if one.epochs != 0 {
                rows.extend_from_slice(&[source, one.epochs, one.last, one.changes, one.hash])?;
            }
        }
        Ok(rows)
    }
}
