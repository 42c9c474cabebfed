// A path as the entries of its queues (`queue_table::entry_at`), hop by hop.
ghost use Rattle.std.specs.Prelude.{◌≡◌, List, [], ◌∷◌, ◌++◌, ◌<◌, length};
ghost use Rattle.model.specs.Sizes.{hops_most};

use crate::MOST_HOPS;
use std::marker::Model;

#[derive(Clone, Copy)]
pub struct Path {
    entries: [u32; MOST_HOPS],
    hops: usize,
}

// The first `hops` entries of the array. The rest is free, and 0, so that the list gives the whole array back.
impl Model for Path {
    ghost use Rattle.std.specs.Prelude.{◌≡◌, ℕ, List, ◌≤◌, length, take};
    ghost use Rattle.model.specs.Sizes.{hops_most};
    ghost use Rattle.orders.specs.Free.{filled, ZeroFrom, taken-long, taken-filled};

    ghost Value = { List ℕ };

    ghost view = { λ path. take path.hops path.entries };

    ghost invariant = { λ path. (path.hops ≤ hops_most) × (length path.entries ≡ hops_most) × ZeroFrom path.entries path.hops };

    ghost inverse = { λ entries. record { entries = filled entries; hops = length entries } };

    ghost inverse_ok = { λ path h i. record {
      entries = taken-filled path.entries path.hops h.0 h.1 h.2 i;
      hops = taken-long path.entries path.hops h.0 h.1 i;
    } };
}

impl Path {
    // A path without hops yet.
    pub fn new() -> Path
        ensures { result ≡ [] }
    {
        Path {
            entries: [0; MOST_HOPS],
            hops: 0,
        }
    }

    // One hop more.
    pub fn push(&mut self, entry: u32)
        requires { length self.old < hops_most }
        ensures { self.new ≡ self.old ++ entry ∷ [] }
    {
        self.entries[self.hops] = entry;
        self.hops += 1;
    }

    pub fn entries(&self) -> &[u32]
        ensures { result.now ≡ self.now }
    {
        &self.entries[..self.hops]
    }
}
