//! How many threads work.
ghost use Rattle.std.specs.Prelude.{◌≡◌, ◌≤◌, ◌<◌, ◌⊎◌, ◌↔◌, max, min, IfSome, None};

use std::marker::Model;

/// How many workers there are: from 1 to 64. (This project's own limit.)
#[derive(Clone, Copy, Debug)]
pub struct Workers {
    count: u64,
}

impl Model for Workers {
    ghost use Rattle.std.specs.Prelude.{ℕ, ◌≤◌};

    ghost Value = { ℕ };

    ghost view = { λ w. w.count };

    ghost inverse = { λ n. record { count = n } };

    ghost invariant = { λ w. (1 ≤ w.count) × (w.count ≤ 64) };
}

impl Workers {
    /// So many; None where that isn't a number from 1 to 64.
    pub fn new(count: u64) -> Option<Workers>
        ensures some { IfSome result (λ w. w ≡ count) }
        ensures none { result ≡ None ↔ ((count < 1) ⊎ (64 < count)) }
    {
        if count < 1 || count > 64 {
            return None;
        }
        Some(Workers { count })
    }

    /// How many.
    pub fn get(self) -> usize
        ensures value { result ≡ self }
        ensures least { 1 ≤ result }
        ensures most { result ≤ 64 }
    {
        self.count as usize
    }

    /// As many of them as can be of use for so many places: no more than there are places, but one
    /// at least.
    pub fn useful(self, places: usize) -> Workers
        ensures value { result ≡ max 1 (min self places) }
    {
        let count = self.count.min(places as u64).max(1);
        Workers { count }
    }
}
