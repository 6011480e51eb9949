//! What a visit of a value finds, noted where the value is made, so that a visit that fits is one
//! comparison.
ghost use Rattle.std.specs.Prelude.{◌≤◌, IfSome};
ghost use Rattle.ticks.specs.Extents.{IsExtent, Measure, above, beside, no_values, one};

use crate::VISITED_LEVELS;

/// How many values a visit of a frozen value finds, and on how many levels. The value itself is one
/// of them.
#[derive(Clone, Copy, Debug)]
pub struct Extent {
    /// The value, its parts and theirs, and each key of a dict.
    pub values: u32,
    /// The value is on the first.
    pub levels: u16,
    /// Whether it is known that each of them can be frozen, and how many they are. Where that is
    /// false `values` says nothing: a leaf can't be frozen, or there are more values than the
    /// number can tell.
    pub is_whole: bool,
}

impl Extent {
    /// Of nothing.
    pub fn nothing() -> Extent
        ensures { IsExtent result no_values }
    {
        Extent {
            values: 0,
            levels: 0,
            is_whole: true,
        }
    }

    /// Of one value without parts, which can be frozen or not.
    pub fn one(can_be_frozen: bool) -> Extent
        ensures { IsExtent result (one can_be_frozen) }
    {
        Extent {
            values: 1,
            levels: 1,
            is_whole: can_be_frozen,
        }
    }

    /// Of values, and others beside them.
    pub fn beside(self, others: Extent) -> Extent
        ensures { (m n : Measure) → IsExtent self m → IsExtent others n
            → IsExtent result (beside m n) }
    {
        let values = self.values.checked_add(others.values);
        Extent {
            values: values.unwrap_or(0),
            levels: self.levels.max(others.levels),
            is_whole: self.is_whole && others.is_whole && values.is_some(),
        }
    }

    /// Of a value above parts, None where it would have more than 64 levels: no such value is
    /// frozen, so all that goes down the parts of one, its drop too, goes 64 deep. (A depset is a
    /// leaf, and has its own limit.)
    pub fn above(self) -> Option<Extent>
        ensures { IfSome result (λ e. (e.levels ≤ 64)
            × ((m : Measure) → IsExtent self m → IsExtent e (above m))) }
    {
        if u32::from(self.levels) >= VISITED_LEVELS {
            return None;
        }
        let values = self.values.checked_add(1);
        Some(Extent {
            values: values.unwrap_or(0),
            levels: self.levels + 1,
            is_whole: self.is_whole && values.is_some(),
        })
    }
}
