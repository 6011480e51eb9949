//! The numbers of `range`.
ghost use Rattle.std.specs.Prelude.{◌≡◌, length};
ghost use Rattle.numbers.specs.Ranges.{range_of, range_length};

use std::marker::Model;

/// How many items a list has at most.
const MOST_ITEMS: u64 = 1_048_576;

/// Numbers, each one more than the last. To a contract it is the list of those that are left.
#[derive(Drop)]
pub struct RangeNumbers {
    next: i64,
    end: i64,
}

impl Model for RangeNumbers {
    ghost use Rattle.std.specs.Prelude.{ℤ, List};
    ghost use Rattle.numbers.specs.Ranges.{range_numbers};

    ghost Value = { List ℤ };

    ghost view = { λ r. range_numbers r.next r.end };
}

/// The numbers from the first on, below the end; none where there are more than a list may have.
pub fn range(first: i64, end: i64) -> Option<RangeNumbers>
    ensures { result ≡ range_of first end }
{
    if difference_up(first, end) > MOST_ITEMS {
        return None;
    }
    Some(RangeNumbers { next: first, end })
}

/// How much the end is above the first: a number of 64 bits without a sign.
fn difference_up(first: i64, end: i64) -> u64
    ensures { result ≡ range_length first end }
{
    if end <= first {
        return 0;
    }
    end.abs_diff(first)
}

impl RangeNumbers {
    /// How many are left.
    pub fn len(&self) -> usize
        ensures { result ≡ length self.now }
    {
        difference_up(self.next, self.end) as usize
    }
}

impl Iterator for RangeNumbers {
    ghost use Rattle.std.specs.Iterator.{YieldsFirst, item_count};

    type Item = i64;

    ghost next_gives = { YieldsFirst (λ numbers. numbers) };

    ghost remaining = { item_count (λ numbers. numbers) };

    fn next(&mut self) -> Option<i64> {
        if self.next >= self.end {
            return None;
        }
        let number = self.next;
        self.next += 1;
        Some(number)
    }
}
