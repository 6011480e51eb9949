//! Tests of lists of numbers.
ghost use Rattle.std.specs.Prelude.{◌≡◌, ℕ, ◌<◌, ◌≤◌, MatchBool};
ghost use Rattle.board.specs.Rule.{plan_in};
ghost use Rattle.std.specs.Bool.{OnTrue};
ghost use Rattle.board.specs.Journal.{times, deps};
ghost use Rattle.board_tests.specs.Graph.{AllDistinct, AllInside, Mirrors};

/// Whether the list has the number.
pub fn has(list: &[usize], x: usize) -> bool
    ensures { MatchBool result (0 < times x list.now) (times x list.now ≡ 0) }
{
    for i in 0..list.len() {
        if list[i] == x {
            return true;
        }
    }
    false
}

/// Whether each number is above the one before it.
pub fn is_ascending(list: &[usize]) -> bool
    ensures { OnTrue result ((x : ℕ) → times x list.now ≤ 1) }
{
    for i in 1..list.len() {
        if list[i] <= list[i - 1] {
            return false;
        }
    }
    true
}

/// Whether each number is below the limit.
pub fn is_below(list: &[usize], limit: usize) -> bool
    ensures { OnTrue result ((x : ℕ) → 0 < times x list.now → x < limit) }
{
    for i in 0..list.len() {
        if list[i] >= limit {
            return false;
        }
    }
    true
}

/// Whether each list is ascending.
pub fn all_ascending(lists: &[Vec<usize>]) -> bool
    ensures { OnTrue result (AllDistinct (plan_in lists.now)) }
{
    for n in 0..lists.len() {
        if !is_ascending(lists[n].as_slice()) {
            return false;
        }
    }
    true
}

/// Whether the lists have numbers of lists alone.
pub fn all_inside(lists: &[Vec<usize>]) -> bool
    ensures { OnTrue result (AllInside (plan_in lists.now)) }
{
    for n in 0..lists.len() {
        if !is_below(lists[n].as_slice(), lists.len()) {
            return false;
        }
    }
    true
}

/// Whether the lists of these numbers all have `n`.
fn all_have(lists: &[Vec<usize>], numbers: &[usize], n: usize) -> bool
    ensures { OnTrue result ((x : ℕ) → 0 < times x numbers.now
        → 0 < times n (deps (plan_in lists.now) x)) }
{
    for i in 0..numbers.len() {
        let x = numbers[i];
        if x >= lists.len() || !has(lists[x].as_slice(), n) {
            return false;
        }
    }
    true
}

/// Whether the other list of each number in a list has that list's number.
pub fn mirrors(lists: &[Vec<usize>], others: &[Vec<usize>]) -> bool
    ensures { OnTrue result (Mirrors (plan_in lists.now) (plan_in others.now)) }
{
    for n in 0..lists.len() {
        if !all_have(others, lists[n].as_slice(), n) {
            return false;
        }
    }
    true
}
