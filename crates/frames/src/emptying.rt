//! Lists that are used again.

ghost use Rattle.std.specs.Prelude.{◌≡◌, []};

/// For so many items the memory is kept where a list is used again.
const KEPT: usize = 1024;

/// Lets all items go; the memory of 1,024 at most is kept for others. That a list is empty is seen
/// where the call stands.
#[inline(always)]
pub(crate) fn empty<T: Drop>(items: &mut Vec<T>)
    ensures { items.new.items ≡ [] }
{
    if items.len() > 0 {
        let_go(items);
    }
    if items.capacity() > KEPT {
        shrink(items);
    }
}

#[inline(never)]
fn let_go<T: Drop>(items: &mut Vec<T>)
    ensures { items.new.items ≡ [] }
{
    items.clear();
}

#[inline(never)]
fn shrink<T: Drop>(items: &mut Vec<T>)
    ensures { items.new.items ≡ items.old.items }
{
    items.shrink_to(KEPT);
}
