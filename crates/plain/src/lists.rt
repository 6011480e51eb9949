//! Lists whose room was taken before.
ghost use Rattle.std.specs.Prelude.{◌≡◌, ◌++◌, ◌∷◌, [], OnOk, OnErr};

use std::alloc::AllocError;

/// Puts an item last. Where room was taken for it before, it looks for no more. After a refusal of
/// memory all is as it was.
///
/// # Errors
///
/// `AllocError` where there was no room and memory for it was refused.
#[inline(always)]
pub fn push_last<T: Drop>(items: &mut Vec<T>, item: T) -> Result<(), AllocError>
    ensures ok { OnOk result (items.new.items ≡ items.old.items ++ item ∷ []) }
    ensures err { OnErr result (items.new.items ≡ items.old.items) }
{
    if items.len() < items.capacity() {
        items.push_reserved(item);
        return Ok(());
    }
    push_without_room(items, item)
}

/// Puts an item last where there is no room for it. That is rare, so it stands apart.
#[inline(never)]
fn push_without_room<T: Drop>(items: &mut Vec<T>, item: T) -> Result<(), AllocError>
    ensures ok { OnOk result (items.new.items ≡ items.old.items ++ item ∷ []) }
    ensures err { OnErr result (items.new.items ≡ items.old.items) }
{
    items.push(item)?;
    Ok(())
}
