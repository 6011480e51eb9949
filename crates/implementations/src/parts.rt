//! Files and strings out of values.
ghost use Rattle.std.specs.Prelude.{◌≡◌, Ok, Err, Some, None, MatchResult};
ghost use Rattle.std.specs.Prelude.{option_copied};
ghost use Rattle.values.specs.Seeing.{seen, group_items};
ghost use Rattle.ticks.specs.Ticking.{FaultOr};
ghost use Rattle.operations.specs.Depsets.{all_in, put_last};
ghost use Rattle.operations.specs.Reading.{string_in};
ghost use Rattle.contexts.specs.Actions.{file_in, with_strings};

use actions::{Files, Words};
use depsets::FileRef;
use heap::Heap;
use plain::Shared;
use state::text_of;
use std::alloc::Global;
use values::{Broken, Group, Kind, LeafRef, Seen};

/// The File that a value is, if it is one.
pub(crate) fn file_of<'a>(value: &Seen<'a, '_>) -> Option<&'a Shared<FileRef>>
    ensures { option_copied result ≡ file_in (seen value.now) }
{
    match value {
        Seen::Leaf(LeafRef::File(file)) => Some(file),
        _ => None,
    }
}

/// The Files that items are, or `type`.
pub(crate) fn files<'b>(
    alloc: Global,
    heap: &'b Heap,
    items: Group<'b, '_>,
) -> Result<Files, Broken>
    ensures { MatchResult result
        (λ fs. all_in file_in heap.now (group_items items.entry) ≡ Ok fs)
        (λ e. FaultOr (all_in file_in heap.now (group_items items.entry)) e) }
{
    let mut files = Files::with_capacity(alloc, items.len())?;
    for item in items {
        if let Err(broken) = put_file(&heap.see_item(item), &mut files) {
            return Err(broken);
        }
    }
    Ok(files)
}

/// Puts the File that a value is last, or `type`.
fn put_file(value: &Seen<'_, '_>, files: &mut Files) -> Result<(), Broken>
    ensures { MatchResult result
        (λ _. put_last files.old (file_in (seen value.now)) ≡ Ok files.new)
        (λ e. FaultOr (put_last files.old (file_in (seen value.now))) e) }
{
    let Some(file) = file_of(value) else {
        return Err(Broken::Kind(Kind::Wrong));
    };
    let file = file.share()?;
    if files.push(file).is_err() {
        return Err(Broken::NoMemory);
    }
    Ok(())
}

/// Puts the strings that items are last, or `type`.
pub(crate) fn put_strings<'b>(
    heap: &'b Heap,
    items: Group<'b, '_>,
    words: &mut Words,
) -> Result<(), Broken>
    ensures { MatchResult result
        (λ _. with_strings heap.now (group_items items.entry) words.old ≡ Ok words.new)
        (λ e. FaultOr (with_strings heap.now (group_items items.entry) words.old) e) }
{
    for item in items {
        if let Err(broken) = put_string(&heap.see_item(item), words) {
            return Err(broken);
        }
    }
    Ok(())
}

/// Puts the string that a value is last, or `type`.
fn put_string(value: &Seen<'_, '_>, words: &mut Words) -> Result<(), Broken>
    ensures { MatchResult result
        (λ _. put_last words.old (string_in (seen value.now)) ≡ Ok words.new)
        (λ e. FaultOr (put_last words.old (string_in (seen value.now))) e) }
{
    let Some(text) = text_of(value) else {
        return Err(Broken::Kind(Kind::Wrong));
    };
    let text = text.share()?;
    if words.push(text).is_err() {
        return Err(Broken::NoMemory);
    }
    Ok(())
}
