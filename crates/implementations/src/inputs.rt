//! What else an action is given: inputs, words and a mnemonic.
ghost use Rattle.leaves.specs.Lent.{leaf_at};
ghost use Rattle.std.specs.Prelude.{◌≡◌, Ok, Err, Some, option_copied};
ghost use Rattle.std.specs.Char.{is_ascii_alphabetic};
ghost use Rattle.std.specs.List.{list_all};
ghost use Rattle.values.specs.Seeing.{group_items};
ghost use Rattle.operations.specs.States.{Gives};
ghost use Rattle.contexts.specs.Actions.{inputs_in, leaf_inputs, words_in};
ghost use Rattle.contexts.specs.Actions.{mnemonic_in, is_mnemonic, file_in};
ghost use Rattle.contexts.specs.Actions.{files_from, depset_from};
ghost use Rattle.operations.specs.Depsets.{all_in};
ghost use Rattle.operations.specs.Instances.{only_files};

use crate::mnemonics::Mnemonics;
use crate::parts::{files, put_strings};
use actions::{Files, Inputs, Words};
use depsets::Depset;
use heap::Heap;
use making::has_only_files;
use operands::Operand;
use plain::Text;
use state::{sequence_of, text_of};
use std::alloc::Global;
use values::{Broken, Group, Kind, LeafRef, Seen};

/// The inputs of an argument: a sequence of Files, or a depset that is empty or of Files; no Files,
/// where there is none.
pub(crate) fn inputs_in(
    alloc: Global,
    heap: &Heap,
    inputs: Option<&Operand<'_>>,
) -> Result<Inputs, Broken>
    ensures { Gives (inputs_in heap.now (option_copied inputs.entry)) result }
{
    let Some(inputs) = inputs else {
        return Ok(Inputs::Files(Files::new(alloc)));
    };
    match heap.see_item(inputs.item()) {
        Seen::List(items) => file_inputs(alloc, heap, items),
        Seen::Tuple(items) => file_inputs(alloc, heap, items),
        Seen::Leaf(leaf) => leaf_inputs(leaf),
        _ => Err(Broken::Kind(Kind::Wrong)),
    }
}

/// The Files that items are, or `type`.
fn file_inputs<'b>(alloc: Global, heap: &'b Heap, items: Group<'b, '_>) -> Result<Inputs, Broken>
    ensures { Gives (files_from (all_in file_in heap.now (group_items items.entry))) result }
{
    let files = files(alloc, heap, items)?;
    Ok(Inputs::Files(files))
}

/// A depset that is empty or of Files, or `type`.
fn leaf_inputs(leaf: LeafRef<'_>) -> Result<Inputs, Broken>
    ensures { Gives (leaf_inputs (leaf_at leaf.entry)) result }
{
    match leaf {
        LeafRef::Depset(depset) => depset_inputs(depset),
        _ => Err(Broken::Kind(Kind::Wrong)),
    }
}

fn depset_inputs(depset: &Depset) -> Result<Inputs, Broken>
    ensures { Gives (depset_from (only_files depset.now)) result }
{
    if !has_only_files(depset) {
        return Err(Broken::Kind(Kind::Wrong));
    }
    let depset = depset.share()?;
    Ok(Inputs::Depset(depset))
}

/// The words of an action: the first, and then the strings of an argument, which may be missing.
pub(crate) fn words_in(
    alloc: Global,
    heap: &Heap,
    word: &Text,
    arguments: Option<&Operand<'_>>,
) -> Result<Words, Broken>
    ensures { Gives (words_in heap.now word.now (option_copied arguments.entry)) result }
{
    let mut words = Words::new(alloc);
    words.push(word.share()?)?;
    let Some(arguments) = arguments else {
        return Ok(words);
    };
    let Some(items) = sequence_of(&heap.see_item(arguments.item())) else {
        return Err(Broken::Kind(Kind::Wrong));
    };
    put_strings(heap, items, &mut words)?;
    Ok(words)
}

/// The mnemonic of an argument, which may be missing; or `type`.
pub(crate) fn mnemonic_in(
    mnemonics: &Mnemonics,
    heap: &Heap,
    mnemonic: Option<&Operand<'_>>,
) -> Result<Text, Broken>
    ensures { Gives (mnemonic_in heap.now (option_copied mnemonic.entry)) result }
{
    let Some(mnemonic) = mnemonic else {
        let text = mnemonics.of_run()?;
        return Ok(text);
    };
    let Some(text) = text_of(&heap.see_item(mnemonic.item())) else {
        return Err(Broken::Kind(Kind::Wrong));
    };
    if !is_mnemonic(text) {
        return Err(Broken::Kind(Kind::Wrong));
    }
    let text = text.share()?;
    Ok(text)
}

/// Whether a text is one letter or more.
fn is_mnemonic(text: &Text) -> bool
    ensures { result ≡ is_mnemonic text.now }
{
    text.len() != 0 && are_letters(text.as_str().as_bytes())
}

/// Whether each byte is a letter.
fn are_letters(bytes: &[u8]) -> bool
    ensures { result ≡ list_all is_ascii_alphabetic bytes.now }
{
    for byte in bytes {
        if !byte.is_ascii_alphabetic() {
            return false;
        }
    }
    true
}
