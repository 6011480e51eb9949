//! Lists of strings.
ghost use Rattle.std.specs.Prelude.{◌≡◌, [], IfOk, MatchOption, None, Some, map};
ghost use Rattle.values.specs.Seeing.{seen, group_items};
ghost use Rattle.values.specs.Shape.{shape};
ghost use Rattle.values.specs.Tree.{branch};
ghost use Rattle.operations.specs.Reading.{string_in};
ghost use Rattle.targets.specs.RuleCalls.{each_of};
ghost use Rattle.targets.specs.TextLists.{text_tree, tree_text, text_seen, text_frozen};
ghost use Rattle.targets.specs.TextLists.{list_of_texts};

use heap::Heap;
use std::alloc::{AllocError, Global};
use std::marker::Model;
use values::{Branch, Frozen, Group, Key, Seen};

/// A list of strings, as the frozen list that whoever reads it is lent: to a contract the strings
/// in order.
#[derive(Drop)]
pub struct TextList {
    tree: Frozen,
}

impl Model for TextList {
    ghost use Rattle.std.specs.Prelude.{ℕ, List, ◌≡◌};
    ghost use Rattle.values.specs.Tree.{branch};
    ghost use Rattle.targets.specs.TextLists.{texts_in, list_of_texts};

    ghost Value = { List (List ℕ) };

    ghost view = { λ l. texts_in l.tree };

    ghost invariant = { λ l. l.tree ≡ branch (list_of_texts (texts_in l.tree)) };
}

impl TextList {
    /// No strings.
    ///
    /// # Errors
    ///
    /// `AllocError` where memory was refused.
    pub fn new(alloc: Global) -> Result<TextList, AllocError>
        ensures { IfOk result (λ l. l ≡ []) }
    {
        list_of(alloc, Vec::new(alloc))
    }

    /// The strings that items are, of the heap or frozen; None where one is no string.
    ///
    /// # Errors
    ///
    /// `AllocError` where memory was refused.
    pub fn read<'b>(
        alloc: Global,
        heap: &'b Heap,
        items: Group<'b, '_>,
    ) -> Result<Option<TextList>, AllocError>
        ensures { IfOk result
            (λ o. o ≡ each_of (λ v. string_in (shape heap.now v)) (group_items items.entry)) }
    {
        match trees_in(alloc, heap, items)? {
            Some(trees) => Ok(Some(list_of(alloc, trees)?)),
            None => Ok(None),
        }
    }

    /// It, as a frozen list.
    pub fn tree(&self) -> &Frozen
        ensures { result.now ≡ branch (list_of_texts self.now) }
    {
        &self.tree
    }
}

/// The list of strings that are frozen.
fn list_of(alloc: Global, trees: Vec<Frozen>) -> Result<TextList, AllocError>
    requires { trees.items ≡ map text_tree (map tree_text trees.items) }
    ensures { IfOk result (λ l. l ≡ map tree_text trees.items) }
{
    let list = Branch::list(alloc, trees)?;
    Ok(TextList {
        tree: Frozen::of_branch(list),
    })
}

/// The strings that items are, frozen; None where one is no string.
fn trees_in<'b>(
    alloc: Global,
    heap: &'b Heap,
    items: Group<'b, '_>,
) -> Result<Option<Vec<Frozen>>, AllocError>
    ensures { IfOk result (λ o. MatchOption o
        (each_of (text_frozen heap.now) (group_items items.entry) ≡ None)
        (λ ts. each_of (text_frozen heap.now) (group_items items.entry) ≡ Some ts.items)) }
{
    let mut trees = Vec::with_capacity(alloc, items.len())?;
    for item in items {
        match text_seen(&heap.see_item(item))? {
            Some(tree) => trees.push(tree)?,
            None => return Ok(None),
        }
    }
    Ok(Some(trees))
}

/// What is shown, if it is a string, as a frozen value.
pub(crate) fn text_seen(value: &Seen<'_, '_>) -> Result<Option<Frozen>, AllocError>
    ensures { IfOk result (λ o. o ≡ text_seen (seen value.now)) }
{
    match value {
        Seen::Key(Key::Text(text)) => Ok(Some(Frozen::of_key(Key::Text(text.share()?)))),
        _ => Ok(None),
    }
}
