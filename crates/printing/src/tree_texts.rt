//! The text of a frozen value, for a report: without ticks, and without a limit of size.
ghost use Rattle.std.specs.Prelude.{◌≡◌, ◌++◌, string_bytes, IfOk, OnOk};
ghost use Rattle.depsets.specs.Listed.{walked};
ghost use Rattle.values.specs.Tree.{trees, pairs, slots};
ghost use Rattle.values.specs.View.{node_branch};
ghost use Rattle.leaf_texts.specs.Texts.{joined, entry_head};
ghost use Rattle.printing.specs.TreeTexts.{text_by, branch_text_by, texts_by, pair_texts_by};
ghost use Rattle.printing.specs.TreeTexts.{field_texts_by, text_of, IsCoherentTree};

use indexmap::IndexSet;
use leaf_texts::{end_of_tuple, put_field_head, put_key, put_leaf, put_provider, put_separator};
use plain::Text;
use std::alloc::{AllocError, Global};
use values::{Frozen, Held, Key, Node};

/// The text of a frozen value, as a report prints it. A depset is printed by its whole listing.
///
/// Of any value that is the walk which skips ids; of a coherent one, where two parts of a depset
/// with one id are the same, it is the plain listing.
///
/// # Errors
///
/// `AllocError` where memory for the text or for a listing was refused.
pub fn text(alloc: Global, value: &Frozen) -> Result<String, AllocError>
    ensures walk { IfOk result (λ s. string_bytes s ≡ text_by walked value.now) }
    ensures plain { IfOk result
        (λ s. IsCoherentTree value.now → string_bytes s ≡ text_of value.now) }
{
    let mut out = String::new(alloc);
    put_tree(alloc, &mut out, value)?;
    Ok(out)
}

/// Appends what stands before the value of a dict's entry.
fn put_head(out: &mut String, key: &Key) -> Result<(), AllocError>
    ensures { OnOk result (string_bytes out.new ≡ string_bytes out.old ++ entry_head key.now) }
{
    put_key(out, key)?;
    out.push_str(": ")
}

/// Appends a frozen value.
///
/// # Errors
///
/// `AllocError` where memory was refused.
#[cycle(text)]
pub fn put_tree(alloc: Global, out: &mut String, tree: &Frozen) -> Result<(), AllocError>
    ensures { OnOk result (string_bytes out.new ≡ string_bytes out.old ++ text_by walked tree.now) }
{
    match tree.held() {
        Held::Key(key) => put_key(out, key),
        Held::Leaf(leaf) => put_leaf(alloc, out, leaf.lend()),
        Held::Branch(limb) => put_node(alloc, out, limb.node()),
    }
}

/// Appends a frozen value of these parts.
#[cycle(text)]
fn put_node(alloc: Global, out: &mut String, node: &Node) -> Result<(), AllocError>
    ensures { OnOk result (string_bytes out.new
        ≡ string_bytes out.old ++ branch_text_by walked (node_branch node.now)) }
{
    match node {
        Node::List(items) => {
            out.push_str("[")?;
            put_trees(alloc, out, items.as_slice())?;
            out.push_str("]")
        }
        Node::Tuple(items) => {
            out.push_str("(")?;
            put_trees(alloc, out, items.as_slice())?;
            out.push_str(end_of_tuple(items.len()))
        }
        Node::Dict(keys, values) => {
            out.push_str("{")?;
            put_pairs(alloc, out, keys, values.as_slice())?;
            out.push_str("}")
        }
        Node::Instance(provider, fields) => {
            let provider = provider.get();
            put_provider(out, &provider.name)?;
            out.push_str("(")?;
            put_fields(alloc, out, provider.fields.as_slice(), fields.as_slice())?;
            out.push_str(")")
        }
    }
}

/// Appends frozen values with commas between them.
#[cycle(text)]
fn put_trees(alloc: Global, out: &mut String, items: &[Frozen]) -> Result<(), AllocError>
    ensures { OnOk result (string_bytes out.new
        ≡ string_bytes out.old ++ joined (texts_by walked (trees items.now))) }
{
    for (place, tree) in items.iter().enumerate() {
        put_separator(out, place)?;
        put_tree(alloc, out, tree)?;
    }
    Ok(())
}

/// Appends the entries of a dict with commas between them.
#[cycle(text)]
fn put_pairs(
    alloc: Global,
    out: &mut String,
    keys: &IndexSet<Key>,
    values: &[Frozen],
) -> Result<(), AllocError>
    ensures { OnOk result (string_bytes out.new
        ≡ string_bytes out.old ++ joined (pair_texts_by walked entry_head
        (pairs keys.now.keys values.now))) }
{
    for (place, (key, tree)) in keys.as_slice().iter().zip(values).enumerate() {
        put_separator(out, place)?;
        put_head(out, key)?;
        put_tree(alloc, out, tree)?;
    }
    Ok(())
}

/// Appends the fields that were given, each after its name, with commas between them.
#[cycle(text)]
fn put_fields(
    alloc: Global,
    out: &mut String,
    names: &[Text],
    fields: &[Option<Frozen>],
) -> Result<(), AllocError>
    ensures { OnOk result (string_bytes out.new
        ≡ string_bytes out.old ++ joined (field_texts_by walked names.now (slots fields.now))) }
{
    let mut written = 0usize;
    for (name, field) in names.iter().zip(fields) {
        if let Some(tree) = field {
            put_separator(out, written)?;
            put_field_head(out, name)?;
            put_tree(alloc, out, tree)?;
            written += 1;
        }
    }
    Ok(())
}
