//! The lines of providers.
ghost use Rattle.std.specs.Prelude.{◌≡◌, ◌++◌, string_bytes, OnOk};
ghost use Rattle.std.specs.List.{flat_map};
ghost use Rattle.depsets.specs.Listed.{walked};
ghost use Rattle.values.specs.Tree.{slots};
ghost use Rattle.values.specs.View.{node_branch};
ghost use Rattle.reporting.specs.Lines.{fields_text, field_text, given_text, instance_line};
ghost use Rattle.reporting.specs.Lines.{provider_line};

use leaf_texts::{put_field_head, put_provider};
use plain::Text;
use printing::put_tree;
use std::alloc::{AllocError, Global};
use values::{Frozen, Held, Node};

/// Appends a field that was given, after a space.
fn put_given(alloc: Global, out: &mut String, name: &Text, value: &Frozen) -> Result<(), AllocError>
    ensures { OnOk result (string_bytes out.new
        ≡ string_bytes out.old ++ given_text walked name.now value.now) }
{
    out.push_str(" ")?;
    put_field_head(out, name)?;
    put_tree(alloc, out, value)
}

/// Appends a field, if it was given.
fn put_field(
    alloc: Global,
    out: &mut String,
    name: &Text,
    field: &Option<Frozen>,
) -> Result<(), AllocError>
    ensures { OnOk result (string_bytes out.new
        ≡ string_bytes out.old ++ field_text walked name.now field.now) }
{
    match field {
        Some(value) => put_given(alloc, out, name, value),
        None => Ok(()),
    }
}

/// Appends the fields that were given, each after its name.
fn put_fields(
    alloc: Global,
    out: &mut String,
    names: &[Text],
    fields: &[Option<Frozen>],
) -> Result<(), AllocError>
    ensures { OnOk result (string_bytes out.new
        ≡ string_bytes out.old ++ fields_text walked names.now (slots fields.now)) }
{
    for (name, field) in names.iter().zip(fields) {
        put_field(alloc, out, name, field)?;
    }
    Ok(())
}

/// Appends the line of an instance of a provider.
fn put_instance(alloc: Global, out: &mut String, node: &Node) -> Result<(), AllocError>
    ensures { OnOk result (string_bytes out.new
        ≡ string_bytes out.old ++ instance_line walked (node_branch node.now)) }
{
    let Node::Instance(provider, fields) = node else {
        return Ok(());
    };
    let provider = provider.get();
    out.push_str("  provider ")?;
    put_provider(out, &provider.name)?;
    put_fields(alloc, out, provider.fields.as_slice(), fields.as_slice())?;
    out.push_str("\n")
}

/// Appends the line of a provider.
fn put_provider_line(alloc: Global, out: &mut String, tree: &Frozen) -> Result<(), AllocError>
    ensures { OnOk result (string_bytes out.new
        ≡ string_bytes out.old ++ provider_line walked tree.now) }
{
    match tree.held() {
        Held::Branch(limb) => put_instance(alloc, out, limb.node()),
        Held::Key(_) | Held::Leaf(_) => Ok(()),
    }
}

/// Appends the lines of providers, in order.
pub(crate) fn put_providers(
    alloc: Global,
    out: &mut String,
    providers: &[Frozen],
) -> Result<(), AllocError>
    ensures { OnOk result (string_bytes out.new
        ≡ string_bytes out.old ++ flat_map (provider_line walked) providers.now) }
{
    for provider in providers {
        put_provider_line(alloc, out, provider)?;
    }
    Ok(())
}
