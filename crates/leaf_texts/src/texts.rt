//! The texts of what has no parts.
ghost use Rattle.std.specs.Prelude.{◌≡◌, ◌++◌, codes, map, string_bytes, OnOk};
ghost use Rattle.std.specs.Fmt.{signed_decimal};
ghost use Rattle.depsets.specs.Rose.{label};
ghost use Rattle.depsets.specs.Listed.{walked};
ghost use Rattle.leaf_texts.specs.Texts.{separator, joined, truth_text, file_text, export_text};
ghost use Rattle.leaf_texts.specs.Texts.{exported_text, provider_text, order_text, attribute_text};
ghost use Rattle.leaf_texts.specs.Texts.{object_text, depset_text, element_text, leaf_text};
ghost use Rattle.leaves.specs.Lent.{leaf_at};
ghost use Rattle.leaf_texts.specs.Texts.{key_text, field_head, tuple_end};

use crate::quoting::put_quoted;
use depsets::{Depset, Element, Elements, FileRef, Order};
use keys::Key;
use leaves::{AttributeKind, ExportName, Exported, FunctionRef, LeafRef, Object, ProviderRef};
use plain::Text;
use std::alloc::{AllocError, Global};

/// Appends a whole number.
fn put_number(out: &mut String, number: i64) -> Result<(), AllocError>
    ensures { OnOk result (string_bytes out.new ≡ string_bytes out.old ++ signed_decimal number) }
{
    write!(out, "{number}")
}

/// Appends a bool.
fn put_truth(out: &mut String, truth: bool) -> Result<(), AllocError>
    ensures { OnOk result (string_bytes out.new ≡ string_bytes out.old ++ truth_text truth) }
{
    if truth {
        out.push_str("True")?;
    } else {
        out.push_str("False")?;
    }
    Ok(())
}

/// Appends a text between two others.
fn put_between(out: &mut String, before: &str, text: &str, behind: &str) -> Result<(), AllocError>
    ensures { OnOk result (string_bytes out.new
        ≡ string_bytes out.old ++ (before.now ++ text.now ++ behind.now)) }
{
    out.push_str(before)?;
    out.push_str(text)?;
    out.push_str(behind)
}

/// Appends a File.
fn put_file(out: &mut String, file: &FileRef) -> Result<(), AllocError>
    ensures { OnOk result (string_bytes out.new ≡ string_bytes out.old ++ file_text file.now) }
{
    put_between(out, "<file ", file.path.as_str(), ">")
}

/// Appends what a provider or a rule is called in its module.
fn put_export(out: &mut String, name: &ExportName) -> Result<(), AllocError>
    ensures { OnOk result (string_bytes out.new ≡ string_bytes out.old ++ export_text name.now) }
{
    match name {
        ExportName::Global(global) => out.push_str(global.as_str()),
        ExportName::Making(number) => write!(out, "{number}"),
    }
}

/// Appends the module's path and the name.
fn put_exported(out: &mut String, exported: &Exported) -> Result<(), AllocError>
    ensures { OnOk result (string_bytes out.new
        ≡ string_bytes out.old ++ exported_text exported.now) }
{
    out.push_str(exported.path.as_str())?;
    out.push_str("%")?;
    put_export(out, &exported.name)
}

/// Appends the name of a provider.
///
/// # Errors
///
/// `AllocError` where memory is refused. A part of the text may have been appended then.
pub fn put_provider(out: &mut String, provider: &ProviderRef) -> Result<(), AllocError>
    ensures { OnOk result (string_bytes out.new
        ≡ string_bytes out.old ++ provider_text provider.now) }
{
    match provider {
        ProviderRef::DefaultInfo => out.push_str("DefaultInfo"),
        ProviderRef::Exported(exported) => put_exported(out, exported),
    }
}

/// Appends a provider as a value.
fn put_provider_value(out: &mut String, provider: &ProviderRef) -> Result<(), AllocError>
    ensures { OnOk result (string_bytes out.new
        ≡ string_bytes out.old ++ (codes "<provider " ++ provider_text provider.now ++ codes ">")) }
{
    out.push_str("<provider ")?;
    put_provider(out, provider)?;
    out.push_str(">")
}

/// Appends a rule as a value.
fn put_rule(out: &mut String, rule: &Exported) -> Result<(), AllocError>
    ensures { OnOk result (string_bytes out.new
        ≡ string_bytes out.old ++ (codes "<rule " ++ exported_text rule.now ++ codes ">")) }
{
    out.push_str("<rule ")?;
    put_exported(out, rule)?;
    out.push_str(">")
}

/// Appends a function.
fn put_function(out: &mut String, function: &FunctionRef) -> Result<(), AllocError>
    ensures { OnOk result (string_bytes out.new
        ≡ string_bytes out.old ++ (codes "<function " ++ function.now.path ++ codes "%" ++
        function.now.name ++ codes ">")) }
{
    put_between(out, "<function ", function.path.as_str(), "%")?;
    out.push_str(function.name.as_str())?;
    out.push_str(">")
}

/// How an order is written.
fn order_name(order: Order) -> &'static str
    ensures { result.now ≡ order_text order }
{
    match order {
        Order::Default => "default",
        Order::Postorder => "postorder",
        Order::Preorder => "preorder",
    }
}

/// How a kind of attribute is written.
fn attribute_name(kind: AttributeKind) -> &'static str
    ensures { result.now ≡ attribute_text kind }
{
    match kind {
        AttributeKind::String => "string",
        AttributeKind::Int => "int",
        AttributeKind::Bool => "bool",
        AttributeKind::StringList => "string_list",
        AttributeKind::StringDict => "string_dict",
        AttributeKind::Label => "label",
        AttributeKind::LabelList => "label_list",
    }
}

/// How an object of the language is written.
fn object_name(object: Object) -> &'static str
    ensures { result.now ≡ object_text object }
{
    match object {
        Object::Attr => "<attr>",
        Object::Context => "<ctx>",
        Object::ContextAttr => "<ctx.attr>",
        Object::ContextFiles => "<ctx.files>",
        Object::ContextActions => "<ctx.actions>",
    }
}

/// Appends what stands before the part at a place.
///
/// # Errors
///
/// `AllocError` where memory is refused.
pub fn put_separator(out: &mut String, place: usize) -> Result<(), AllocError>
    ensures { OnOk result (string_bytes out.new ≡ string_bytes out.old ++ separator place) }
{
    if place > 0 {
        out.push_str(", ")?;
    }
    Ok(())
}

/// Appends an element of a depset.
fn put_element(out: &mut String, element: &Element) -> Result<(), AllocError>
    ensures { OnOk result (string_bytes out.new
        ≡ string_bytes out.old ++ element_text element.now) }
{
    match element {
        Element::Text(text) => put_quoted(out, text.as_str()),
        Element::Number(number) => put_number(out, *number),
        Element::Truth(truth) => put_truth(out, *truth),
        Element::Label(text) => out.push_str(text.as_str()),
        Element::File(file) => put_file(out, file.get()),
    }
}

/// Appends the element at a place of a listing.
fn put_element_at(out: &mut String, place: usize, element: &Element) -> Result<(), AllocError>
    ensures { OnOk result (string_bytes out.new
        ≡ string_bytes out.old ++ (separator place ++ element_text element.now)) }
{
    put_separator(out, place)?;
    put_element(out, element)
}

/// Appends elements with commas between them.
fn put_elements(out: &mut String, elements: &Elements<'_>) -> Result<(), AllocError>
    ensures { OnOk result (string_bytes out.new
        ≡ string_bytes out.old ++ joined (map element_text elements.now)) }
{
    for i in 0..elements.len() {
        put_element_at(out, i, elements.at(i))?;
    }
    Ok(())
}

/// Appends the elements of a depset, and what it ends with.
fn put_listed(out: &mut String, elements: &Elements<'_>) -> Result<(), AllocError>
    ensures { OnOk result (string_bytes out.new
        ≡ string_bytes out.old ++ (joined (map element_text elements.now) ++ codes "])")) }
{
    put_elements(out, elements)?;
    out.push_str("])")
}

/// Appends a depset, by its listing.
fn put_depset(alloc: Global, out: &mut String, depset: &Depset) -> Result<(), AllocError>
    ensures { OnOk result (string_bytes out.new
        ≡ string_bytes out.old ++ depset_text (label depset.now).order (walked depset.now)) }
{
    put_between(out, "depset(", order_name(depset.order()), ", [")?;
    let listing = depset.list_whole(alloc)?;
    put_listed(out, &listing.items)
}

/// Appends a leaf.
///
/// # Errors
///
/// `AllocError` where memory is refused. A part of the text may have been appended then.
pub fn put_leaf(alloc: Global, out: &mut String, leaf: LeafRef<'_>) -> Result<(), AllocError>
    ensures { OnOk result (string_bytes out.new
        ≡ string_bytes out.old ++ leaf_text walked (leaf_at leaf.entry)) }
{
    match leaf {
        LeafRef::None => out.push_str("None"),
        LeafRef::Label(text) => out.push_str(text.as_str()),
        LeafRef::File(file) => put_file(out, file.get()),
        LeafRef::Depset(depset) => put_depset(alloc, out, depset),
        LeafRef::Function(function) => put_function(out, function.get()),
        LeafRef::BuiltIn(function) => put_between(out, "<built-in ", function.name(), ">"),
        LeafRef::Provider(provider) => put_provider_value(out, &provider.get().name),
        LeafRef::Rule(rule) => put_rule(out, &rule.get().name),
        LeafRef::Attribute(attribute) => {
            put_between(out, "<attr ", attribute_name(attribute.get().kind), ">")
        }
        LeafRef::Target(_) => out.push_str("<target>"),
        LeafRef::Object(object) => out.push_str(object_name(object)),
    }
}

/// Appends a key of a dict, as a value.
///
/// # Errors
///
/// `AllocError` where memory is refused. A part of the text may have been appended then.
pub fn put_key(out: &mut String, key: &Key) -> Result<(), AllocError>
    ensures { OnOk result (string_bytes out.new ≡ string_bytes out.old ++ key_text key.now) }
{
    match key {
        Key::Text(text) => put_quoted(out, text.as_str()),
        Key::Number(number) => put_number(out, *number),
        Key::Truth(truth) => put_truth(out, *truth),
    }
}

/// Appends what stands before the value of a field.
///
/// # Errors
///
/// `AllocError` where memory is refused. A part of the text may have been appended then.
pub fn put_field_head(out: &mut String, name: &Text) -> Result<(), AllocError>
    ensures { OnOk result (string_bytes out.new ≡ string_bytes out.old ++ field_head name.now) }
{
    out.push_str(name.as_str())?;
    out.push_str("=")
}

/// What a tuple of so many items ends with.
pub fn end_of_tuple(items: usize) -> &'static str
    ensures { result.now ≡ tuple_end items }
{
    if items == 1 { ",)" } else { ")" }
}
