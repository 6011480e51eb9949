//! Fields of targets, of `ctx` and of its parts.
ghost use Rattle.leaves.specs.Lent.{leaf_at};
ghost use Rattle.std.specs.Prelude.{◌≡◌, Ok, Err, Some, None, IfOk};
ghost use Rattle.std.specs.Prelude.{slice_get};
ghost use Rattle.depsets.specs.Listed.{walked};
ghost use Rattle.operations.specs.Items.{or_fault};
ghost use Rattle.operations.specs.States.{Gives};
ghost use Rattle.contexts.specs.Fields.{field, attr_field, files_field};
ghost use Rattle.contexts.specs.Fields.{context_field, object_value};
ghost use Rattle.contexts.specs.Fields.{target_field};

use crate::context::{TargetContext, attribute_place};
use crate::dependencies::Dependencies;
use crate::files::files_in;
use crate::kept::FileLists;
use field_names::{FieldName, KnownName};
use operands::Operand;
use std::alloc::{AllocError, Global};
use values::{Broken, Item, Kind, Leaf, LeafRef, Object, Value};

/// A field of a target or of an object, in the implementation of a target. Each is lent, or is soon
/// made; a list of `ctx.files` is made at its first read.
///
/// # Errors
///
/// `name`, where there is no such field; of `ctx.files` `large`, where there are too many Files for
/// a list; `NoMemory` where memory was refused.
pub fn field<'a, 'b, I: FileLists>(
    alloc: Global,
    context: &'a TargetContext<'b, I>,
    owner: LeafRef<'_>,
    name: &FieldName,
) -> Result<Operand<'a>, Broken>
    ensures { Gives (field walked context.now.target.now context.now.dependencies
        context.now.label.now (leaf_at owner.entry) name.now) result }
{
    match owner {
        LeafRef::Target(place) => or_name(target_field(&context.dependencies, place, name)),
        LeafRef::Object(Object::Context) => { or_name(context_field(context, name)) }
        LeafRef::Object(Object::ContextAttr) => { or_name(attr_field(alloc, context, name)?) }
        LeafRef::Object(Object::ContextFiles) => files_field(alloc, context, name),
        _ => Err(Broken::Kind(Kind::Name)),
    }
}

/// A value, or `name`.
fn or_name<'a>(value: Option<Operand<'a>>) -> Result<Operand<'a>, Broken>
    ensures { Gives (or_fault Kind.Name value.entry) result }
{
    match value {
        Some(value) => Ok(value),
        None => Err(Broken::Kind(Kind::Name)),
    }
}

/// A field of the target at a place: all are lent.
fn target_field<'a, 'b>(
    dependencies: &'a Dependencies<'b>,
    place: usize,
    name: &FieldName,
) -> Option<Operand<'a>>
    ensures { result ≡ target_field (slice_get dependencies.now place) name.now }
{
    let Some(dependency) = dependencies.at(place) else {
        return None;
    };
    if name.is(KnownName::Label) {
        Some(Operand::lent(dependency.tree.item()))
    } else if name.is(KnownName::Files) {
        files_in(dependencies.instances(place), dependencies.info())
    } else {
        None
    }
}

/// A field of `ctx`: the label is lent.
fn context_field<'a, 'b, I: FileLists>(
    context: &'a TargetContext<'b, I>,
    name: &FieldName,
) -> Option<Operand<'a>>
    ensures { result ≡ context_field context.now.label.now name.now }
{
    if name.is(KnownName::Label) {
        Some(Operand::lent(context.own_label()))
    } else if name.is(KnownName::Attr) {
        Some(object_value(Object::ContextAttr))
    } else if name.is(KnownName::Files) {
        Some(object_value(Object::ContextFiles))
    } else if name.is(KnownName::Actions) {
        Some(object_value(Object::ContextActions))
    } else {
        None
    }
}

/// An object as a value.
fn object_value<'a>(object: Object) -> Operand<'a>
    ensures { result ≡ object_value object }
{
    Operand::own(Value::Leaf(Leaf::Object(object)))
}

/// A field of `ctx.attr`: the name, or what the target has for an attribute.
fn attr_field<'a, 'b, I: FileLists>(
    alloc: Global,
    context: &'a TargetContext<'b, I>,
    name: &FieldName,
) -> Result<Option<Operand<'a>>, AllocError>
    ensures { IfOk result (λ o. o ≡ attr_field context.now.target.now context.now.dependencies
        context.now.label.now name.now) }
{
    if name.is(KnownName::Name) {
        return Ok(Some(context.own_name(alloc)?));
    }
    context.attribute(alloc, name)
}

/// A field of `ctx.files`, which is lent once it was listed.
fn files_field<'a, 'b, I: FileLists>(
    alloc: Global,
    context: &'a TargetContext<'b, I>,
    name: &FieldName,
) -> Result<Operand<'a>, Broken>
    ensures { Gives (files_field walked context.now.target.now context.now.dependencies
        name.now) result }
{
    match attribute_place(context.target, name) {
        Some(place) => context.files_at(alloc, place),
        None => Err(Broken::Kind(Kind::Name)),
    }
}
