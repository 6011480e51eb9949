//! Fields.
ghost use Rattle.leaves.specs.Lent.{leaf_at};
ghost use Rattle.std.specs.Prelude.{◌≡◌, Ok, Err, Some, None, IfOk};
ghost use Rattle.values.specs.Seeing.{seen};
ghost use Rattle.values.specs.Shape.{shape};
ghost use Rattle.operations.specs.States.{Does, Gives};
ghost use Rattle.operations.specs.Fields.{field, shape_field, leaf_field, label_field};
ghost use Rattle.operations.specs.Fields.{file_field};

use crate::parts::{basename, name, package};
use field_names::{FieldName, KnownName};
use operands::Operand;
use operations::State;
use plain::Text;
use std::alloc::{AllocError, Global};
use values::{Broken, FileRef, Item, Key, Kind, LeafRef, Seen, Value};

/// `value.name` of an instance, a label or a File. What is lent in an instance is lent, and so is
/// the path of a File that is.
///
/// # Errors
///
/// `name`, where there is no such field; a method that isn't called is none. `NoMemory` where
/// memory was refused.
pub fn field<'a>(
    alloc: Global,
    state: &State<'a>,
    value: &Operand<'a>,
    name: &FieldName,
) -> Result<Operand<'a>, Broken>
    ensures { Does (field value.now name.now) state.now result state.now }
{
    match field_of(alloc, state, value, name)? {
        Some(value) => Ok(value),
        None => Err(Broken::Kind(Kind::Name)),
    }
}

/// The field of a value, if there is one.
pub(crate) fn field_of<'a>(
    alloc: Global,
    state: &State<'a>,
    value: &Operand<'a>,
    name: &FieldName,
) -> Result<Option<Operand<'a>>, Broken>
    ensures { Gives (Ok (shape_field (shape state.now.heap value.now) name.now)) result }
{
    if let Some(value) = value.lent_seen() {
        return lent_field(alloc, &value, name);
    }
    match state.heap.see_item(value.item()) {
        Seen::Instance(provider, slots) => Ok(making::field_operand(provider, slots, name.text())?),
        Seen::Leaf(leaf) => own_field(alloc, leaf, name),
        _ => Ok(None),
    }
}

/// The field of what a value that is lent shows, if there is one.
fn lent_field<'a>(
    alloc: Global,
    value: &Seen<'a, 'a>,
    name: &FieldName,
) -> Result<Option<Operand<'a>>, Broken>
    ensures { Gives (Ok (shape_field (seen value.now) name.now)) result }
{
    match value {
        Seen::Instance(provider, slots) => Ok(making::field_operand(
            provider,
            *slots,
            name.text(),
        )?),
        Seen::Leaf(leaf) => leaf_field(alloc, *leaf, name),
        _ => Ok(None),
    }
}

/// The field of a label or a File of one's own.
fn own_field<'a>(
    alloc: Global,
    leaf: LeafRef<'_>,
    name: &FieldName,
) -> Result<Option<Operand<'a>>, Broken>
    ensures { Gives (Ok (leaf_field (leaf_at leaf.entry) name.now)) result }
{
    match leaf_field(alloc, leaf, name)? {
        Some(value) => Ok(Some(value.into_own()?)),
        None => Ok(None),
    }
}

/// The field of a label or a File.
fn leaf_field<'a>(
    alloc: Global,
    leaf: LeafRef<'a>,
    name: &FieldName,
) -> Result<Option<Operand<'a>>, Broken>
    ensures { Gives (Ok (leaf_field (leaf_at leaf.entry) name.now)) result }
{
    match leaf {
        LeafRef::Label(label) => label_field(alloc, label, name),
        LeafRef::File(file) => Ok(file_field(alloc, file.get(), name)?),
        _ => Ok(None),
    }
}

/// `package` and `name` of a label.
fn label_field<'a>(
    alloc: Global,
    label: &Text,
    field: &FieldName,
) -> Result<Option<Operand<'a>>, Broken>
    ensures { Gives (Ok (label_field label.now field.now)) result }
{
    if field.is(KnownName::Package) {
        let package = package(alloc, label)?;
        Ok(Some(string(package)))
    } else if field.is(KnownName::Name) {
        Ok(Some(string(name(alloc, label)?)))
    } else {
        Ok(None)
    }
}

/// `path` and `basename` of a File. The path is lent.
fn file_field<'a>(
    alloc: Global,
    file: &'a FileRef,
    field: &FieldName,
) -> Result<Option<Operand<'a>>, AllocError>
    ensures { IfOk result (λ r. r ≡ file_field file.now field.now) }
{
    if field.is(KnownName::Path) {
        Ok(Some(Operand::lent(Item::Key(file.path.key()))))
    } else if field.is(KnownName::Basename) {
        Ok(Some(string(basename(alloc, file.path.text())?)))
    } else {
        Ok(None)
    }
}

/// A string that was made.
fn string<'a>(text: Text) -> Operand<'a>
    ensures { result ≡ Value.Key (Key.Text text) }
{
    Operand::own(Value::Key(Key::Text(text)))
}
