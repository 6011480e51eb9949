//! Methods by name.
ghost use Rattle.std.specs.Prelude.{◌≡◌, Some, None};
ghost use Rattle.values.specs.Seeing.{seen};
ghost use Rattle.operations.specs.Fields.{shape_method, list_method, dict_method, string_method};
ghost use Rattle.operations.specs.Fields.{depset_method};

use field_names::{FieldName, KnownName};
use operations::Method;
use values::{Key, LeafRef, Seen};

/// The method of this name that a value has.
pub fn method_named(value: &Seen<'_, '_>, name: &FieldName) -> Option<Method>
    ensures { result ≡ shape_method (seen value.now) name.now }
{
    match value {
        Seen::List(_) => list_method(name),
        Seen::Dict(_) => dict_method(name),
        Seen::Key(Key::Text(_)) => string_method(name),
        Seen::Leaf(LeafRef::Depset(_)) => depset_method(name),
        _ => None,
    }
}

fn list_method(name: &FieldName) -> Option<Method>
    ensures { result ≡ list_method name.now }
{
    if name.is(KnownName::Append) {
        Some(Method::Append)
    } else if name.is(KnownName::Extend) {
        Some(Method::Extend)
    } else {
        None
    }
}

fn dict_method(name: &FieldName) -> Option<Method>
    ensures { result ≡ dict_method name.now }
{
    if name.is(KnownName::Get) {
        Some(Method::Get)
    } else if name.is(KnownName::Keys) {
        Some(Method::Keys)
    } else if name.is(KnownName::Values) {
        Some(Method::Values)
    } else if name.is(KnownName::Items) {
        Some(Method::Items)
    } else {
        None
    }
}

fn string_method(name: &FieldName) -> Option<Method>
    ensures { result ≡ string_method name.now }
{
    if name.is(KnownName::Join) {
        Some(Method::Join)
    } else if name.is(KnownName::Split) {
        Some(Method::Split)
    } else if name.is(KnownName::StartsWith) {
        Some(Method::StartsWith)
    } else if name.is(KnownName::EndsWith) {
        Some(Method::EndsWith)
    } else {
        None
    }
}

fn depset_method(name: &FieldName) -> Option<Method>
    ensures { result ≡ depset_method name.now }
{
    if name.is(KnownName::ToList) {
        Some(Method::ToList)
    } else {
        None
    }
}
