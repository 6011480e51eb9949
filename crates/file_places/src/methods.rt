//! The methods of `attr`.
ghost use Rattle.leaves.specs.Lent.{leaf_at};
ghost use Rattle.std.specs.Prelude.{◌≡◌};
ghost use Rattle.file_places.specs.Methods.{declared_kind, has_method};

use field_names::FieldName;
use language::kind_named;
use values::{AttributeKind, LeafRef, Object};

/// Whether an object has a method of this name.
pub(crate) fn has_method(owner: LeafRef<'_>, name: &FieldName) -> bool
    ensures { result ≡ has_method (leaf_at owner.entry) name.now }
{
    declared_kind(owner, name).is_some()
}

/// The kind of attribute that a method of an object declares, if it is one of `attr`.
pub(crate) fn declared_kind(owner: LeafRef<'_>, name: &FieldName) -> Option<AttributeKind>
    ensures { result ≡ declared_kind (leaf_at owner.entry) name.now }
{
    match owner {
        LeafRef::Object(Object::Attr) => kind_named(name),
        _ => None,
    }
}
