//! The methods of `attr`.
ghost use Rattle.std.specs.Prelude.{◌≡◌};
ghost use Rattle.language.specs.Attr.{kind_named};

use field_names::{FieldName, KnownName};
use values::AttributeKind;

/// The kind of attribute that the method of `attr` with this name declares; None where there is no
/// such method.
pub fn kind_named(name: &FieldName) -> Option<AttributeKind>
    ensures { result ≡ kind_named name.now }
{
    if name.is(KnownName::String) {
        Some(AttributeKind::String)
    } else if name.is(KnownName::Int) {
        Some(AttributeKind::Int)
    } else if name.is(KnownName::Bool) {
        Some(AttributeKind::Bool)
    } else if name.is(KnownName::StringList) {
        Some(AttributeKind::StringList)
    } else if name.is(KnownName::StringDict) {
        Some(AttributeKind::StringDict)
    } else if name.is(KnownName::Label) {
        Some(AttributeKind::Label)
    } else if name.is(KnownName::LabelList) {
        Some(AttributeKind::LabelList)
    } else {
        None
    }
}
