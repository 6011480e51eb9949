//! Which calls an implementation may make, and which methods its objects have.
ghost use Rattle.leaves.specs.Lent.{leaf_at};
ghost use Rattle.std.specs.Prelude.{◌≡◌};
ghost use Rattle.contexts.specs.Actions.{method_named};
ghost use Rattle.implementations.specs.Implementations.{refused, attr_refused, has_method};

use contexts::ActionMethod;
use field_names::{FieldName, KnownName};
use language::kind_named;
use values::{BuiltIn, Kind, LeafRef, Object};

/// The fault of a call that an implementation may not make: `place` for `provider`, `rule` and
/// rules, else `type`.
pub(crate) fn refused(callee: LeafRef<'_>) -> Kind
    ensures { result ≡ refused (leaf_at callee.entry) }
{
    match callee {
        LeafRef::BuiltIn(BuiltIn::Provider | BuiltIn::Rule) | LeafRef::Rule(_) => Kind::Place,
        _ => Kind::Wrong,
    }
}

/// The fault of a call of a method of `attr`: these are a module's.
pub(crate) fn attr_refused(name: &FieldName) -> Kind
    ensures { result ≡ attr_refused name.now }
{
    if kind_named(name).is_some() {
        Kind::Place
    } else {
        Kind::Name
    }
}

/// The method of `ctx.actions` of this name.
pub(crate) fn action_named(name: &FieldName) -> Option<ActionMethod>
    ensures { result ≡ method_named name.now }
{
    if name.is(KnownName::DeclareFile) {
        Some(ActionMethod::DeclareFile)
    } else if name.is(KnownName::Write) {
        Some(ActionMethod::Write)
    } else if name.is(KnownName::Run) {
        Some(ActionMethod::Run)
    } else if name.is(KnownName::RunShell) {
        Some(ActionMethod::RunShell)
    } else {
        None
    }
}

/// Whether a value has a method of this name: `attr` and `ctx.actions` alone have some.
pub(crate) fn has_method(owner: LeafRef<'_>, name: &FieldName) -> bool
    ensures { result ≡ has_method (leaf_at owner.entry) name.now }
{
    match owner {
        LeafRef::Object(Object::Attr) => kind_named(name).is_some(),
        LeafRef::Object(Object::ContextActions) => action_named(name).is_some(),
        _ => false,
    }
}
