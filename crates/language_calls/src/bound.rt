//! What each file finds bound.
ghost use Rattle.std.specs.Prelude.{◌≡◌};
ghost use Rattle.language.specs.Language.{predeclared_value};

use operands::Operand;
use operations::DefaultInfo;
use program_tree::Predeclared;
use values::{BuiltIn, Key, Leaf, Object, Value};

/// What each file finds bound under a name. `DefaultInfo` is lent.
pub fn predeclared<'a>(default_info: &'a DefaultInfo, name: Predeclared) -> Operand<'a>
    ensures { result ≡ predeclared_value name }
{
    match name {
        Predeclared::NoneValue => Operand::own(Value::Leaf(Leaf::None)),
        Predeclared::TrueValue => Operand::own(Value::Key(Key::Truth(true))),
        Predeclared::FalseValue => Operand::own(Value::Key(Key::Truth(false))),
        Predeclared::LenFunction => built_in(BuiltIn::Len),
        Predeclared::StrFunction => built_in(BuiltIn::Str),
        Predeclared::RangeFunction => built_in(BuiltIn::Range),
        Predeclared::ListFunction => built_in(BuiltIn::List),
        Predeclared::FailFunction => built_in(BuiltIn::Fail),
        Predeclared::DepsetFunction => built_in(BuiltIn::Depset),
        Predeclared::ProviderFunction => built_in(BuiltIn::Provider),
        Predeclared::RuleFunction => built_in(BuiltIn::Rule),
        Predeclared::AttrModule => Operand::own(Value::Leaf(Leaf::Object(Object::Attr))),
        Predeclared::DefaultInfo => Operand::lent(default_info.value().item()),
    }
}

/// A built-in function.
fn built_in<'a>(function: BuiltIn) -> Operand<'a>
    ensures { result ≡ Value.Leaf (Leaf.BuiltIn function) }
{
    Operand::own(Value::Leaf(Leaf::BuiltIn(function)))
}
