//! What names stand for, and those that each file finds bound.

ghost use Rattle.std.specs.Prelude.{◌≡◌};
ghost use Rattle.program_tree.specs.Names.{predeclared_value, predeclared_function};
ghost use Rattle.program_tree.specs.Names.{predeclared_for_rules, predeclared};

/// What each file finds bound, whatever it binds itself.
#[derive(Clone, Copy, PartialEq, Eq, Debug)]
pub enum Predeclared {
    /// `None`.
    NoneValue,
    /// `True`.
    TrueValue,
    /// `False`.
    FalseValue,
    /// `len`.
    LenFunction,
    /// `str`.
    StrFunction,
    /// `range`.
    RangeFunction,
    /// `list`.
    ListFunction,
    /// `fail`.
    FailFunction,
    /// `depset`.
    DepsetFunction,
    /// `provider`.
    ProviderFunction,
    /// `rule`.
    RuleFunction,
    /// `attr`.
    AttrModule,
    /// `DefaultInfo`.
    DefaultInfo,
}

/// What a name stands for.
#[derive(Clone, Copy, PartialEq, Eq, Debug)]
pub enum Binding {
    /// A slot of the function or of the top level around: its own, or one of the comprehensions
    /// around. The parameters of a function have its first slots, then the names that its lines
    /// bind, each once, by their first bindings; those of a comprehension stand behind them.
    Slot(usize),
    /// A name of the file's top level, counted by first bindings. Those that are loaded come first.
    Global(usize),
    /// What each file finds bound.
    Builtin(Predeclared),
}

fn predeclared_value(name: &str) -> Option<Predeclared>
    ensures { result ≡ predeclared_value name.now }
{
    match name {
        "None" => Some(Predeclared::NoneValue),
        "True" => Some(Predeclared::TrueValue),
        "False" => Some(Predeclared::FalseValue),
        _ => None,
    }
}

fn predeclared_function(name: &str) -> Option<Predeclared>
    ensures { result ≡ predeclared_function name.now }
{
    match name {
        "len" => Some(Predeclared::LenFunction),
        "str" => Some(Predeclared::StrFunction),
        "range" => Some(Predeclared::RangeFunction),
        "list" => Some(Predeclared::ListFunction),
        "fail" => Some(Predeclared::FailFunction),
        _ => None,
    }
}

fn predeclared_for_rules(name: &str) -> Option<Predeclared>
    ensures { result ≡ predeclared_for_rules name.now }
{
    match name {
        "depset" => Some(Predeclared::DepsetFunction),
        "provider" => Some(Predeclared::ProviderFunction),
        "rule" => Some(Predeclared::RuleFunction),
        "attr" => Some(Predeclared::AttrModule),
        "DefaultInfo" => Some(Predeclared::DefaultInfo),
        _ => None,
    }
}

/// What a name stands for in each file that doesn't bind it; None where it isn't predeclared. The
/// names are those of the Starlark specification and of Bazel's documentation that this project's
/// profile has.
pub fn predeclared_as(name: &str) -> Option<Predeclared>
    ensures { result ≡ predeclared name.now }
{
    if let Some(value) = predeclared_value(name) {
        return Some(value);
    }
    if let Some(function) = predeclared_function(name) {
        return Some(function);
    }
    predeclared_for_rules(name)
}
