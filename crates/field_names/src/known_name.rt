//! The names that built-in values, targets and objects know.
ghost use Rattle.std.specs.Prelude.{◌≡◌};
ghost use Rattle.field_names.specs.Names.{known_as};

/// A name of a field or of a method that the language or its rules define.
#[derive(Clone, Copy, PartialEq, Eq, Debug)]
pub enum KnownName {
    Actions,
    Append,
    Attr,
    Basename,
    Bool,
    DeclareFile,
    EndsWith,
    Extend,
    Files,
    Get,
    Int,
    Items,
    Join,
    Keys,
    Label,
    LabelList,
    Name,
    Package,
    Path,
    Run,
    RunShell,
    Split,
    StartsWith,
    String,
    StringDict,
    StringList,
    ToList,
    Values,
    Write,
}

/// The known name that a text is, if it is one.
pub(crate) fn known_as(text: &str) -> Option<KnownName>
    ensures { result ≡ known_as text.now }
{
    match text {
        "actions" => Some(KnownName::Actions),
        "append" => Some(KnownName::Append),
        "attr" => Some(KnownName::Attr),
        "basename" => Some(KnownName::Basename),
        "bool" => Some(KnownName::Bool),
        "declare_file" => Some(KnownName::DeclareFile),
        "endswith" => Some(KnownName::EndsWith),
        "extend" => Some(KnownName::Extend),
        "files" => Some(KnownName::Files),
        "get" => Some(KnownName::Get),
        "int" => Some(KnownName::Int),
        "items" => Some(KnownName::Items),
        "join" => Some(KnownName::Join),
        "keys" => Some(KnownName::Keys),
        "label" => Some(KnownName::Label),
        "label_list" => Some(KnownName::LabelList),
        "name" => Some(KnownName::Name),
        "package" => Some(KnownName::Package),
        "path" => Some(KnownName::Path),
        "run" => Some(KnownName::Run),
        "run_shell" => Some(KnownName::RunShell),
        "split" => Some(KnownName::Split),
        "startswith" => Some(KnownName::StartsWith),
        "string" => Some(KnownName::String),
        "string_dict" => Some(KnownName::StringDict),
        "string_list" => Some(KnownName::StringList),
        "to_list" => Some(KnownName::ToList),
        "values" => Some(KnownName::Values),
        "write" => Some(KnownName::Write),
        _ => None,
    }
}
