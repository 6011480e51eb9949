//! Rules and their attributes.
ghost use Rattle.std.specs.Prelude.{◌≡◌, IfOk};
ghost use Rattle.targets.specs.Attributes.{is_private};

use crate::{Choices, RuleAttributes, Sequence, TextDict, TextList};
use plain::{Shared, Text};
use std::alloc::AllocError;
use values::{AttributeKind, FunctionRef, Key, Names, Provider};
use workspace::Label;

/// What a target has for an attribute: what it was given, or the attribute's default. No depset
/// stands in it.
pub enum AttributeValue {
    /// A string, a whole number or a bool.
    Key(Key),
    /// Strings, as the frozen list that each reader is lent.
    Strings(Shared<TextList>),
    /// A dict of strings, as the frozen dict that each reader is lent.
    StringDict(Shared<TextDict>),
    /// A label, or None.
    Label(Option<Shared<Label>>),
    /// Labels, in order.
    Labels(Shared<Sequence<Shared<Label>>>),
}

/// Which source files an attribute takes.
pub enum AllowFiles {
    /// All.
    Any,
    /// None.
    Nothing,
    /// Those whose paths end with one of these.
    Ending(Names),
}

/// The declaration of an attribute, as `attr.label_list(..)` makes it. Several rules, and several
/// names of one rule, may have it.
#[derive(Drop)]
pub struct Attribute {
    /// `string`, `int`, `bool`, `string_list`, `string_dict`, `label` or `label_list`.
    pub kind: AttributeKind,
    /// None where no default was given: then that of the kind stands.
    pub default: Option<AttributeValue>,
    /// Whether each target has to give it.
    pub mandatory: bool,
    /// The strings or whole numbers that it takes; all, where there are none.
    pub values: Choices,
    /// A target that it takes offers all providers of one of these lists; any target does where
    /// there are none.
    pub providers: Sequence<Sequence<Shared<Provider>>>,
    /// Which source files it takes, where it is one of labels.
    pub allow_files: AllowFiles,
}

/// An attribute by its name in a rule.
#[derive(Drop)]
pub struct NamedAttribute {
    /// Its name, as `attrs` has it.
    pub name: Text,
    /// Its declaration.
    pub attribute: Shared<Attribute>,
}

/// A rule: the function that implements it, and its attributes in the order of `attrs`; `name`,
/// which every rule has, isn't among them.
#[derive(Drop)]
pub struct Rule {
    /// The function that is called with `ctx`.
    pub implementation: Shared<FunctionRef>,
    /// Its attributes, in the order of `attrs`.
    pub attributes: RuleAttributes,
}

impl AttributeValue {
    /// Another name of the same value: at most a count more, and nothing is copied.
    ///
    /// # Errors
    ///
    /// `AllocError` where a count of names is at its greatest.
    pub fn share(&self) -> Result<AttributeValue, AllocError>
        ensures { IfOk result (λ v. v ≡ self.now) }
    {
        match self {
            AttributeValue::Key(key) => Ok(AttributeValue::Key(key.share()?)),
            AttributeValue::Strings(texts) => Ok(AttributeValue::Strings(texts.share()?)),
            AttributeValue::StringDict(dict) => Ok(AttributeValue::StringDict(dict.share()?)),
            AttributeValue::Label(None) => Ok(AttributeValue::Label(None)),
            AttributeValue::Label(Some(label)) => Ok(AttributeValue::Label(Some(label.share()?))),
            AttributeValue::Labels(labels) => Ok(AttributeValue::Labels(labels.share()?)),
        }
    }
}

impl Drop for AttributeValue {
    fn drop(self) {
        match self {
            AttributeValue::Key(_) => {}
            AttributeValue::Strings(_) => {}
            AttributeValue::StringDict(_) => {}
            AttributeValue::Label(_) => {}
            AttributeValue::Labels(_) => {}
        }
    }
}

impl Drop for AllowFiles {
    fn drop(self) {
        match self {
            AllowFiles::Any => {}
            AllowFiles::Nothing => {}
            AllowFiles::Ending(_) => {}
        }
    }
}

/// Whether an attribute of this name is private.
pub fn is_private(name: &str) -> bool
    ensures { result ≡ is_private name.now }
{
    match name.as_bytes() {
        [first, ..] => *first == b'_',
        [] => false,
    }
}
