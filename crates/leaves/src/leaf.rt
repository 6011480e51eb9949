//! Values without parts that can be visited, and no keys: labels, Files, and what a module or a
//! target's evaluation makes. A leaf is a tag and one word, it is plain data to a contract, and it
//! stands in a heap and in a frozen value alike.
ghost use Rattle.std.specs.Prelude.{◌≡◌, ◌++◌, ◌∷◌, [], IfOk, OnOk, OnErr};
ghost use Rattle.leaves.specs.Leaves.{same_provider, same_rule, same_function, can_freeze};
ghost use Rattle.leaves.specs.Leaves.{built_in_text};

use depsets::{Depset, FileRef};
use first_places::PlacedNames;
use plain::{Shared, Text};
use std::alloc::{AllocError, Global};
use std::marker::Model;

/// A value without parts that equality would visit, which is no key of a dict.
pub enum Leaf {
    /// `None`.
    None,
    /// A label, as its text.
    Label(Text),
    /// A File.
    File(Shared<FileRef>),
    /// A depset.
    Depset(Depset),
    /// A function written in Starlark.
    Function(Shared<FunctionRef>),
    /// A built-in function.
    BuiltIn(BuiltIn),
    /// What `provider` gives, or `DefaultInfo`.
    Provider(Shared<Provider>),
    /// What `rule` gives.
    Rule(Shared<RuleRef>),
    /// What a function of `attr` gives.
    Attribute(Shared<AttributeRef>),
    /// A dependency of the target that is analysed, by its place among them.
    Target(usize),
    /// `attr`, `ctx` or a part of `ctx`.
    Object(Object),
}

/// What a module made, by numbers: that of the module's file among those that are linked, and its
/// own among those of its kind that the module makes.
#[derive(Clone, Copy, PartialEq, Eq, Debug)]
pub struct MadeId {
    /// The number of the module's file among those that are linked.
    pub module: u32,
    /// Its own number among those of its kind that the module makes.
    pub number: u32,
}

/// A function written in Starlark. It is told from others by its numbers; its texts, the path of
/// its module and its name there, are for reports alone.
pub struct FunctionRef {
    /// Its numbers.
    pub id: MadeId,
    /// The path of its module.
    pub path: Text,
    /// Its name in the module.
    pub name: Text,
}

/// What a provider or a rule is called: by the first global of its module that has it as its value,
/// and until the module's end by its number among those that the module has made.
pub enum ExportName {
    /// The name of the global.
    Global(Text),
    /// Its number among those that the module has made.
    Making(u64),
}

/// How a provider or a rule is printed: the path of the module that made it, and what it is called
/// there.
pub struct Exported {
    /// The path of the module that made it.
    pub path: Text,
    /// What it is called there.
    pub name: ExportName,
}

/// How a provider is printed: `DefaultInfo`, which every file knows, or one that a module made.
pub enum ProviderRef {
    /// `DefaultInfo`, which every file knows.
    DefaultInfo,
    /// One that a module made.
    Exported(Exported),
}

/// A provider: its numbers, where a module made it, how it is printed, and the names of its fields,
/// in order. It is told from others by its numbers alone.
pub struct Provider {
    /// None for `DefaultInfo`, which no module makes.
    pub id: Option<MadeId>,
    /// How it is printed.
    pub name: ProviderRef,
    /// The names of its fields, in order.
    pub fields: PlacedNames,
}

/// A rule: its numbers, by which it is told from others, and how it is printed.
pub struct RuleRef {
    /// Its numbers.
    pub id: MadeId,
    /// How it is printed.
    pub name: Exported,
}

/// The built-in functions that every file knows.
#[derive(Clone, Copy, PartialEq, Eq, Debug)]
pub enum BuiltIn {
    Depset,
    Fail,
    Len,
    List,
    Provider,
    Range,
    Rule,
    Str,
}

/// The kinds of attributes (Bazel's documentation of `attr`).
#[derive(Clone, Copy, PartialEq, Eq, Debug)]
pub enum AttributeKind {
    String,
    Int,
    Bool,
    StringList,
    StringDict,
    Label,
    LabelList,
}

/// An attribute declaration: its kind, the path of the module that made it, and its number among
/// those of the module.
pub struct AttributeRef {
    /// Its kind.
    pub kind: AttributeKind,
    /// The path of the module that made it.
    pub path: Text,
    /// Its number among the declarations of the module.
    pub number: u64,
}

/// The objects `attr`, `ctx`, `ctx.attr`, `ctx.files` and `ctx.actions`, each of a type of its own.
#[derive(Clone, Copy, PartialEq, Eq, Debug)]
pub enum Object {
    /// `attr`
    Attr,
    /// `ctx`
    Context,
    /// `ctx.attr`
    ContextAttr,
    /// `ctx.files`
    ContextFiles,
    /// `ctx.actions`
    ContextActions,
}

/// Names, in order.
#[derive(Drop)]
pub struct Names {
    names: Vec<Text>,
}

impl Model for Names {
    ghost use Rattle.std.specs.Prelude.{ℕ, List};

    ghost Value = { List (List ℕ) };

    ghost view = { λ n. n.names.items };
}

impl Names {
    /// No names.
    pub fn new(alloc: Global) -> Names
        ensures { result ≡ [] }
    {
        Names {
            names: Vec::new(alloc),
        }
    }

    /// Puts a name last. After a refusal of memory they are as they were.
    ///
    /// # Errors
    ///
    /// `AllocError` where memory is refused.
    pub fn push(&mut self, name: Text) -> Result<(), AllocError>
        ensures ok { OnOk result (self.new ≡ self.old ++ name ∷ []) }
        ensures err { OnErr result (self.new ≡ self.old) }
    {
        self.names.push(name)?;
        Ok(())
    }

    /// All of them, in order.
    pub fn as_slice(&self) -> &[Text]
        ensures { result.now ≡ self.now }
    {
        self.names.as_slice()
    }

    /// The same names, each found at its first place.
    ///
    /// # Errors
    ///
    /// `AllocError` where memory is refused.
    pub fn placed(self, alloc: Global) -> Result<PlacedNames, AllocError>
        ensures { IfOk result (λ names. names ≡ self) }
    {
        PlacedNames::of(alloc, self.names)
    }
}

impl Provider {
    /// Whether both are the same provider: by their numbers.
    pub fn is_same(&self, other: &Provider) -> bool
        ensures { result ≡ same_provider self.now other.now }
    {
        self.id == other.id
    }
}

impl RuleRef {
    /// Whether both are the same rule: by their numbers.
    pub fn is_same(&self, other: &RuleRef) -> bool
        ensures { result ≡ same_rule self.now other.now }
    {
        self.id == other.id
    }
}

impl FunctionRef {
    /// Whether both are the same function: by their numbers.
    pub fn is_same(&self, other: &FunctionRef) -> bool
        ensures { result ≡ same_function self.now other.now }
    {
        self.id == other.id
    }
}

impl BuiltIn {
    /// Its name in the language.
    pub fn name(self) -> &'static str
        ensures { result.now ≡ built_in_text self }
    {
        match self {
            BuiltIn::Depset => "depset",
            BuiltIn::Fail => "fail",
            BuiltIn::Len => "len",
            BuiltIn::List => "list",
            BuiltIn::Provider => "provider",
            BuiltIn::Range => "range",
            BuiltIn::Rule => "rule",
            BuiltIn::Str => "str",
        }
    }
}

impl Leaf {
    /// Whether it can be frozen: all can but targets, and the objects `attr`, `ctx` and the parts
    /// of `ctx`.
    pub fn can_be_frozen(&self) -> bool
        ensures { result ≡ can_freeze self.now }
    {
        self.lend().can_be_frozen()
    }

    /// Another name of the same value: at most one count more, and nothing is copied.
    ///
    /// # Errors
    ///
    /// `AllocError` where the count of its names is at its greatest.
    #[inline(always)]
    pub fn share(&self) -> Result<Leaf, AllocError>
        ensures { IfOk result (λ l. l ≡ self.now) }
    {
        self.lend().share()
    }
}

// The drops of these are written out: a derived one would stand in full at each place where a value
// may be dropped.

impl Drop for Leaf {
    fn drop(self) {
        match self {
            Leaf::None => {}
            Leaf::Label(_) => {}
            Leaf::File(_) => {}
            Leaf::Depset(_) => {}
            Leaf::Function(_) => {}
            Leaf::BuiltIn(_) => {}
            Leaf::Provider(_) => {}
            Leaf::Rule(_) => {}
            Leaf::Attribute(_) => {}
            Leaf::Target(_) => {}
            Leaf::Object(_) => {}
        }
    }
}

impl Drop for FunctionRef {
    fn drop(self) {
        let FunctionRef {
            id: _,
            path: _,
            name: _,
        } = self;
    }
}

impl Drop for ExportName {
    fn drop(self) {
        match self {
            ExportName::Global(_) => {}
            ExportName::Making(_) => {}
        }
    }
}

impl Drop for Exported {
    fn drop(self) {
        let Exported { path: _, name: _ } = self;
    }
}

impl Drop for ProviderRef {
    fn drop(self) {
        match self {
            ProviderRef::DefaultInfo => {}
            ProviderRef::Exported(_) => {}
        }
    }
}

impl Drop for Provider {
    fn drop(self) {
        let Provider {
            id: _,
            name: _,
            fields: _,
        } = self;
    }
}

impl Drop for RuleRef {
    fn drop(self) {
        let RuleRef { id: _, name: _ } = self;
    }
}

impl Drop for AttributeRef {
    fn drop(self) {
        let AttributeRef {
            kind: _,
            path: _,
            number: _,
        } = self;
    }
}
