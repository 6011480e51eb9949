//! Leaves where they lie.
ghost use Rattle.std.specs.Prelude.{◌≡◌, IfOk};
ghost use Rattle.leaves.specs.Leaves.{can_freeze};
ghost use Rattle.leaves.specs.Lent.{leaf_at};

use crate::{AttributeRef, BuiltIn, FunctionRef, Leaf, Object, Provider, RuleRef};
use depsets::{Depset, FileRef};
use plain::{Shared, Text};
use std::alloc::AllocError;

/// A leaf where it lies: in a value, or as an element of a depset. What is behind a count is
/// lent, and the rest is a copy.
#[derive(Clone, Copy)]
pub enum LeafRef<'b> {
    /// `None`.
    None,
    /// A label, as its text.
    Label(&'b Text),
    /// A File.
    File(&'b Shared<FileRef>),
    /// A depset.
    Depset(&'b Depset),
    /// A function written in Starlark.
    Function(&'b Shared<FunctionRef>),
    /// A built-in function.
    BuiltIn(BuiltIn),
    /// What `provider` gives, or `DefaultInfo`.
    Provider(&'b Shared<Provider>),
    /// What `rule` gives.
    Rule(&'b Shared<RuleRef>),
    /// What a function of `attr` gives.
    Attribute(&'b Shared<AttributeRef>),
    /// A dependency of the target that is analysed, by its place among them.
    Target(usize),
    /// `attr`, `ctx` or a part of `ctx`.
    Object(Object),
}

impl Leaf {
    /// It, where it lies.
    #[inline(always)]
    pub fn lend(&self) -> LeafRef<'_>
        ensures { leaf_at result ≡ self.now }
    {
        match self {
            Leaf::None => LeafRef::None,
            Leaf::Label(text) => LeafRef::Label(text),
            Leaf::File(file) => LeafRef::File(file),
            Leaf::Depset(depset) => LeafRef::Depset(depset),
            Leaf::Function(function) => LeafRef::Function(function),
            Leaf::BuiltIn(function) => LeafRef::BuiltIn(*function),
            Leaf::Provider(provider) => LeafRef::Provider(provider),
            Leaf::Rule(rule) => LeafRef::Rule(rule),
            Leaf::Attribute(attribute) => LeafRef::Attribute(attribute),
            Leaf::Target(place) => LeafRef::Target(*place),
            Leaf::Object(object) => LeafRef::Object(*object),
        }
    }
}

impl<'b> LeafRef<'b> {
    /// Whether it can be frozen: all can but targets, and the objects `attr`, `ctx` and the parts
    /// of `ctx`.
    pub fn can_be_frozen(self) -> bool
        ensures { result ≡ can_freeze (leaf_at self.entry) }
    {
        !matches!(self, LeafRef::Target(_) | LeafRef::Object(_))
    }

    /// The leaf, for what keeps it: at most one count more, and nothing is copied.
    ///
    /// # Errors
    ///
    /// `AllocError` where the count of its names is at its greatest.
    #[inline(always)]
    pub fn share(self) -> Result<Leaf, AllocError>
        ensures { IfOk result (λ l. l ≡ leaf_at self.entry) }
    {
        match self {
            LeafRef::None => Ok(Leaf::None),
            LeafRef::Label(text) => Ok(Leaf::Label(text.share()?)),
            LeafRef::File(file) => Ok(Leaf::File(file.share()?)),
            LeafRef::Depset(depset) => Ok(Leaf::Depset(depset.share()?)),
            LeafRef::Function(function) => Ok(Leaf::Function(function.share()?)),
            LeafRef::BuiltIn(function) => Ok(Leaf::BuiltIn(function)),
            LeafRef::Provider(provider) => Ok(Leaf::Provider(provider.share()?)),
            LeafRef::Rule(rule) => Ok(Leaf::Rule(rule.share()?)),
            LeafRef::Attribute(attribute) => Ok(Leaf::Attribute(attribute.share()?)),
            LeafRef::Target(place) => Ok(Leaf::Target(place)),
            LeafRef::Object(object) => Ok(Leaf::Object(object)),
        }
    }
}
