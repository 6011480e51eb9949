//! The targets of a package.
ghost use Rattle.std.specs.Prelude.{◌≡◌, ◌<◌, ◌++◌, ◌∷◌, [], true, false, None, Some, length};
ghost use Rattle.std.specs.Prelude.{slice_get, MatchOption, IfSome, OnOk, OnErr, option_copied};
ghost use Rattle.targets.specs.RuleCalls.{has_declared};
ghost use Rattle.targets.specs.Resolving.{target_with};
ghost use Rattle.rule_calls.specs.Packages.{are_named};

use crate::name_key::NameKey;
use indexmap::{Equivalent, IndexMap};
use plain::{Shared, Text};
use std::alloc::{AllocError, Global};
use std::hash::{Hash, Hasher};
use std::marker::Model;
use targets::Target;
use workspace::Label;

/// The targets that a package has declared so far, in order, each found by its name, which is a
/// part of its label's text.
#[derive(Drop)]
pub struct PackageTargets {
    package: Text,
    by_name: IndexMap<NameKey, Target>,
}

impl Model for PackageTargets {
    ghost use Rattle.std.specs.Prelude.{◌≡◌, true};
    ghost use Rattle.rule_calls.specs.Packages.{Declared, declared_of, are_named};

    ghost Value = { Declared };

    ghost view = { λ d. declared_of d.«package» d.by_name.entries };

    ghost invariant = { λ d. are_named d.«package» d.by_name.entries ≡ true };
}

/// A name, by which what has it is found in a table by text.
#[derive(Clone, Copy)]
pub struct Name<'a> {
    /// Its bytes.
    pub text: &'a str,
}

impl<'a> PartialEq for Name<'a> {
    ghost use Rattle.std.specs.Str.{bytes_eq};
    ghost use Rattle.std.specs.Cmp.{partial_equiv_from_equiv};
    ghost use Rattle.std.specs.Cmp.Lexicographic.{on_texts_equal};

    ghost eq = { λ x y. bytes_eq x.text.now y.text.now };

    ghost laws = { partial_equiv_from_equiv (on_texts_equal (λ x. x.text.now)) };

    fn eq(&self, other: &Name<'a>) -> bool {
        self.text == other.text
    }
}

impl<'a> Eq for Name<'a> {
    ghost use Rattle.std.specs.Cmp.Lexicographic.{on_texts_equal};

    ghost laws = { on_texts_equal (λ x. x.text.now) };
}

impl<'a> Hash for Name<'a> {
    ghost use Rattle.std.specs.Hash as fed;
    ghost use Rattle.std.specs.Cmp.Rules.{hashing};
    ghost use Rattle.std.proofs.Common.{rules};

    ghost hash_input = { λ x. fed.str x.text.now };

    ghost respects_eq = { Prim.search (hashing, rules) };

    fn hash<H: Hasher>(&self, state: &mut H) {
        self.text.hash(state);
    }
}

impl<'a> Equivalent<Text> for Name<'a> {
    ghost use Rattle.std.specs.Hash as fed;
    ghost use Rattle.std.specs.Str.{bytes_eq};
    ghost use Rattle.std.specs.Cmp.Lexicographic.{bytes_decides, nat_list_eq_equiv};
    ghost use Rattle.std.proofs.Common.{ap};

    ghost equivalent = { λ q k. bytes_eq q.text.now k };

    ghost respects_hash = { λ q k h. ap fed.str ((bytes_decides q.text.now k).0 h) };

    ghost respects_eq = { λ q x y. nat_list_eq_equiv.congr q.text.now x y };

    fn equivalent(&self, key: &Text) -> bool {
        self.text == key.as_str()
    }
}

impl<'a> Equivalent<NameKey> for Name<'a> {
    ghost use Rattle.std.specs.Hash as fed;
    ghost use Rattle.std.specs.Str.{bytes_eq};
    ghost use Rattle.std.specs.Cmp.Lexicographic.{bytes_decides, nat_list_eq_equiv};
    ghost use Rattle.std.proofs.Common.{ap};

    ghost equivalent = { λ q k. bytes_eq q.text.now k };

    ghost respects_hash = { λ q k h. ap fed.str ((bytes_decides q.text.now k).0 h) };

    ghost respects_eq = { λ q x y. nat_list_eq_equiv.congr q.text.now x y };

    fn equivalent(&self, key: &NameKey) -> bool {
        self.text == key.as_str()
    }
}

impl PackageTargets {
    /// A package without targets.
    pub fn new(alloc: Global, package: Text) -> PackageTargets
        ensures { result ≡ record { «package» = «package»; targets = [] } }
    {
        PackageTargets {
            package,
            by_name: IndexMap::new(alloc),
        }
    }

    /// The package.
    pub fn package(&self) -> &str
        ensures { result.now ≡ self.now.«package» }
    {
        self.package.as_str()
    }

    /// The target of a label, if the package has declared it.
    pub fn get(&self, label: &Label) -> Option<&Target>
        ensures { option_copied result ≡ target_with label.now self.now.targets }
    {
        if label.package() == self.package.as_str() {
            self.by_name.get(Name { text: label.name() })
        } else {
            None
        }
    }

    /// The target of a label and its place among those that the package has declared, from 0, if it
    /// has declared it.
    pub fn find(&self, label: &Label) -> Option<(usize, &Target)>
        ensures { MatchOption result (target_with label.now self.now.targets ≡ None)
            (λ r. (target_with label.now self.now.targets ≡ Some r.1.now)
            × (slice_get self.now.targets r.0 ≡ Some r.1.now)) }
    {
        if label.package() == self.package.as_str() {
            match self.by_name.get_full(Name { text: label.name() }) {
                Some((place, _, target)) => Some((place, target)),
                None => None,
            }
        } else {
            None
        }
    }

    /// How many targets the package has declared.
    pub fn len(&self) -> usize
        ensures { result ≡ length self.now.targets }
    {
        self.by_name.len()
    }

    /// The target at a place.
    pub fn target(&self, place: usize) -> &Target
        requires { place < length self.now.targets }
        ensures { slice_get self.now.targets place ≡ Some result.now }
    {
        &self.by_name[place]
    }

    /// Whether the package has declared a label.
    pub fn has(&self, label: &Label) -> bool
        ensures { result ≡ has_declared self.now.targets label.now }
    {
        self.get(label).is_some()
    }

    /// Puts a target last. After a refusal of memory they are as they were.
    ///
    /// # Errors
    ///
    /// `AllocError` where memory was refused.
    pub fn push(&mut self, target: Target) -> Result<(), AllocError>
        requires here { target.label.«package» ≡ self.old.«package» }
        requires new { has_declared self.old.targets target.label ≡ false }
        ensures ok { OnOk result (self.new ≡ record {
          «package» = self.old.«package»;
          targets = self.old.targets ++ target ∷ [];
        }) }
        ensures err { OnErr result (self.new ≡ self.old) }
    {
        let name = NameKey::of(&target.label)?;
        self.by_name.insert(name, target)?;
        Ok(())
    }

    /// The label of the target of a name, if the package has declared it.
    pub(crate) fn named(&self, name: &str) -> Option<&Shared<Label>>
        ensures { IfSome result
            (λ l. l.now ≡ record { «package» = self.now.«package»; name = name.now }) }
    {
        match self.by_name.get(Name { text: name }) {
            Some(target) => Some(&target.label),
            None => None,
        }
    }
}
