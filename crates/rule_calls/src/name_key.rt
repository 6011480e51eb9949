//! Labels as keys of a table, found by their names.
ghost use Rattle.std.specs.Prelude.{◌≡◌, IfOk};

use plain::Shared;
use std::alloc::AllocError;
use std::hash::{Hash, Hasher};
use std::marker::Model;
use workspace::Label;

/// A label as a key, compared and hashed by its name alone. To a contract it is the name. The name
/// is a part of the label's text, so the key takes no text of its own.
#[derive(Drop)]
pub struct NameKey {
    label: Shared<Label>,
}

impl Model for NameKey {
    ghost use Rattle.std.specs.Prelude.{ℕ, List};

    ghost Value = { List ℕ };

    ghost view = { λ c. c.label.name };
}

impl NameKey {
    /// The name of a label.
    ///
    /// # Errors
    ///
    /// `AllocError` where the count of those who share the label is at its greatest.
    pub fn of(label: &Shared<Label>) -> Result<NameKey, AllocError>
        ensures { IfOk result (λ c. c ≡ label.now.name) }
    {
        let label = label.share()?;
        Ok(NameKey { label })
    }

    /// Its bytes.
    pub fn as_str(&self) -> &str
        ensures { result.now ≡ self.now }
    {
        self.label.get().name()
    }
}

impl PartialEq for NameKey {
    ghost use Rattle.std.specs.Str.{bytes_eq};
    ghost use Rattle.std.specs.Cmp.{partial_equiv_from_equiv};
    ghost use Rattle.std.specs.Cmp.Lexicographic.{nat_list_eq_equiv};

    ghost eq = { bytes_eq };

    ghost laws = { partial_equiv_from_equiv nat_list_eq_equiv };

    fn eq(&self, other: &NameKey) -> bool {
        self.as_str() == other.as_str()
    }
}

impl Eq for NameKey {
    ghost use Rattle.std.specs.Cmp.Lexicographic.{nat_list_eq_equiv};

    ghost laws = { nat_list_eq_equiv };
}

impl Hash for NameKey {
    ghost use Rattle.std.specs.Hash as fed;
    ghost use Rattle.std.specs.Cmp.Rules.{hashing};
    ghost use Rattle.std.proofs.Common.{rules};

    ghost hash_input = { fed.str };

    ghost respects_eq = { Prim.search (hashing, rules) };

    fn hash<H: Hasher>(&self, state: &mut H) {
        self.as_str().hash(state);
    }
}
