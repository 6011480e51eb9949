//! Names, as a text that is read has them.
//!
//! To a contract a `Name` is the list of its bytes. One that stands in the text itself owns no
//! memory, so a tree is made with no copy of its names.
ghost use Rattle.std.specs.Prelude.{◌≡◌, IfOk};

use plain::Text;
use std::alloc::{AllocError, Global};
use std::hash::{Hash, Hasher};
use std::marker::Model;

/// Where the bytes of a name stand.
#[derive(Drop)]
enum Spelled<'t> {
    /// In the text that was read.
    Here(&'t str),
    /// In a text of their own, as of a string that a `load` asks for.
    Made(Text),
}

/// A name, for as long as the text that it is read from.
///
/// It is equal to another, and hashed, by its bytes.
#[derive(Drop)]
pub struct Name<'t> {
    spelled: Spelled<'t>,
}

impl<'t> Model for Name<'t> {
    ghost use Rattle.std.specs.Prelude.{ℕ, List};
    ghost use Rattle.grammar.specs.NameBytes.{name_bytes};

    ghost Value = { List ℕ };

    ghost view = { λ n. name_bytes n.spelled };
}

impl<'t> Name<'t> {
    /// The name that a part of the text spells.
    pub fn new(part: &'t str) -> Name<'t>
        ensures { result ≡ part.now }
    {
        Name {
            spelled: Spelled::Here(part),
        }
    }

    /// The name that a text of its own spells.
    pub fn from_text(text: Text) -> Name<'t>
        ensures { result ≡ text }
    {
        Name {
            spelled: Spelled::Made(text),
        }
    }

    /// Its bytes, as a `str`.
    pub fn as_str(&self) -> &str
        ensures { result.now ≡ self.now }
    {
        match &self.spelled {
            Spelled::Here(part) => *part,
            Spelled::Made(text) => text.as_str(),
        }
    }

    /// The same name once more: a copy of a reference, or one count more.
    ///
    /// # Errors
    ///
    /// `AllocError` where the count of a text's names is at its greatest.
    pub fn share(&self) -> Result<Name<'t>, AllocError>
        ensures { IfOk result (λ n. n ≡ self.now) }
    {
        match &self.spelled {
            Spelled::Here(part) => Ok(Name::new(*part)),
            Spelled::Made(text) => Ok(Name::from_text(text.share()?)),
        }
    }

    /// A text of its bytes, which outlives the text that was read.
    ///
    /// # Errors
    ///
    /// `AllocError` where memory for a copy was refused.
    pub fn to_text(&self, alloc: Global) -> Result<Text, AllocError>
        ensures { IfOk result (λ t. t ≡ self.now) }
    {
        match &self.spelled {
            Spelled::Here(part) => Text::new(alloc, *part),
            Spelled::Made(text) => text.share(),
        }
    }
}

impl<'t> PartialEq for Name<'t> {
    ghost use Rattle.std.specs.Str.{bytes_eq};
    ghost use Rattle.std.specs.Cmp.{partial_equiv_from_equiv};
    ghost use Rattle.std.specs.Cmp.Lexicographic.{nat_list_eq_equiv};

    ghost eq = { bytes_eq };

    ghost laws = { partial_equiv_from_equiv nat_list_eq_equiv };

    fn eq(&self, other: &Name<'t>) -> bool {
        self.as_str() == other.as_str()
    }
}

impl<'t> Eq for Name<'t> {
    ghost use Rattle.std.specs.Cmp.Lexicographic.{nat_list_eq_equiv};

    ghost laws = { nat_list_eq_equiv };
}

impl<'t> Hash for Name<'t> {
    ghost use Rattle.std.specs.Hash as fed;
    ghost use Rattle.std.specs.Cmp.Rules.{hashing};
    ghost use Rattle.std.proofs.Common.{rules};

    ghost hash_input = { fed.str };

    ghost respects_eq = { Prim.search (hashing, rules) };

    fn hash<H: Hasher>(&self, state: &mut H) {
        self.as_str().hash(state);
    }
}
