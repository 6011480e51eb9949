//! A name, as what a text is looked up by.
ghost use Rattle.std.specs.Prelude.{◌≡◌};

use grammar::Name;
use indexmap::Equivalent;
use plain::Text;
use std::hash::{Hash, Hasher};

/// The bytes that a text has to have to be found.
#[derive(Clone, Copy)]
pub(crate) struct Spelt<'a> {
    text: &'a str,
}

impl<'a> Spelt<'a> {
    pub(crate) fn of(name: &'a Name<'_>) -> Spelt<'a>
        ensures { result.text.now ≡ name.now }
    {
        Spelt {
            text: name.as_str(),
        }
    }
}

impl<'a> PartialEq for Spelt<'a> {
    ghost use Rattle.std.specs.Str.{bytes_eq};
    ghost use Rattle.std.specs.Cmp.{partial_equiv_from_equiv};
    ghost use Rattle.std.specs.Cmp.Lexicographic.{on_texts_equal};

    ghost eq = { λ x y. bytes_eq x.text.now y.text.now };

    ghost laws = { partial_equiv_from_equiv (on_texts_equal (λ x. x.text.now)) };

    fn eq(&self, other: &Spelt<'a>) -> bool {
        self.text == other.text
    }
}

impl<'a> Eq for Spelt<'a> {
    ghost use Rattle.std.specs.Cmp.Lexicographic.{on_texts_equal};

    ghost laws = { on_texts_equal (λ x. x.text.now) };
}

impl<'a> Hash for Spelt<'a> {
    ghost use Rattle.std.specs.Hash as fed;
    ghost use Rattle.std.specs.Cmp.Rules.{hashing};
    ghost use Rattle.std.proofs.Common.{rules};

    ghost hash_input = { λ x. fed.str x.text.now };

    ghost respects_eq = { Prim.search (hashing, rules) };

    fn hash<H: Hasher>(&self, state: &mut H) {
        self.text.hash(state);
    }
}

impl<'a> Equivalent<Text> for Spelt<'a> {
    ghost use Rattle.std.specs.Hash as fed;
    ghost use Rattle.std.specs.Str.{bytes_eq};
    ghost use Rattle.std.specs.Cmp.Lexicographic.{bytes_decides, nat_list_eq_equiv};
    ghost use Rattle.std.proofs.Common.{ap};

    ghost equivalent = { λ q k. bytes_eq q.text.now k };

    ghost respects_hash = { λ q k h. ap fed.str ((bytes_decides q.text.now k).0 h) };

    ghost respects_eq = { λ q x y. nat_list_eq_equiv.congr q.text.now x y };

    fn equivalent(&self, key: &Text) -> bool {
        self.text == key.as_str()
    }
}
