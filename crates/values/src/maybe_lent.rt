//! Something of one's own, or lent by what lives longer.
ghost use Rattle.std.specs.Prelude.{◌≡◌, IfOk};

use crate::{Key, Operand, Value};
use indexmap::Equivalent;
use std::alloc::AllocError;
use std::borrow::Cow;
use std::hash::{Hash, Hasher};
use std::marker::Model;

/// Something of one's own, or lent by what lives longer: a key of a dict, which may lie in a linked
/// module, or what a slot holds. To a contract it is what is held or lent.
///
/// It is equal to another, and hashed, as that is.
#[derive(Drop)]
pub struct MaybeLent<'a, T> {
    lies: Cow<'a, T>,
}

impl<'a, T> Model for MaybeLent<'a, T> {
    ghost use Rattle.std.specs.Cow.{cow_value};

    ghost Value = { T };

    ghost coded = { T.code };

    ghost view = { λ m. cow_value m.lies };
}

impl<'a, T> MaybeLent<'a, T> {
    /// What is of one's own.
    pub fn own(value: T) -> MaybeLent<'a, T>
        ensures { result ≡ value }
    {
        MaybeLent {
            lies: Cow::Owned(value),
        }
    }

    /// What is lent.
    pub fn lent(value: &'a T) -> MaybeLent<'a, T>
        ensures { result ≡ value.now }
    {
        MaybeLent {
            lies: Cow::Borrowed(value),
        }
    }

    /// It, where it lies.
    #[inline(always)]
    pub fn get(&self) -> &T
        ensures { result.now ≡ self.now }
    {
        &*self.lies
    }
}

impl<'a> MaybeLent<'a, Key> {
    /// The same key, for what holds it: no count where it is lent, and else at most one.
    ///
    /// # Errors
    ///
    /// `AllocError` where a count is at its greatest.
    pub fn share(&self) -> Result<MaybeLent<'a, Key>, AllocError>
        ensures { IfOk result (λ k. k ≡ self.now) }
    {
        match &self.lies {
            Cow::Borrowed(key) => Ok(MaybeLent::lent(*key)),
            Cow::Owned(key) => Ok(MaybeLent::own(key.share()?)),
        }
    }

    /// The key as a value, for what holds it: no count where it is lent, and else at most one.
    ///
    /// # Errors
    ///
    /// `AllocError` where a count is at its greatest.
    #[inline(always)]
    pub fn operand(&self) -> Result<Operand<'a>, AllocError>
        ensures { IfOk result (λ o. o ≡ Value.Key self.now) }
    {
        match &self.lies {
            Cow::Borrowed(key) => Ok(Operand::lent_key(*key)),
            Cow::Owned(key) => Ok(Operand::own(Value::Key(key.share()?))),
        }
    }
}

impl<'a> Clone for MaybeLent<'a, Key> {
    ghost is_clone = { λ k l. l ≡ k };

    fn clone(&self) -> Result<MaybeLent<'a, Key>, AllocError> {
        self.share()
    }
}

impl<'a, T: PartialEq> PartialEq for MaybeLent<'a, T> {
    ghost eq = { T.eq };

    ghost laws = { T.laws };

    fn eq(&self, other: &MaybeLent<'a, T>) -> bool {
        *self.get() == *other.get()
    }
}

impl<'a, T: Eq> Eq for MaybeLent<'a, T> {
    ghost laws = { T.Eq.laws };
}

impl<'a, T: Hash> Hash for MaybeLent<'a, T> {
    ghost hash_input = { T.hash_input };

    ghost respects_eq = { T.respects_eq };

    fn hash<H: Hasher>(&self, state: &mut H) {
        self.get().hash(state)
    }
}

impl<'a> Equivalent<MaybeLent<'a, Key>> for &Key {
    ghost use Rattle.keys.specs.contracts.key.KeyPartialEq.TheImpl.{eq-value};
    ghost use Rattle.keys.specs.contracts.key.KeyHash.TheImpl.Laws.{respects_eq-law};
    ghost use Rattle.keys.specs.contracts.key.KeyEq.TheImpl.Laws.{laws-law};

    ghost equivalent = { λ q. eq-value.it q.now };

    ghost respects_hash = { λ q. respects_eq-law q.now };

    ghost respects_eq = { λ q. laws-law.congr q.now };

    fn equivalent(&self, key: &MaybeLent<'a, Key>) -> bool {
        **self == *key.get()
    }
}
