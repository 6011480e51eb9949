//! What the table of a board is made about, for contracts alone.
//!
//! The rule of the table speaks of the plan and the number of passes. No step reads them, so a key
//! is a token without bytes, and no copy of the plan is made.
ghost use Rattle.std.specs.Prelude.{◌≡◌, ℕ, List};
ghost use Rattle.std.specs.Coded.{coded_list, coded_ℕ};
ghost use base.Fml.{ftrue};

use std::marker::{Model, PhantomData};

/// How a key is read off a value.
pub trait Describes<X> {
    ghost plan: { X → List (List ℕ) };

    ghost passes: { X → ℕ };
}

/// A plan and a number of passes. It has no bytes and owns nothing.
pub struct BoardKey {
    marker: PhantomData<()>,
    pub ghost plan: { List (List ℕ) } by { coded_list (coded_list coded_ℕ) },
    pub ghost passes: { ℕ },
}

impl Model for BoardKey {
    ghost also_owns = { λ _. ftrue };
}

impl BoardKey {
    /// The key that the value describes.
    pub fn of<X, D: Describes<X>>(x: &X) -> BoardKey
        ensures { (result.plan ≡ D.plan x.now) × (result.passes ≡ D.passes x.now) }
    {
        let _ = x;
        BoardKey {
            marker: PhantomData,
        }
    }
}

impl Drop for BoardKey {
    fn drop(self) {
        let Self { marker: _ } = self;
    }
}
