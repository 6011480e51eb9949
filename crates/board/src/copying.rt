//! Taking what a note knows through a `&`.
//!
//! `once_cell` copies a note through a `&mut` alone. A note is a token without bytes, whose content
//! can be copied, and this is the one function here that is proved by hand from what its memory
//! means.
ghost use Rattle.std.specs.Prelude.{◌≡◌};

use once_cell::race::Note;

/// What `from` knows, and its cell, go to `to`.
pub fn copy_note<V>(from: &Note<V>, to: &mut Note<V>)
    ensures { to.new ≡ from.now }
{}
