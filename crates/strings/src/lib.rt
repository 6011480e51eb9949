//! What the language does with texts: [`split`], [`join`] and [`search`], which evaluations call on
//! texts of any bytes. And a type of the language's texts alone, [`AsciiText`]: bytes below 128,
//! shared by all who name them.
//!
//! What each call gives is a definition over lists of bytes (`specs/`). Each looks at a byte a
//! fixed number of times, no test of where a character begins is made, and nothing is built whose
//! size isn't known and allowed.
#![tactic(auto)]

mod bytes;
mod errors;
mod joining;
pub mod laws;
mod making;
pub mod search;
mod splitting;
mod text;

pub use bytes::ByteTexts;
pub use errors::{StringError, StringRefusal};
pub use joining::join;
pub use splitting::split;
pub use text::{AsciiText, MOST_BYTES};
