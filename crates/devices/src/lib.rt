//! Devices to read from and to write to, and the loops that read all that a source has and write
//! all of a text.
//!
//! A [`Source`] and a [`Sink`] are a reader and a writer that tell what they know of their bytes
//! and count each call that failed, so that a contract can say when a failure is answered;
//! [`Counted`] makes one of each reader and writer of std. Every error counts, an interrupted call
//! too.
#![tactic(auto)]

mod counted;
mod whole;

pub use counted::{Counted, Sink, Source};
pub use whole::{InputStop, WriteFailed, read_input, write_all, write_parts};
