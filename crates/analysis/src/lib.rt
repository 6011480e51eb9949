//! What becomes of a target, as far as no evaluation is asked: its dependencies, the checks of what
//! they offer, and its outcome from what its implementation gave.
//!
//! Each call does what a definition of `targets` says.
#![tactic(auto)]

mod checks;
mod dependency;
mod failed;
mod finishing;
mod instances;
mod label_keys;
mod needed;
mod noted;
mod offered;
mod outputs;
mod returned;

pub use checks::first_refused;
pub use dependency::Dependency;
pub use failed::failed_labels;
pub use finishing::finish;
pub use instances::{is_of, offers};
pub use label_keys::{LabelKey, label_key};
pub use needed::Needed;
pub use noted::dependencies;
