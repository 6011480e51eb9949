//! A whole request: from the words of the command line and an input to the report that is written,
//! and to the exit status.
//!
//! [`serve`] reads, analyses and writes, over any reader and writer; [`analyse`] is the analysis
//! alone, of a workspace in memory, and [`report_on_shelf`] that by a [`Team`] of workers at any
//! shelf; [`closing`] says how the program ends, and [`laws`] what holds of every request.
#![tactic(auto)]

mod analysing;
pub mod laws;
mod serving;
mod stops;

pub use analysing::analyse;
pub use answers::{
    Deques, Leftovers, NODE_LIMIT, NoReport, OneQueue, Shelving, Team, report_on_shelf,
};
pub use parallel::Workers;
pub use serving::serve;
pub use stops::{AnalyseStop, ServeStop, closing};
