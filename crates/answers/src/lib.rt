//! The answer to a request for labels of a workspace: what becomes of each, by any number of
//! workers, as a report.
//!
//! [`report_on`] reads and evaluates the files of a workspace ([`loader`], [`packages`]), finds the
//! labels that are reached ([`graph`]), has workers analyse them ([`pool`]), each after its
//! dependencies ([`LabelAnalysis`]), and tells what they found ([`reporting`]). What the report
//! says is defined in `specs/Answers` by no order of work: by the outcome of each label.
#![tactic(auto)]

mod found;
mod label;
pub mod laws;
mod letting_go;
mod refused;
mod report;
mod team;

pub use label::LabelAnalysis;
pub use letting_go::Leftovers;
pub use refused::NoReport;
pub use report::{NODE_LIMIT, report_on, report_on_shelf};
pub use team::{Deques, OneQueue, Shelving, Team};
