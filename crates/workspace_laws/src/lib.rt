//! What holds of every workspace: its modules and outcomes are coherent, and plain listings change
//! nothing of it, nor of its report.
//!
//! An id of a depset has one tree in all that the modules of a workspace hand on, and the call of
//! an implementation keeps that, together with what it was handed. The code lists a depset and
//! skips each id that it has seen, and so its contracts say; so by listings of whole trees a
//! workspace comes to the same.
//!
//! There is no code here. The contracts of [`laws`] hold of all files:
//!
//! - of modules: `specs/Found` says which depsets stand in a module, `specs/ModuleLaws` what holds
//!   of those of all modules;
//! - of implementations (`specs/TargetLaws`), over the place that `implementations` describes: in
//!   `proofs/`, `Offered` and `Fields` say whose depsets stand in what targets and `ctx` show,
//!   `Actions` that the methods of `ctx.actions` bring none of their own, and `Place` that the
//!   operations of the language keep one tree for an id over that place;
//! - of plain listings: `specs/Places`, `Runs`, `Files` and `Workspaces` define modules, `BUILD`
//!   files, packages and implementations anew by the plain listings of `plain_language`, and
//!   `specs/PlainLaws` says that a workspace is the same;
//! - of reports, which are written by the listing that skips each id that it has seen:
//!   `specs/ReportLaws` says of all that is told together, and of a workspace, that the text is
//!   that of the plain listings.
#![tactic(auto)]

pub mod laws;
