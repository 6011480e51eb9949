//! The workspace that is analysed: its files, their paths and kinds, and the labels of targets and
//! files.
//!
//! A path names a file ([`is_path`]), and its last segment says what the file is
//! ([`is_build_file`], [`is_module`]). A label names a target or a file by a package and a name
//! ([`Label`]). A workspace is files with distinct legal paths ([`Workspace`]).
#![tactic(auto)]

mod file_kinds;
mod labels;
mod laws;
mod paths;
mod workspace;

pub use file_kinds::{is_build_file, is_module, package_of};
pub use labels::{Label, LabelRefused, is_label, label_with};
pub use laws::texts_of_labels_are_read;
pub use paths::{PATH_LIMIT, is_path, last_segment};
pub use workspace::{File, TEXT_LIMIT, Workspace, WorkspaceBuilder, WorkspaceRefused};
