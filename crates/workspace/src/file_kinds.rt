//! What a file is, by its path.

ghost use Rattle.std.specs.Prelude.{◌≡◌};
ghost use Rattle.workspace.specs.FileKinds.{is_build_file, is_module, package_of};

use crate::paths::last_segment;

/// Whether a path is a `BUILD` file's.
pub fn is_build_file(path: &str) -> bool
    ensures { result ≡ is_build_file path.now }
{
    last_segment(path) == "BUILD"
}

/// Whether a path is a module's.
pub fn is_module(path: &str) -> bool
    ensures { result ≡ is_module path.now }
{
    path.ends_with(".bzl")
}

/// The package of a `BUILD` file or a module: its folder.
pub fn package_of(path: &str) -> &str
    ensures { result.now ≡ package_of path.now }
{
    match path.rsplit_once('/') {
        Some((folder, _)) => folder,
        None => "",
    }
}
