//! The files of a workspace, gone through one by one: their faults, and what packages have.
ghost use Rattle.std.specs.Prelude.{◌≡◌, ◌++◌, ◌<◌, Some, OnOk, IfOk, length};
ghost use Rattle.workspace.specs.FileKinds.{package_of};
ghost use Rattle.workspace.specs.Workspaces.{paths_of};
ghost use Rattle.modules.specs.Modules.{fault_in};
ghost use Rattle.packages.specs.Built.{AreBuilt, IsBuilt, IsBuiltAt};
ghost use Rattle.packages.specs.Kept.{HasMore, IsTurn, AreAll, kept_with};

use crate::faults::{package_with, put_module_fault};
use crate::kept::{BuiltPackage, DeclaredTargets, Package};
use indexmap::IndexMap;
use lexer::FaultKind;
use loader::LoadedFiles;
use modules::FileFault;
use parallel::map_places;
use plain::Text;
use rule_calls::Name;
use std::alloc::{AllocError, Global};
use std::thread::Threads;
use values::Kind;
use workspace::{is_build_file, is_module, package_of};

/// What the files that were gone through came to.
#[derive(Drop)]
pub(crate) struct Declared {
    /// What each package has.
    pub packages: IndexMap<Text, Package>,
    /// The faults of files, in the order of their paths.
    pub faults: Vec<FileFault<FaultKind, Kind>>,
}

/// Puts a package, unless one of its name is there.
fn put_package(
    packages: &mut IndexMap<Text, Package>,
    name: Text,
    package: Package,
) -> Result<(), AllocError>
    ensures { OnOk result
        (HasMore name «package» packages.old.entries packages.new.entries) }
{
    if packages
        .get(Name {
            text: name.as_str(),
        })
        .is_none()
    {
        packages.insert(name, package)?;
    }
    Ok(())
}

/// What the `BUILD` file at a path comes to; None of another file.
fn built(
    alloc: Global,
    files: &LoadedFiles,
    path: &Text,
) -> Result<Option<BuiltPackage>, AllocError>
    ensures { IfOk result (IsBuilt files.now.files files.now.limit path.now) }
{
    if !is_build_file(path.as_str()) {
        return Ok(None);
    }
    match files.build_file(alloc, path)? {
        Ok(targets) => Ok(Some(Ok(DeclaredTargets::new(alloc, targets)?))),
        Err(fault) => Ok(Some(Err(fault))),
    }
}

/// What the file at a place comes to.
fn built_at(
    alloc: Global,
    files: &LoadedFiles,
    place: usize,
) -> Result<Option<BuiltPackage>, AllocError>
    requires { place < length (paths_of files.now.files) }
    ensures { IfOk result (IsBuiltAt files.now.files files.now.limit place) }
{
    let paths = files.paths();
    built(alloc, files, &paths[place])
}

/// What each file comes to. Each `BUILD` file is evaluated once, by one of so many threads.
fn built_each<R: Threads + Sync>(
    rt: &R,
    alloc: Global,
    files: &LoadedFiles,
    threads: usize,
) -> Result<Vec<Option<BuiltPackage>>, AllocError>
    ensures { IfOk result (λ all. AreBuilt files.now.files files.now.limit all.items) }
{
    map_places(
        rt,
        alloc,
        files.paths().len(),
        threads,
        &|place: usize| -> Result<Option<BuiltPackage>, AllocError>
            requires { place < length (paths_of files.now.files) }
            ensures { IfOk result (IsBuiltAt files.entry.now.files files.entry.now.limit place) }
        { built_at(alloc, files, place) },
    )
}

/// Puts the package whose `BUILD` file, at a path, came to this, and its fault.
fn declare_package(
    alloc: Global,
    path: &Text,
    built: BuiltPackage,
    declared: &mut Declared,
) -> Result<(), AllocError>
    ensures packages { OnOk result (HasMore (package_of path.now) (kept_with built)
        declared.old.packages.entries declared.new.packages.entries) }
    ensures faults { OnOk result (declared.new.faults.items
        ≡ declared.old.faults.items ++ fault_in path.now (Some built)) }
{
    let package = package_with(path, built, &mut declared.faults)?;
    let name = Text::new(alloc, package_of(path.as_str()))?;
    put_package(&mut declared.packages, name, package)
}

/// Goes through the file at a path, of which it is known what it came to if it is a `BUILD` file.
/// `rest` are the faults of the modules from there on; those of the modules behind it are given
/// back.
fn declare_file<'a>(
    alloc: Global,
    files: &LoadedFiles,
    path: &Text,
    built: Option<BuiltPackage>,
    rest: &'a [FileFault<FaultKind, Kind>],
    declared: &mut Declared,
) -> Result<&'a [FileFault<FaultKind, Kind>], AllocError>
    requires { IsBuilt files.now.files files.now.limit path.now built }
    ensures { IfOk result (λ left. IsTurn files.now.files files.now.limit path.now
        rest.now left.now declared.old.packages.entries declared.old.faults.items
        declared.new.packages.entries declared.new.faults.items) }
{
    if is_module(path.as_str()) {
        return put_module_fault(files.modules(), path, rest, &mut declared.faults);
    }
    match built {
        Some(built) => {
            declare_package(alloc, path, built, declared)?;
            Ok(rest)
        }
        None => Ok(rest),
    }
}

/// Goes through all files, in the order of their paths, of each of which it is known what it came
/// to.
fn put_all(
    alloc: Global,
    files: &LoadedFiles,
    built: Vec<Option<BuiltPackage>>,
) -> Result<Declared, AllocError>
    requires { AreBuilt files.now.files files.now.limit built.items }
    ensures { IfOk result (λ d. AreAll files.now.files files.now.limit
        d.packages.entries d.faults.items) }
{
    let mut declared = Declared {
        packages: IndexMap::new(alloc),
        faults: Vec::new(alloc),
    };
    let mut rest = files.modules().faults();
    let paths = files.paths();
    let mut place = 0;
    for one in built {
        rest = declare_file(alloc, files, &paths[place], one, rest, &mut declared)?;
        place += 1;
    }
    Ok(declared)
}

/// Goes through all files, in the order of their paths. Each `BUILD` file is evaluated once, by one
/// of so many threads.
pub(crate) fn declare_all<R: Threads + Sync>(
    rt: &R,
    alloc: Global,
    files: &LoadedFiles,
    threads: usize,
) -> Result<Declared, AllocError>
    ensures { IfOk result (λ d. AreAll files.now.files files.now.limit
        d.packages.entries d.faults.items) }
{
    let built = built_each(rt, alloc, files, threads)?;
    put_all(alloc, files, built)
}
