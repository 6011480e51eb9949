//! The end of a module's evaluation.
ghost use Rattle.std.specs.Prelude.{◌≡◌, Ok, Err, IfOk, MatchOption};
ghost use Rattle.evaluation.specs.Runs.{if_named, module_ended, naming_of};

use crate::handing::{named_defaults, named_globals};
use crate::naming::Naming;
use evaluation::{LoadedValues, Module, TopNames};
use frozen_modules::{Left, freeze_all};
use loading::{Ending, Placed};
use operations::State;
use plain::{Shared, Text};
use std::alloc::{AllocError, Global};
use targets::Declarations;
use values::{Broken, Frozen, Kind};

/// The names that globals give.
fn naming_of(
    alloc: Global,
    path: &Text,
    file: u32,
    names: &TopNames,
    globals: &[Option<Frozen>],
    made: &Declarations,
) -> Result<Naming, AllocError>
    ensures { IfOk result (λ n. n ≡ naming_of path.now file names.now globals.now made.now) }
{
    let mut naming = Naming::of(alloc, path, file, made)?;
    naming.give_all(names, globals)?;
    Ok(naming)
}

/// The module, if everything that it made has a name.
fn module_named(
    alloc: Global,
    naming: &Naming,
    names: Shared<TopNames>,
    left: &Left,
    loaded: LoadedValues,
    made: Declarations,
) -> Result<Option<Module>, AllocError>
    ensures { IfOk result (λ o. MatchOption o
        (if_named naming.now names left.now.globals.items loaded left.now.defaults made
        ≡ Err Ending.Unnamed)
        (λ m. if_named naming.now names left.now.globals.items loaded left.now.defaults made
        ≡ Ok m)) }
{
    if !naming.all_named() {
        return Ok(None);
    }
    let globals = named_globals(alloc, naming, left.globals.as_slice())?;
    let defaults = named_defaults(alloc, naming, left.defaults.as_slice())?;
    Ok(Some(Module {
        names,
        globals,
        loaded,
        defaults,
        made,
    }))
}

/// What a module comes to, once everything is frozen.
fn named_module(
    alloc: Global,
    path: &Text,
    file: u32,
    names: Shared<TopNames>,
    left: &Left,
    loaded: LoadedValues,
    made: Declarations,
) -> Result<Option<Module>, AllocError>
    ensures { let naming = naming_of path.now file names left.now.globals.items made in
        IfOk result (λ o. MatchOption o
        (if_named naming names left.now.globals.items loaded left.now.defaults made
        ≡ Err Ending.Unnamed)
        (λ m. if_named naming names left.now.globals.items loaded left.now.defaults made
        ≡ Ok m)) }
{
    let naming = naming_of(
        alloc,
        path,
        file,
        names.get(),
        left.globals.as_slice(),
        &made,
    )?;
    let module = module_named(alloc, &naming, names, left, loaded, made)?;
    Ok(module)
}

/// A fault of freezing: it stands at line 0 of the module.
fn not_frozen(path: &Text, kind: Kind) -> Result<Ending<Kind>, AllocError>
    ensures { IfOk result
        (λ e. e ≡ Ending.Faulted (record { kind = kind; path = path.now; line = 0 })) }
{
    Ok(Ending::Faulted(Placed {
        kind,
        path: path.share()?,
        line: 0,
    }))
}

/// What the module of a path comes to whose top level, of these names, ended in this state and made
/// this: its globals and its defaults are frozen, and what it made gets its names.
///
/// # Errors
///
/// `AllocError` where memory was refused. The answer is an [`Ending`] where freezing has a fault,
/// or where no global names a provider or a rule that the module made.
pub fn end_module(
    alloc: Global,
    path: &Text,
    names: Shared<TopNames>,
    state: State<'_>,
    made: Declarations,
) -> Result<Result<Module, Ending<Kind>>, AllocError>
    ensures { IfOk result
        (λ r. r ≡ module_ended path.now state.entry.file names state.entry made) }
{
    let State {
        heap,
        mut ticks,
        owner: _,
        depsets: _,
        file,
        globals,
        loaded,
        defaults,
    } = state;
    match freeze_all(alloc, &heap, globals.as_slice(), &defaults, &mut ticks) {
        Ok(left) => {
            let loaded = LoadedValues::of(loaded.to_values(alloc)?);
            match named_module(alloc, path, file, names, &left, loaded, made)? {
                Some(module) => Ok(Ok(module)),
                None => Ok(Err(Ending::Unnamed)),
            }
        }
        Err(Broken::Kind(kind)) => Ok(Err(not_frozen(path, kind)?)),
        Err(Broken::NoMemory) => Err(AllocError),
    }
}
