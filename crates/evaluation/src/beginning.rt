//! What an evaluation begins with.
ghost use Rattle.std.specs.Prelude.{◌≡◌, [], IfOk, None, length, replicate};
ghost use Rattle.evaluation.specs.Runs.{first_state, state_of_target};

use heap::Heap;
use operands::Bindings;
use operations::{Defaults, State};
use plain::Text;
use std::alloc::{AllocError, Global};
use values::{Fields, Items, Ticks};
use workspace::Label;

/// So many names, none of which is bound.
fn unbound<'a>(alloc: Global, count: usize) -> Result<Fields<'a>, AllocError>
    ensures { IfOk result (λ f. f ≡ replicate count None) }
{
    let mut fields = Fields::with_capacity(alloc, count)?;
    for _ in 0..count {
        fields.push(None)?;
    }
    Ok(fields)
}

/// The defaults of so many functions, which have none.
fn no_defaults<'a>(alloc: Global, count: usize) -> Result<Defaults<'a>, AllocError>
    ensures { IfOk result (λ d. d ≡ replicate count []) }
{
    let mut defaults = Defaults::new(alloc);
    for _ in 0..count {
        defaults.push(Items::new(alloc))?;
    }
    Ok(defaults)
}

/// The state of a file before anything was done: its path, its number among the files, how many
/// names its top level binds, and how many functions it has.
///
/// # Errors
///
/// `AllocError` where memory was refused.
pub fn first_state<'a>(
    alloc: Global,
    limit: u64,
    owner: &Text,
    file: u32,
    names: usize,
    functions: usize,
) -> Result<State<'a>, AllocError>
    ensures { IfOk result (λ s. s ≡ first_state limit owner.now file names functions) }
{
    Ok(State {
        heap: Heap::new(alloc),
        ticks: Ticks::new(limit),
        owner: owner.share()?,
        depsets: 0,
        file,
        globals: unbound(alloc, names)?,
        loaded: Bindings::unbound(alloc, names)?,
        defaults: no_defaults(alloc, functions)?,
    })
}

/// The number that no file has: how many there are. More files than a `u32` counts are refused as
/// memory is.
fn number_past(paths: &[Text]) -> Result<u32, AllocError>
    ensures { IfOk result (λ n. n ≡ length paths.now) }
{
    match u32::try_from(paths.len()) {
        Ok(number) => Ok(number),
        Err(_) => Err(AllocError),
    }
}

/// The state of a target before anything was done, in a workspace with files of these paths.
///
/// # Errors
///
/// `AllocError` where memory was refused, or where there are more files than a `u32` counts.
pub fn state_of_target<'a>(
    alloc: Global,
    limit: u64,
    label: &Label,
    paths: &[Text],
) -> Result<State<'a>, AllocError>
    ensures { IfOk result (λ s. s ≡ state_of_target limit label.now (length paths.now)) }
{
    first_state(alloc, limit, label.shared_text(), number_past(paths)?, 0, 0)
}
