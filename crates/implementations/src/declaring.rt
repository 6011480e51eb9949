//! `ctx.actions.declare_file`.
ghost use Rattle.std.specs.Prelude.{◌≡◌, Ok, Err, Some, MatchResult, IfOk};
ghost use Rattle.ticks.specs.Ticking.{FaultOr};
ghost use Rattle.operations.specs.Arguments.{given};
ghost use Rattle.workspace.specs.Labels.{label_path};
ghost use Rattle.contexts.specs.Actions.{declare_file, declared, file_named};

use calls::argument;
use contexts::Work;
use depsets::FileRef;
use heap::Heap;
use operations::Arguments;
use plain::{Shared, Text};
use state::text_of;
use std::alloc::{AllocError, Global};
use values::{Broken, Kind, Leaf, Value};
use workspace::{Label, is_label};

/// `ctx.actions.declare_file(name)`: a File of the target of a label.
///
/// # Errors
///
/// `arity`; `type`, where the name is no string or makes no path with the package; `key`, where it
/// is declared already.
pub(crate) fn declare_file(
    alloc: Global,
    label: &Label,
    heap: &Heap,
    arguments: &Arguments<'_, '_>,
    work: &mut Work,
) -> Result<Value, Broken>
    ensures { MatchResult result
        (λ v. declare_file label.now heap.now (given arguments.now) work.old ≡ Ok (v, work.new))
        (λ e. FaultOr (declare_file label.now heap.now (given arguments.now) work.old) e) }
{
    let name = match argument("name", arguments) {
        Ok(name) => name,
        Err(kind) => return Err(Broken::Kind(kind)),
    };
    match text_of(&heap.see_item(name.item())) {
        Some(name) => declared(alloc, label, name, work),
        None => Err(Broken::Kind(Kind::Wrong)),
    }
}

/// The File of a name, which is declared; or `type` and then `key`.
fn declared(alloc: Global, label: &Label, name: &Text, work: &mut Work) -> Result<Value, Broken>
    ensures { MatchResult result (λ v. declared label.now work.old name.now ≡ Ok (v, work.new))
        (λ e. FaultOr (declared label.now work.old name.now) e) }
{
    if !is_label(label.package(), name.as_str()) {
        return Err(Broken::Kind(Kind::Wrong));
    }
    let file = file_named(alloc, label, name)?;
    if work.files.has(&file) {
        return Err(Broken::Kind(Kind::Key));
    }
    let shared = file.share()?;
    if work.files.push(shared).is_err() {
        return Err(Broken::NoMemory);
    }
    Ok(Value::Leaf(Leaf::File(file)))
}

/// The File of a name that the target of a label declares: it shares the label's text.
fn file_named(alloc: Global, label: &Label, name: &Text) -> Result<Shared<FileRef>, AllocError>
    ensures { IfOk result (λ f. f ≡ file_named label.now name.now) }
{
    let path = path_below(alloc, label.package(), name)?;
    let owner = label.shared_text().share()?;
    Shared::new(alloc, FileRef::new(path, owner))
}

/// The path of a name in a package; the root package is empty.
fn path_below(alloc: Global, package: &str, name: &Text) -> Result<Text, AllocError>
    ensures { IfOk result (λ t. t ≡ label_path (record {
      «package» = «package».now;
      name = name.now;
    })) }
{
    if package.is_empty() {
        return name.share();
    }
    let length = package.len().saturating_add(name.len()).saturating_add(1);
    let mut path = String::with_capacity(alloc, length)?;
    path.push_str(package)?;
    path.push('/')?;
    path.push_str(name.as_str())?;
    Text::from_string(path)
}
