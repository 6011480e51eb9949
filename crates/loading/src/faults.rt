//! Why a file has no value.

use plain::Text;

/// Why a file has no globals or targets. `S` are the kinds of syntax faults, `K` those of an
/// evaluation's faults.
#[derive(Drop)]
pub enum LoadFaultKind<S, K> {
    /// Its text is no file of the profile.
    Syntax(S),
    /// A walk along loads leads from it back to itself.
    LoadCycle,
    /// It loads a label at which there is no module.
    MissingFile,
    /// It loads a module that has a fault.
    LoadedModuleFailed,
    /// It loads a name that begins with `_`.
    PrivateName,
    /// It loads a name that the module doesn't bind.
    MissingName,
    /// Its evaluation stopped.
    Evaluation(K),
    /// A provider or rule that it made has no global as its name.
    Unexported,
}

/// A kind of fault, and the place where it stands: a file's path and a line, from 1, or 0 where no
/// line has it.
#[derive(Drop)]
pub struct Placed<K> {
    /// What is wrong.
    pub kind: K,
    /// The path of the file.
    pub path: Text,
    /// From 1; 0 stands for a module as a whole, as where it is frozen.
    pub line: u64,
}

/// How the evaluation of a module, with its freezing and naming, ends without a value.
#[derive(Drop)]
pub enum Ending<K> {
    /// By a fault at a place.
    Faulted(Placed<K>),
    /// With a provider or rule that no global names.
    Unnamed,
}
