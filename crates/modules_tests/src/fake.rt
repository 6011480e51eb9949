//! An evaluator of small files: a module comes to the names that its file lists.
ghost use Rattle.std.specs.Prelude.{◌≡◌, Ok, IfOk, length};
ghost use Rattle.std.specs.List.{list_any};
ghost use Rattle.std.specs.Str.{bytes_eq};

use load_graph::Paths;
use loading::{Ending, FileRead, LoadStatement};
use modules::{Evaluate, Known};
use plain::Text;
use std::alloc::{AllocError, Global};
use std::marker::Model;

/// The names that a module binds.
#[derive(Drop)]
pub(crate) struct Names {
    pub(crate) names: Vec<Text>,
}

impl Model for Names {
    ghost use Rattle.std.specs.Prelude.{ℕ, List};

    ghost Value = { List (List ℕ) };

    ghost view = { λ n. n.names.items };
}

/// Other names of these texts.
fn texts(alloc: Global, texts: &[Text]) -> Result<Vec<Text>, AllocError>
    ensures { IfOk result (λ v. v.items ≡ texts.now) }
{
    let mut copied = Vec::with_capacity(alloc, texts.len())?;
    for text in texts {
        copied.push(text.share()?)?;
    }
    Ok(copied)
}

impl Names {
    /// The same names.
    fn copied(&self, alloc: Global) -> Result<Names, AllocError>
        ensures { IfOk result (λ n. n ≡ self.now) }
    {
        Ok(Names {
            names: texts(alloc, &self.names)?,
        })
    }

    /// Whether a name is among them.
    fn has(&self, name: &Text) -> bool
        ensures { result ≡ list_any (bytes_eq name.now) self.now }
    {
        self.names.iter().any(|own| name == own)
    }
}

/// Another name of the path that a statement names.
fn target(load: &LoadStatement) -> Result<Option<Text>, AllocError>
    ensures { IfOk result (λ t. t ≡ load.now.target) }
{
    match load.target() {
        Some(path) => Ok(Some(path.share()?)),
        None => Ok(None),
    }
}

/// The same statement.
fn statement(alloc: Global, load: &LoadStatement) -> Result<LoadStatement, AllocError>
    ensures { IfOk result (λ l. l ≡ load.now) }
{
    Ok(LoadStatement {
        line: load.line(),
        target: target(load)?,
        asked: texts(alloc, load.asked())?,
    })
}

/// The same statements.
fn statements(alloc: Global, loads: &[LoadStatement]) -> Result<Vec<LoadStatement>, AllocError>
    ensures { IfOk result (λ v. v.items ≡ loads.now) }
{
    let mut copied = Vec::with_capacity(alloc, loads.len())?;
    for load in loads {
        copied.push(statement(alloc, load)?)?;
    }
    Ok(copied)
}

/// The same file.
fn file(
    alloc: Global,
    file: &Result<FileRead<Names>, (u8, u64)>,
) -> Result<Result<FileRead<Names>, (u8, u64)>, AllocError>
    ensures { IfOk result (λ f. f ≡ file.now) }
{
    match file {
        Ok(read) => Ok(Ok(FileRead {
            loads: statements(alloc, read.loads())?,
            tree: read.tree().copied(alloc)?,
        })),
        Err(fault) => Ok(Err(*fault)),
    }
}

/// A file for each path.
#[derive(Drop)]
pub(crate) struct Fake {
    pub(crate) paths: Paths,
    pub(crate) files: Vec<Result<FileRead<Names>, (u8, u64)>>,
    ghost sized: { length files.items ≡ length paths },
}

impl Evaluate<Names, Names, u8, u8> for Fake {
    ghost use Rattle.std.specs.Prelude.{Ok};
    ghost use Rattle.modules_tests.specs.Fakes.{file_in};

    ghost meaning = { λ f. record { read = file_in f.paths f.files.items; globals = λ m. m; run = λ known p t. Ok t } };

    fn read(
        &self,
        alloc: Global,
        path: &Text,
    ) -> Result<Result<FileRead<Names>, (u8, u64)>, AllocError> {
        match self.paths.find(path) {
            Some(n) => file(alloc, &self.files[n.number()]),
            None => Ok(Err((0, 0))),
        }
    }

    fn binds(&self, value: &Names, name: &Text) -> bool {
        value.has(name)
    }

    fn run(
        &self,
        alloc: Global,
        _known: &Known<'_, Names, u8, u8>,
        _path: &Text,
        tree: &Names,
    ) -> Result<Result<Names, Ending<u8>>, AllocError> {
        Ok(Ok(tree.copied(alloc)?))
    }
}
