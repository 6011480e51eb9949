//! That each file is read once, and each module that loads no failed one is evaluated once.
use crate::fake::{Fake, Names};
use crate::rows::{fake_of, workspace_of};
use loading::{Ending, FileRead};
use modules::{Evaluate, Known, Modules, load_all};
use plain::Text;
use std::alloc::{AllocError, Global};
use std::sync::atomic::{AtomicU64, Ordering};
use workspace::Workspace;

/// Five modules that load one another along many ways, one that fails, and one that loads that.
const FILES: &str =
    "a/p.bzl +x; a/q.bzl 1:a/p.bzl:x +y; a/r.bzl 1:a/p.bzl:x 2:a/q.bzl:y +z; a/s.bzl 1:a/p.bzl:x 2:a/q.bzl:y 3:a/r.bzl:z; a/t.bzl 1:a/r.bzl:z 2:a/p.bzl:x; a/u.bzl !7; a/v.bzl 1:a/p.bzl:x 2:a/u.bzl:x";

/// An evaluator that counts what it is asked.
#[derive(Drop)]
struct Counted<'a> {
    fake: &'a Fake,
    read: AtomicU64,
    run: AtomicU64,
}

impl<'a> Evaluate<Names, Names, u8, u8> for Counted<'a> {
    ghost use Rattle.std.specs.Prelude.{Ok};
    ghost use Rattle.modules_tests.specs.Fakes.{file_in};

    ghost meaning = { λ c. record { read = file_in c.fake.now.paths c.fake.now.files.items; globals = λ m. m; run = λ known p t. Ok t } };

    fn read(
        &self,
        alloc: Global,
        path: &Text,
    ) -> Result<Result<FileRead<Names>, (u8, u64)>, AllocError> {
        self.read.fetch_add(1, Ordering::SeqCst);
        self.fake.read(alloc, path)
    }

    fn binds(&self, value: &Names, name: &Text) -> bool {
        self.fake.binds(value, name)
    }

    fn run(
        &self,
        alloc: Global,
        known: &Known<'_, Names, u8, u8>,
        path: &Text,
        tree: &Names,
    ) -> Result<Result<Names, Ending<u8>>, AllocError> {
        self.run.fetch_add(1, Ordering::SeqCst);
        self.fake.run(alloc, known, path, tree)
    }
}

/// How many times files were read, and modules evaluated, to load these files.
fn counts_of(alloc: Global, workspace: &Workspace, fake: &Fake) -> Result<(u64, u64), AllocError> {
    let counted = Counted {
        fake,
        read: AtomicU64::new(0),
        run: AtomicU64::new(0),
    };
    let _modules: Modules<Names, u8, u8> = load_all(alloc, workspace, &counted)?;
    Ok((
        counted.read.load(Ordering::SeqCst),
        counted.run.load(Ordering::SeqCst),
    ))
}

/// The same by their text; None where that isn't a workspace.
fn counts(alloc: Global, files: &str) -> Result<Option<(u64, u64)>, AllocError> {
    let Some(workspace) = workspace_of(alloc, files)? else {
        return Ok(None);
    };
    match fake_of(alloc, &workspace, files)? {
        Some(fake) => Ok(Some(counts_of(alloc, &workspace, &fake)?)),
        None => Ok(None),
    }
}

#[test]
fn each_module_is_evaluated_once(rt: HostRuntime) -> Result<(), AllocError> {
    let counts = counts(rt.alloc(), FILES)?;
    assert!(rt;
        counts == Some((7, 5)),
        "seven files, of which five come to a value"
    );
    Ok(())
}
