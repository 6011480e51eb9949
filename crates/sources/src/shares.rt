//! Other names of load statements: a count more for each text, and no copy.
ghost use Rattle.std.specs.Prelude.{◌≡◌, IfOk};

use loading::LoadStatement;
use plain::Text;
use std::alloc::{AllocError, Global};

/// The same texts.
fn texts(alloc: Global, texts: &[Text]) -> Result<Vec<Text>, AllocError>
    ensures { IfOk result (λ v. v.items ≡ texts.now) }
{
    let mut all = Vec::with_capacity(alloc, texts.len())?;
    for text in texts {
        all.push(text.share()?)?;
    }
    Ok(all)
}

/// The path that a statement names.
fn target(load: &LoadStatement) -> Result<Option<Text>, AllocError>
    ensures { IfOk result (λ t. t ≡ load.now.target) }
{
    match load.target() {
        Some(path) => Ok(Some(path.share()?)),
        None => Ok(None),
    }
}

/// The same statement.
fn statement(alloc: Global, load: &LoadStatement) -> Result<LoadStatement, AllocError>
    ensures { IfOk result (λ l. l ≡ load.now) }
{
    Ok(LoadStatement {
        line: load.line(),
        target: target(load)?,
        asked: texts(alloc, load.asked())?,
    })
}

/// The same statements.
///
/// # Errors
///
/// `AllocError` where memory was refused.
pub fn statements(alloc: Global, loads: &[LoadStatement]) -> Result<Vec<LoadStatement>, AllocError>
    ensures { IfOk result (λ v. v.items ≡ loads.now) }
{
    let mut all = Vec::with_capacity(alloc, loads.len())?;
    for load in loads {
        all.push(statement(alloc, load)?)?;
    }
    Ok(all)
}
