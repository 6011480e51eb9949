//! The load statements of a file.
ghost use Rattle.std.specs.Prelude.{◌≡◌, ◌++◌, List, IfOk, OnOk, map};
ghost use Rattle.program_tree.specs.ProgramView as view;
ghost use Rattle.loading.specs.Loads.{Load};
ghost use Rattle.evaluation.specs.Workspaces.{with_load, loads_in};

use crate::labels::load_path;
use loading::LoadStatement;
use plain::Text;
use program_tree::{Loaded, Statement, Step};
use std::alloc::{AllocError, Global};
use targets::Sequence;

/// The names that a statement asks for.
fn asked(alloc: Global, items: &[Loaded]) -> Result<Vec<Text>, AllocError>
    ensures { IfOk result (λ v. v.items ≡ map (λ i. i.asked) items.now) }
{
    let mut all = Vec::with_capacity(alloc, items.len())?;
    for item in items {
        all.push(item.asked.share()?)?;
    }
    Ok(all)
}

/// Puts a statement behind the others, if it is a load.
fn add_load(
    alloc: Global,
    path: &Text,
    loads: &mut Sequence<LoadStatement>,
    line: usize,
    statement: &Statement,
) -> Result<(), AllocError>
    ensures { (behind : List Load) → OnOk result (loads.new ++ behind
        ≡ loads.old ++ with_load path.now line (view.statement statement.now) behind) }
{
    match statement {
        Statement::Load(text, items) => {
            let target = load_path(alloc, path.as_str(), text.as_str())?;
            let asked = asked(alloc, items.as_slice())?;
            loads.push(LoadStatement {
                line: line as u64,
                target,
                asked,
            })
        }
        Statement::Define(_) | Statement::If(_, _) | Statement::For(_, _, _) => Ok(()),
        Statement::Assign(_, _) | Statement::AssignAt(_, _, _) | Statement::Add(_, _) => Ok(()),
        Statement::AddAt(_, _, _) | Statement::Evaluate(_) | Statement::Pass => Ok(()),
        Statement::Break | Statement::Continue | Statement::Return(_) => Ok(()),
    }
}

/// The load statements of the file at a path, in order.
///
/// # Errors
///
/// `AllocError` where memory was refused.
pub fn loads_in(
    alloc: Global,
    path: &Text,
    steps: &[Step],
) -> Result<Sequence<LoadStatement>, AllocError>
    ensures { IfOk result (λ ls. ls ≡ loads_in path.now (view.steps steps.now)) }
{
    let mut loads = Sequence::new(alloc);
    for step in steps {
        add_load(alloc, path, &mut loads, step.line, &step.statement)?;
    }
    Ok(loads)
}
