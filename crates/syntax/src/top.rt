//! The rules of what the top level of a file binds: no name a second time, and nothing is added to
//! one.

ghost use Rattle.std.specs.Prelude.{◌≡◌, ◌++◌, [], ℕ, List, None, IfOk, length, take, true};
ghost use Rattle.grammar.specs.LineView as view;
ghost use Rattle.grammar.specs.LineView.{form_of};
ghost use Rattle.program_tree.specs.Names.{Scope as Around, among, file_scope, form_binds};
ghost use Rattle.program_tree.specs.Names.{loads_bind, or_else};
ghost use Rattle.syntax.specs.Resolves.{binds_anew};
ghost use Rattle.file_syntax.specs.Scopes.{lines_fault, top_fault};

use grammar::{Form, Line, Name};
use indexmap::IndexSet;
use scopes::{Scope, add_lines, add_loaded, bind_anew, form_names};
use std::alloc::{AllocError, Global};

/// The scope of the top level of a file.
///
/// # Errors
///
/// Where memory was refused.
pub(crate) fn file_scope<'t>(alloc: Global, lines: &[Line<'t>]) -> Result<Scope<'t>, AllocError>
    ensures { IfOk result (λ s. s ≡ file_scope (view.lines lines.now)) }
{
    let mut names = Vec::new(alloc);
    add_lines(&mut names, lines)?;
    Scope::new(alloc, names.as_slice())
}

/// How many names loads bind.
///
/// # Errors
///
/// Where memory was refused.
pub(crate) fn count_loaded(alloc: Global, lines: &[Line<'_>]) -> Result<usize, AllocError>
    ensures { IfOk result (λ n. n ≡ length (loads_bind (view.lines lines.now))) }
{
    let mut names = Vec::new(alloc);
    for line in lines {
        add_loaded(&mut names, line)?;
    }
    Ok(names.len())
}

/// Binds what a line of the top level binds beside the names that were bound before, and tells
/// whether it may.
fn binds_anew<'t>(
    alloc: Global,
    before: &mut IndexSet<Name<'t>>,
    form: &Form<'t>,
) -> Result<bool, AllocError>
    ensures told { IfOk result (λ b. b ≡ binds_anew before.old.keys (form_of form.now)) }
    ensures bound { IfOk result (λ b. b ≡ true → (x : List ℕ)
        → among x before.new.keys ≡ among x (form_binds (form_of form.now) ++ before.old.keys)) }
{
    let names = form_names(alloc, form)?;
    if !bind_anew(before, names.as_slice())? {
        return Ok(false);
    }
    Ok(!matches!(form, Form::Add(_, _)))
}

/// How many lines of a top level stand before the first that binds what it may not, and the number
/// of that line.
pub(crate) fn until_rebound(
    alloc: Global,
    lines: &[Line<'_>],
) -> Result<(usize, Option<usize>), AllocError>
    ensures found { IfOk result (λ r. (s : Around)
        → top_fault s [] (view.lines lines.now)
        ≡ or_else (lines_fault s (view.lines (take r.0 lines.now))) r.1) }
    ensures whole { IfOk result (λ r. r.1 ≡ None → take r.0 lines.now ≡ lines.now) }
{
    let mut before = IndexSet::new(alloc);
    for (place, line) in lines.iter().enumerate() {
        if !binds_anew(alloc, &mut before, &line.form)? {
            return Ok((place, Some(line.number)));
        }
    }
    Ok((lines.len(), None))
}
