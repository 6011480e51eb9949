//! The names that lines, parameters and comprehensions bind.

ghost use Rattle.std.specs.Prelude.{◌≡◌, ◌∷◌, ◌++◌, [], List, IfOk, OnOk, map, if◌then◌else◌};
ghost use Rattle.grammar.specs.Bare.{Rest};
ghost use Rattle.grammar.specs.LineView as view;
ghost use Rattle.grammar.specs.BareLines.{Lines, a_line};
ghost use Rattle.grammar.specs.LineView.{form_in, form_of, item_of, line_of, param_of};
ghost use Rattle.grammar.specs.declared.statements.Line.{out-Line};
ghost use Rattle.grammar.specs.TreeView.{clause_of, rests};
ghost use Rattle.program_tree.specs.Names as names;
ghost use Rattle.program_tree.specs.Names.{Name, form_binds, lines_bind, loads_bind, param_name};
ghost use Rattle.program_tree.specs.Names.{passed_on};

use crate::scope::add_names;
use grammar::{Clause, Form, Item, Line, Name, Param};
use std::alloc::{AllocError, Global};

/// Adds the names that a `load` binds.
fn add_items<'t>(found: &mut Vec<Name<'t>>, items: &[Item<'t>]) -> Result<(), AllocError>
    ensures { OnOk result (found.new.items ≡ found.old.items ++ map
        (λ i. i.binds) (map item_of items.now)) }
{
    for item in items {
        found.push(item.binds.share()?)?;
    }
    Ok(())
}

/// Adds a name and others behind it.
fn add_targets<'t>(
    found: &mut Vec<Name<'t>>,
    first: &Name<'t>,
    others: &[Name<'t>],
) -> Result<(), AllocError>
    ensures { OnOk result (found.new.items ≡ found.old.items ++ first.now ∷ others.now) }
{
    found.push(first.share()?)?;
    add_names(found, others)
}

/// Adds the names that a line binds.
fn add_form<'t>(found: &mut Vec<Name<'t>>, form: &Form<'t>) -> Result<(), AllocError>
    ensures { OnOk result (found.new.items ≡ found.old.items ++ form_binds (form_of form.now)) }
{
    match form {
        Form::Load(_, items) => add_items(found, items.as_slice()),
        Form::For(first, others, _) | Form::Assign(first, others, _) => {
            add_targets(found, first, others.as_slice())
        }
        Form::Def(name, _) | Form::Add(name, _) => {
            found.push(name.share()?)?;
            Ok(())
        }
        Form::If(_)
        | Form::Elif(_)
        | Form::Else
        | Form::AssignAt(_, _, _)
        | Form::AddAt(_, _, _)
        | Form::Evaluate(_)
        | Form::Pass
        | Form::Break
        | Form::Continue
        | Form::Return(_) => Ok(()),
    }
}

/// The names that a line binds.
///
/// # Errors
///
/// `AllocError` where memory was refused.
pub fn form_names<'t>(alloc: Global, form: &Form<'t>) -> Result<Vec<Name<'t>>, AllocError>
    ensures { IfOk result (λ v. v.items ≡ form_binds (form_of form.now)) }
{
    let mut found = Vec::new(alloc);
    add_form(&mut found, form)?;
    Ok(found)
}

/// Adds the names of parameters.
///
/// # Errors
///
/// `AllocError` where memory was refused.
pub fn add_params<'t>(found: &mut Vec<Name<'t>>, params: &[Param<'t>]) -> Result<(), AllocError>
    ensures { OnOk result (found.new.items ≡ found.old.items ++ map param_name
        (map param_of params.now)) }
{
    for param in params {
        match param {
            Param::Required(name) | Param::Optional(name, _) => found.push(name.share()?)?,
        }
    }
    Ok(())
}

/// Whether the block of a line binds no names around it: a function keeps its own.
fn keeps_names(form: &Form<'_>) -> bool
    ensures { (xs : List Name) → passed_on (form_of form.now) xs ≡ (if result then [] else xs) }
{
    matches!(form, Form::Def(_, _))
}

/// The lines of the block of a line.
pub fn block_of<'l, 't>(line: &'l Line<'t>) -> &'l [Line<'t>]
    ensures block { result.now ≡ (out-Line line.now).block.items }
    ensures seen { (rest : Lines) → line_of line.now rest
        ≡ a_line (out-Line line.now).number (form_in (out-Line line.now).form)
        (view.lines result.now) rest }
{
    line.block.as_slice()
}

/// Adds the names that a line binds, if it is a `load`.
///
/// # Errors
///
/// `AllocError` where memory was refused.
pub fn add_loaded<'t>(found: &mut Vec<Name<'t>>, line: &Line<'t>) -> Result<(), AllocError>
    ensures { OnOk result ((rest : Lines) → found.new.items ++ loads_bind rest
        ≡ found.old.items ++ loads_bind (line_of line.now rest)) }
{
    match &*line.form {
        Form::Load(_, items) => add_items(found, items.as_slice()),
        _ => Ok(()),
    }
}

/// Adds the names that lines bind, in the order of the text. It calls itself once for each block
/// that is open: 32 at most, and the line of a head.
///
/// # Errors
///
/// `AllocError` where memory was refused.
pub fn add_lines<'t>(found: &mut Vec<Name<'t>>, lines: &[Line<'t>]) -> Result<(), AllocError>
    ensures { OnOk result (found.new.items ≡ found.old.items ++ lines_bind (view.lines lines.now)) }
{
    for line in lines {
        let block = block_of(line);
        add_form(found, &line.form)?;
        if !keeps_names(&line.form) {
            add_lines(found, block)?;
        }
    }
    Ok(())
}

/// Adds the names that a clause binds.
fn add_clause<'t>(found: &mut Vec<Name<'t>>, clause: &Clause<'t>) -> Result<(), AllocError>
    ensures { OnOk result ((r : Rest) → found.new.items ++ names.clause_names r
        ≡ found.old.items ++ names.clause_names (clause_of clause.now r)) }
{
    match clause {
        Clause::For(first, others, _) => add_targets(found, first, others.as_slice()),
        Clause::If(_) => Ok(()),
    }
}

/// The names that the clauses of a comprehension bind.
///
/// # Errors
///
/// `AllocError` where memory was refused.
pub fn clause_names<'t>(alloc: Global, clauses: &[Clause<'t>]) -> Result<Vec<Name<'t>>, AllocError>
    ensures { IfOk result (λ v. v.items ≡ names.clause_names (rests clauses.now)) }
{
    let mut found = Vec::new(alloc);
    for clause in clauses {
        add_clause(&mut found, clause)?;
    }
    Ok(found)
}
