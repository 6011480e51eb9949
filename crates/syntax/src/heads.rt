//! Resolving the names of a line, but for those of its block, by the rules of scopes: what a line
//! binds and the parameters of a function are not predeclared, parameters are distinct, and those
//! with defaults come last.

ghost use Rattle.std.specs.Prelude.{◌≡◌, ◌≤◌, ◌&&◌, IfOk, map};
ghost use Rattle.std.specs.List.{list_all};
ghost use Rattle.grammar.specs.BareDepth.{form_depth, param_depth, params_depth, tree_depth};
ghost use Rattle.grammar.specs.BareLines.{defines};
ghost use Rattle.grammar.specs.LineView.{form_of, item_of, param_of};
ghost use Rattle.grammar.specs.TreeView.{tree_of};
ghost use Rattle.program_tree.specs.Names.{form_binds};
ghost use Rattle.program_tree.specs.ProgramView as view;
ghost use Rattle.program_tree.specs.ProgramView.{terms_onto};
ghost use Rattle.program_tree.specs.Resolved as resolved;
ghost use Rattle.program_tree.specs.Resolved.{Terms, defaults, global_of, with_default};
ghost use Rattle.syntax.specs.Resolves.{Gives, GivesHead, GivesTerm, Keeps};
ghost use Rattle.file_syntax.specs.Scopes.{defaults_last, form_scoped, line_scoped};
ghost use Rattle.file_syntax.specs.Scopes.{none_predeclared, param_scoped, scoped};

use crate::resolver::{Unresolved, bindings, resolve};
use grammar::{Expr, Form, Item, MAX_DEPTH, Name, Param};
use plain::Text;
use program_tree::{Binding, Loaded, Statement, Term};
use scopes::{Scope, add_params, are_distinct, is_free, none_predeclared, texts_of};
use std::alloc::{AllocError, Global};

/// A line with its names resolved, without the lines of its block.
#[derive(Drop)]
pub(crate) enum Head {
    /// A whole statement.
    Simple(Statement),
    If(Term),
    Elif(Term),
    Else,
    For(Vec<Binding>, Term),
    /// `def`, with the number of the name that it binds, the names of its parameters, and the
    /// defaults of the last of them.
    Def(usize, Vec<Text>, Vec<Term>),
}

fn term<'t>(alloc: Global, scope: &mut Scope<'t>, expr: &Expr<'t>) -> Result<Term, Unresolved>
    requires { tree_depth (tree_of expr.now) ≤ 200 }
    ensures { GivesTerm (tree_of expr.now) scope.old result scope.new }
{
    resolve(alloc, scope, expr, MAX_DEPTH)
}

/// Whether no name that a `load` binds is predeclared.
fn items_are_free(items: &[Item<'_>]) -> bool
    ensures { result ≡ none_predeclared (map (λ i. i.binds) (map item_of items.now)) }
{
    for item in items {
        if !is_free(&item.binds) {
            return false;
        }
    }
    true
}

/// Whether no name that a line binds is predeclared.
fn binds_free(form: &Form<'_>) -> bool
    ensures { result ≡ none_predeclared (form_binds (form_of form.now)) }
{
    match form {
        Form::Load(_, items) => items_are_free(items.as_slice()),
        Form::For(first, others, _) | Form::Assign(first, others, _) => {
            is_free(first) && none_predeclared(others.as_slice())
        }
        Form::Def(name, _) | Form::Add(name, _) => is_free(name),
        Form::If(_)
        | Form::Elif(_)
        | Form::Else
        | Form::AssignAt(_, _, _)
        | Form::AddAt(_, _, _)
        | Form::Evaluate(_)
        | Form::Pass
        | Form::Break
        | Form::Continue
        | Form::Return(_) => true,
    }
}

/// Whether the parameters with defaults come last.
fn defaults_last(params: &[Param<'_>]) -> bool
    ensures { result ≡ defaults_last (map param_of params.now) }
{
    let mut had_default = false;
    for param in params {
        match param {
            Param::Optional(_, _) => had_default = true,
            Param::Required(_) => {
                if had_default {
                    return false;
                }
            }
        }
    }
    true
}

/// Adds the default of a parameter, if it has one.
fn add_default<'t>(
    alloc: Global,
    scope: &mut Scope<'t>,
    found: &mut Vec<Term>,
    param: &Param<'t>,
) -> Result<(), Unresolved>
    requires { param_depth (param_of param.now) ≤ 200 }
    ensures kept { Keeps (λ s. param_scoped s (param_of param.now)) scope.old result scope.new }
    ensures found { IfOk result (λ _. (r : Terms)
        → terms_onto (map view.term found.new.items) r
        ≡ terms_onto (map view.term found.old.items)
        (with_default scope.old (param_of param.now) r)) }
{
    match param {
        Param::Required(_) => Ok(()),
        Param::Optional(_, default) => {
            let value = term(alloc, scope, default)?;
            found.push(value)?;
            Ok(())
        }
    }
}

/// The defaults of the last parameters.
fn defaults<'t>(
    alloc: Global,
    scope: &mut Scope<'t>,
    params: &[Param<'t>],
) -> Result<Vec<Term>, Unresolved>
    requires { params_depth (map param_of params.now) ≤ 200 }
    ensures { Gives (λ v. view.terms v.items) (λ s. list_all (param_scoped s)
        (map param_of params.now)) (λ s. defaults s (map param_of params.now)) scope.old result
        scope.new }
{
    let mut found = Vec::new(alloc);
    for param in params {
        add_default(alloc, scope, &mut found, param)?;
    }
    Ok(found)
}

/// A `load`.
fn load<'t>(
    alloc: Global,
    scope: &Scope<'t>,
    path: &Text,
    items: &[Item<'t>],
) -> Result<Statement, AllocError>
    ensures { IfOk result (λ l. view.statement l
        ≡ resolved.load path.now (map (λ i. record
        { asked = i.asked; binds = global_of scope.now i.binds }) (map item_of items.now))) }
{
    let mut found = Vec::new(alloc);
    for item in items {
        found.push(Loaded {
            asked: item.asked.share()?,
            binds: scope.global(&item.binds),
        })?;
    }
    let path = path.share()?;
    Ok(Statement::Load(path, found))
}

/// The head of a function.
fn def<'t>(
    alloc: Global,
    scope: &mut Scope<'t>,
    name: &Name<'t>,
    params: &[Param<'t>],
) -> Result<Head, Unresolved>
    requires { params_depth (map param_of params.now) ≤ 200 }
    ensures { GivesHead form_scoped (defines name.now (map param_of params.now)) scope.old result
        scope.new }
{
    let mut names = Vec::with_capacity(alloc, params.len())?;
    add_params(&mut names, params)?;
    if !are_distinct(alloc, names.as_slice())? {
        return Err(Unresolved::Breaks);
    }
    if !defaults_last(params) {
        return Err(Unresolved::Breaks);
    }
    if !none_predeclared(names.as_slice()) {
        return Err(Unresolved::Breaks);
    }
    let defaults = defaults(alloc, scope, params)?;
    let params = texts_of(alloc, names.as_slice())?;
    Ok(Head::Def(scope.global(name), params, defaults))
}

/// The parts of `BASE[INDEX] = VALUE`, or of the same with `+=`.
fn three<'t>(
    alloc: Global,
    scope: &mut Scope<'t>,
    base: &Expr<'t>,
    at: &Expr<'t>,
    value: &Expr<'t>,
) -> Result<(Box<Term>, Box<Term>, Term), Unresolved>
    requires base { tree_depth (tree_of base.now) ≤ 200 }
    requires at { tree_depth (tree_of at.now) ≤ 200 }
    requires value { tree_depth (tree_of value.now) ≤ 200 }
    ensures { Gives {B = resolved.Term × resolved.Term × resolved.Term}
        (λ t. (view.term t.0.value, view.term t.1.value, view.term t.2))
        (λ s. scoped s (tree_of base.now) && (scoped s (tree_of at.now) && scoped s
        (tree_of value.now))) (λ s. (
          resolved.term s (tree_of base.now),
          resolved.term s
              (tree_of at.now),
          resolved.term s (tree_of value.now),
        )) scope.old result scope.new }
{
    let base = term(alloc, scope, base)?;
    let at = term(alloc, scope, at)?;
    let value = term(alloc, scope, value)?;
    Ok((Box::new(alloc, base)?, Box::new(alloc, at)?, value))
}

/// A line without the rule on what it binds.
fn form_head<'t>(alloc: Global, scope: &mut Scope<'t>, form: &Form<'t>) -> Result<Head, Unresolved>
    requires { form_depth (form_of form.now) ≤ 200 }
    ensures { GivesHead form_scoped (form_of form.now) scope.old result scope.new }
{
    match form {
        Form::Load(path, items) => {
            let made = load(alloc, scope, path, items.as_slice())?;
            Ok(Head::Simple(made))
        }
        Form::Def(name, params) => def(alloc, scope, name, params.as_slice()),
        Form::If(test) => Ok(Head::If(term(alloc, scope, test)?)),
        Form::Elif(test) => Ok(Head::Elif(term(alloc, scope, test)?)),
        Form::Else => Ok(Head::Else),
        Form::For(first, others, operand) => {
            let names = bindings(alloc, scope, first, others.as_slice())?;
            Ok(Head::For(names, term(alloc, scope, operand)?))
        }
        Form::Assign(first, others, value) => {
            let names = bindings(alloc, scope, first, others.as_slice())?;
            let value = term(alloc, scope, value)?;
            Ok(Head::Simple(Statement::Assign(names, value)))
        }
        Form::AssignAt(base, at, value) => {
            let (base, at, value) = three(alloc, scope, base, at, value)?;
            Ok(Head::Simple(Statement::AssignAt(base, at, value)))
        }
        Form::Add(name, value) => {
            let value = term(alloc, scope, value)?;
            Ok(Head::Simple(Statement::Add(scope.binding(name), value)))
        }
        Form::AddAt(base, at, value) => {
            let (base, at, value) = three(alloc, scope, base, at, value)?;
            Ok(Head::Simple(Statement::AddAt(base, at, value)))
        }
        Form::Evaluate(value) => {
            let value = term(alloc, scope, value)?;
            Ok(Head::Simple(Statement::Evaluate(value)))
        }
        Form::Pass => Ok(Head::Simple(Statement::Pass)),
        Form::Break => Ok(Head::Simple(Statement::Break)),
        Form::Continue => Ok(Head::Simple(Statement::Continue)),
        Form::Return(Some(value)) => {
            let value = term(alloc, scope, value)?;
            Ok(Head::Simple(Statement::Return(Some(value))))
        }
        Form::Return(None) => Ok(Head::Simple(Statement::Return(None))),
    }
}

/// A line, but for its block.
///
/// # Errors
///
/// [`Unresolved::Breaks`] where it breaks a rule of scopes. [`Unresolved::NoMemory`] where memory
/// was refused.
pub(crate) fn line_head<'t>(
    alloc: Global,
    scope: &mut Scope<'t>,
    form: &Form<'t>,
) -> Result<Head, Unresolved>
    requires { form_depth (form_of form.now) ≤ 200 }
    ensures { GivesHead line_scoped (form_of form.now) scope.old result scope.new }
{
    if !binds_free(form) {
        return Err(Unresolved::Breaks);
    }
    form_head(alloc, scope, form)
}
