//! The statements of lines, with their names resolved: blocks in the place of lines, and the lines
//! of a condition as one statement. The lines of a block are gone through from the last to the
//! first.

ghost use Rattle.std.specs.Prelude.{◌≡◌, ◌≤◌, ◌<◌, ◌+◌, ◌^◌, [], IfOk, OnOk, max, reverse};
ghost use Rattle.grammar.specs.BareDepth.{form_depth, lines_depth};
ghost use Rattle.grammar.specs.BareLines.{Lines};
ghost use Rattle.grammar.specs.LineView as seen;
ghost use Rattle.grammar.specs.LineView.{form_in, form_of, line_of};
ghost use Rattle.grammar.specs.declared.statements.Line.{out-Line};
ghost use Rattle.program_tree.specs.Names.{Scope as Around, scope_of};
ghost use Rattle.program_tree.specs.ProgramView as view;
ghost use Rattle.program_tree.specs.Resolved as resolved;
ghost use Rattle.program_tree.specs.Resolved.{Branches, begun, head, next_number, no_steps};
ghost use Rattle.program_tree.specs.Resolved.{steps_of, with_line, with_number};
ghost use Rattle.syntax.specs.Resolves.{FollowsOn, IsLater, IsOwn, Places, PlacesSteps, back};
ghost use Rattle.syntax.specs.Resolves.{before_lines, behind_seen, head_seen, line_depth};
ghost use Rattle.syntax.specs.Resolves.{own_fault};
ghost use Rattle.file_syntax.specs.Scopes.{line_scoped, lines_fault, top_fault, unless};

use crate::heads::{Head, line_head};
use crate::resolver::Unresolved;
use crate::top::until_rebound;
use grammar::{Form, Line};
use plain::Text;
use program_tree::{Branch, Function, Statement, Step, Term};
use scopes::{Levels, Scope, add_lines, add_params, block_of, steps_slots};
use std::alloc::{AllocError, AllocFailed, Global};

/// Why the lines of a file aren't resolved.
#[derive(Clone, Copy, PartialEq, Eq, Debug)]
pub(crate) enum Stopped {
    /// This line is the first that breaks a rule of scopes, by its number.
    At(usize),
    /// Memory was refused.
    NoMemory,
}

impl From<AllocError> for Stopped {
    ghost use Rattle.std.specs.Prelude.{◌≡◌};
    ghost use Rattle.syntax.specs.declared.steps.Stopped.TheVariants.{NoMemory};

    ghost from_gives = { λ _ e. e ≡ NoMemory };

    fn from(_: AllocError) -> Self {
        Stopped::NoMemory
    }
}

impl<T: Drop> From<AllocFailed<T>> for Stopped {
    ghost use Rattle.std.specs.Prelude.{◌≡◌};
    ghost use Rattle.syntax.specs.declared.steps.Stopped.TheVariants.{NoMemory};

    ghost from_gives = { λ _ e. e ≡ NoMemory };

    fn from(_: AllocFailed<T>) -> Self {
        Stopped::NoMemory
    }
}

/// The statements of a block, and how many slots the names there have.
#[derive(Drop)]
pub(crate) struct Inner {
    slots: usize,
    steps: Vec<Step>,
}

/// What lines are to the line before them.
#[derive(Drop)]
pub(crate) struct Behind {
    /// The branches that they have for an `if` before them, the last one first.
    branches: Vec<Branch>,
    /// The statements of the `else` that they have for it.
    other: Vec<Step>,
    /// Their own statements, the last one first.
    steps: Vec<Step>,
}

impl Behind {
    /// Nothing stands behind the last line. There is room for this many statements.
    fn nothing(alloc: Global, room: usize) -> Result<Behind, AllocError>
        ensures { IfOk result (λ b. behind_seen b ≡ begun no_steps) }
    {
        Ok(Behind {
            branches: Vec::new(alloc),
            other: Vec::new(alloc),
            steps: Vec::with_capacity(alloc, room)?,
        })
    }
}

/// A statement, with its number.
fn numbered(line: usize, statement: Statement) -> Step
    ensures { view.line_and_statement result ≡ (line, view.statement statement) }
{
    Step { line, statement }
}

/// With the statement of a line before the others, which ends what an `if` before it can have.
fn begin(
    alloc: Global,
    line: usize,
    statement: Statement,
    mut steps: Vec<Step>,
) -> Result<Behind, AllocError>
    ensures { IfOk result (λ b. behind_seen b ≡ begun
        (resolved.step line (view.statement statement) (view.steps (reverse steps.items)))) }
{
    steps.push(numbered(line, statement))?;
    Ok(Behind {
        branches: Vec::new(alloc),
        other: Vec::new(alloc),
        steps,
    })
}

fn branch(line: usize, test: Term, steps: Vec<Step>) -> Branch
    ensures { (r : Branches) → view.branch result r
        ≡ resolved.a_branch line (view.term test) (view.steps steps.items) r }
{
    Branch { line, test, steps }
}

/// A function, which gets its number later.
fn definition(binds: usize, params: Vec<Text>, defaults: Vec<Term>, inner: Inner) -> Statement
    ensures { let body = view.steps inner.steps.items in
        view.statement result ≡ resolved.define 0 binds params.items (view.terms defaults.items)
        (max inner.slots (resolved.steps_slots body)) body }
{
    Statement::Define(Function {
        number: 0,
        binds,
        params,
        defaults,
        slots: inner.slots.max(steps_slots(inner.steps.as_slice())),
        steps: inner.steps,
    })
}

/// The branches of a condition, of which those behind the first are known, the last one first.
fn all_branches(first: Branch, mut others: Vec<Branch>) -> Result<Vec<Branch>, AllocError>
    ensures { IfOk result (λ bs. view.branches bs.items
        ≡ view.branch first (view.branches (reverse others.items))) }
{
    others.push(first)?;
    others.reverse();
    Ok(others)
}

/// With a branch before the others.
fn with_branch(branch: Branch, behind: Behind) -> Result<Behind, AllocError>
    ensures { IfOk result (λ b. behind_seen b ≡ record (behind_seen behind)
        { branches = view.branch branch (behind_seen behind).branches }) }
{
    let mut branches = behind.branches;
    branches.push(branch)?;
    Ok(Behind {
        branches,
        other: behind.other,
        steps: behind.steps,
    })
}

/// Lines that were gone through.
#[derive(Drop)]
pub(crate) struct Later {
    /// The first of them that breaks a rule, or the first in its block, by its number.
    fault: Option<usize>,
    /// What is made of them, if none breaks a rule.
    behind: Behind,
}

/// A line with its names resolved, but for those of its block; or its number. It is kept behind a
/// `Box` while its block is resolved, so that blocks inside of one another take little of the
/// stack.
#[inline(never)]
fn head_of<'t>(alloc: Global, scope: &mut Scope<'t>, line: &Line<'t>) -> Result<Box<Head>, Stopped>
    requires { form_depth (form_in (out-Line line.now).form) ≤ 200 }
    ensures { Places (λ s. unless (out-Line line.now).number
        (line_scoped s (form_in (out-Line line.now).form)))
        (λ h s. head_seen h.value ≡ head s (form_in (out-Line line.now).form)) scope.old result
        scope.new }
{
    match line_head(alloc, scope, &line.form) {
        Ok(head) => Ok(Box::new(alloc, head)?),
        Err(Unresolved::Breaks) => Err(Stopped::At(line.number)),
        Err(Unresolved::NoMemory) => Err(Stopped::NoMemory),
    }
}

/// Goes into the block of a line: that of a function has a scope of its own. Gives the levels to go
/// back to from one.
#[inline(never)]
fn enter_block<'t>(
    alloc: Global,
    scope: &mut Scope<'t>,
    form: &Form<'t>,
    block: &[Line<'t>],
) -> Result<Option<Levels<'t>>, AllocError>
    ensures entered { OnOk result (scope.new ≡ scope_of scope.old (form_of form.now)
        (seen.lines block.now)) }
    ensures back { IfOk result (λ around. back around scope.new ≡ scope.old) }
{
    match form {
        Form::Def(_, params) => {
            let mut names = Vec::new(alloc);
            add_params(&mut names, params.as_slice())?;
            add_lines(&mut names, block)?;
            let around = scope.enter_function(alloc, names.as_slice())?;
            Ok(Some(around))
        }
        _ => Ok(None),
    }
}

/// Goes back from a block.
#[inline(never)]
fn leave_block<'t>(scope: &mut Scope<'t>, around: Option<Levels<'t>>)
    ensures { scope.new ≡ back around.entry scope.old }
{
    if let Some(levels) = around {
        scope.leave_function(levels);
    }
}

/// A line and its block with their names resolved.
#[cycle(blocks)]
#[inline(never)]
fn line_and_block<'t>(
    alloc: Global,
    scope: &mut Scope<'t>,
    line: &Line<'t>,
) -> Result<(Box<Head>, Inner), Stopped>
    requires { line_depth line.now ≤ 200 }
    ensures { Places (λ s. own_fault s line.now)
        (λ m s. IsOwn s line.now m.0.value m.1) scope.old result scope.new }
{
    let block = block_of(line);
    let head = head_of(alloc, scope, line)?;
    let around = enter_block(alloc, scope, &line.form, block)?;
    let slots = scope.slots();
    let inside = resolve_lines(alloc, scope, block);
    leave_block(scope, around);
    let steps = inside?;
    Ok((head, Inner { slots, steps }))
}

/// A line with its block, before those behind it.
fn with_line(
    alloc: Global,
    line: usize,
    own: (Head, Inner),
    behind: Behind,
) -> Result<Behind, AllocError>
    ensures { IfOk result (λ b. behind_seen b ≡ with_line (head_seen own.0) line own.1.slots
        (view.steps own.1.steps.items) (behind_seen behind)) }
{
    let (head, inner) = own;
    match head {
        Head::Simple(made) => begin(alloc, line, made, behind.steps),
        Head::If(test) => {
            let first = branch(line, test, inner.steps);
            let branches = all_branches(first, behind.branches)?;
            let made = Statement::If(branches, behind.other);
            begin(alloc, line, made, behind.steps)
        }
        Head::Elif(test) => with_branch(branch(line, test, inner.steps), behind),
        Head::Else => Ok(Behind {
            branches: Vec::new(alloc),
            other: inner.steps,
            steps: behind.steps,
        }),
        Head::For(names, operand) => {
            let made = Statement::For(names, operand, inner.steps);
            begin(alloc, line, made, behind.steps)
        }
        Head::Def(binds, params, defaults) => {
            let made = definition(binds, params, defaults, inner);
            begin(alloc, line, made, behind.steps)
        }
    }
}

/// A line before those behind it.
fn follows(
    alloc: Global,
    line: &Line<'_>,
    own: (Box<Head>, Inner),
    behind: Behind,
) -> Result<Behind, AllocError>
    ensures { IfOk result (λ b. (s : Around) → IsOwn s line.now own.0.value own.1
        → FollowsOn s line.now behind b) }
{
    let (head, inner) = own;
    with_line(alloc, line.number, (Box::into_inner(head), inner), behind)
}

/// A line before those that were gone through.
#[inline(never)]
fn before(
    alloc: Global,
    line: &Line<'_>,
    own: Result<(Box<Head>, Inner), Stopped>,
    later: Later,
) -> Result<Later, AllocError>
    ensures seen { (rest : Lines) → line_of line.now rest ≡ before_lines line.now rest }
    ensures made { IfOk result (λ l. (s t : Around) (rest : Lines)
        → Places (λ s. own_fault s line.now) (λ m s. IsOwn s line.now m.0.value m.1) s own t
        → IsLater s rest later → IsLater s (before_lines line.now rest) l × (t ≡ s)) }
{
    match own {
        Ok(own) => Ok(Later {
            fault: later.fault,
            behind: follows(alloc, line, own, later.behind)?,
        }),
        Err(Stopped::At(number)) => Ok(Later {
            fault: Some(number),
            behind: Behind::nothing(alloc, 0)?,
        }),
        Err(Stopped::NoMemory) => Err(AllocError),
    }
}

/// The statements of lines that were gone through, or the first that breaks a rule.
#[inline(never)]
fn ended(later: Later) -> Result<Vec<Step>, Stopped>
    ensures { (s : Around) (rest : Lines) → IsLater s rest later
        → PlacesSteps (λ s. lines_fault s rest) (λ s. steps_of s rest) s result s }
{
    if let Some(number) = later.fault {
        return Err(Stopped::At(number));
    }
    let mut steps = later.behind.steps;
    steps.reverse();
    Ok(steps)
}

/// The statements of lines. It calls itself once for each block that is open: 32 at most, and the
/// line of a head.
///
/// # Errors
///
/// [`Stopped::At`] the first line that breaks a rule of scopes. [`Stopped::NoMemory`] where memory
/// was refused.
#[cycle(blocks)]
#[inline(never)]
fn resolve_lines<'t>(
    alloc: Global,
    scope: &mut Scope<'t>,
    lines: &[Line<'t>],
) -> Result<Vec<Step>, Stopped>
    requires { lines_depth (seen.lines lines.now) ≤ 200 }
    ensures { PlacesSteps (λ s. lines_fault s (seen.lines lines.now))
        (λ s. steps_of s (seen.lines lines.now)) scope.old result scope.new }
{
    let mut later = Later {
        fault: None,
        behind: Behind::nothing(alloc, lines.len())?,
    };
    let mut left = lines.len();
    while left > 0 {
        left -= 1;
        let line = &lines[left];
        let own = line_and_block(alloc, scope, line);
        later = before(alloc, line, own, later)?;
    }
    ended(later)
}

/// The same of lines that are given back one by one.
fn resolve_owned<'t>(
    alloc: Global,
    scope: &mut Scope<'t>,
    lines: Vec<Line<'t>>,
) -> Result<Vec<Step>, Stopped>
    requires { lines_depth (seen.lines lines.items) ≤ 200 }
    ensures { PlacesSteps (λ s. lines_fault s (seen.lines lines.entry.items))
        (λ s. steps_of s (seen.lines lines.entry.items)) scope.old result scope.new }
{
    let mut later = Later {
        fault: None,
        behind: Behind::nothing(alloc, lines.len())?,
    };
    let mut left = lines;
    while let Some(line) = left.pop() {
        let own = line_and_block(alloc, scope, &line);
        later = before(alloc, &line, own, later)?;
    }
    ended(later)
}

/// The statements of a file, in the scope of its top level. Its lines are given back one by one.
///
/// # Errors
///
/// [`Stopped::At`] the first line that breaks a rule of scopes. [`Stopped::NoMemory`] where memory
/// was refused.
pub(crate) fn resolve_file<'t>(
    alloc: Global,
    scope: &mut Scope<'t>,
    lines: Vec<Line<'t>>,
) -> Result<Vec<Step>, Stopped>
    requires { lines_depth (seen.lines lines.items) ≤ 200 }
    ensures { PlacesSteps (λ s. top_fault s [] (seen.lines lines.entry.items))
        (λ s. steps_of s (seen.lines lines.entry.items)) scope.old result scope.new }
{
    let (kept, number) = until_rebound(alloc, lines.as_slice())?;
    let mut lines = lines;
    lines.truncate(kept);
    let steps = resolve_owned(alloc, scope, lines)?;
    match number {
        Some(number) => Err(Stopped::At(number)),
        None => Ok(steps),
    }
}

/// Gives a statement this number, if it is a function, and tells that of the next one.
fn give_number(step: &mut Step, number: usize) -> usize
    requires { number < 2 ^ 63 }
    ensures numbered { let was = view.line_and_statement step.old in
        (view.line_and_statement step.new ≡ (was.0, with_number number was.1))
        × (result ≡ next_number number was.1) }
    ensures next { result ≤ number + 1 }
{
    match &mut step.statement {
        Statement::Define(function) => {
            function.number = number;
            number + 1
        }
        _ => number,
    }
}

/// Gives the functions of a top level their numbers, from 1 on.
pub(crate) fn number_functions(steps: &mut Vec<Step>)
    ensures { view.steps steps.new.items ≡ resolved.numbered 1 (view.steps steps.old.items) }
{
    let mut number = 1;
    for step in steps.iter_mut() {
        number = give_number(step, number);
    }
}
