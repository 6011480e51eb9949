//! Where logical lines may stand: a pass over their outlines, from the first to the last.

ghost use Rattle.std.specs.Prelude.{◌≡◌, ◌+◌, ◌∷◌, ◌<◌, List, [], length, drop, IfOk, Ok, Err};
ghost use Rattle.std.specs.Prelude.{Option};
ghost use Rattle.statements.specs.Outlines.{is_top, is_function, shape_stands, within};
ghost use Rattle.statements.specs.Outlines.{formed_stands, follows, takes_else, early_enough};
ghost use Rattle.statements.specs.Outlines.{still_early, opens, fits, behind, inside, top_level};
ghost use Rattle.statements.specs.Outlines.{down_to, block_column, opened, stepped, pass, first_of};
ghost use Rattle.lexer.specs.Stops.{FaultsAt};
ghost use Rattle.statements.specs.declared.outline.Open.{Open};
ghost use Rattle.lexer.specs.declared.fault.FaultKind.TheVariants as FaultKind;

use lexer::{FaultKind, ParseStop, SyntaxFault};
use plain::Stack;
use std::alloc::Global;

/// Where a line may stand: at the top level of a module or of a `BUILD` file, in a function, and
/// there in a loop.
#[derive(Clone, Copy)]
pub(crate) enum Place {
    Module,
    Build,
    Function,
    Loop,
}

/// What a line is, as far as it matters for where it may stand.
#[derive(Clone, Copy)]
pub(crate) enum Shape {
    Load,
    /// A string alone.
    Text,
    /// Any other statement that may stand anywhere.
    Plain,
    Return,
    /// `break` or `continue`.
    Jump,
    Def,
    If,
    Elif,
    Else,
    For,
}

/// What follows the `:` of a head.
#[derive(Clone, Copy)]
pub(crate) enum Body {
    /// The line is no head.
    Nothing,
    /// A block follows.
    Block,
    /// A statement stands on the line.
    Statement(Shape),
}

/// The form of a line, as far as it matters for where it may stand.
#[derive(Clone, Copy)]
pub(crate) struct Formed {
    pub(crate) shape: Shape,
    pub(crate) body: Body,
}

/// A logical line: its first line in the file, its column, and its form, if it has one that isn't
/// too deep.
#[derive(Clone, Copy)]
pub(crate) struct Outline {
    pub(crate) line: usize,
    pub(crate) column: usize,
    pub(crate) form: Option<Formed>,
}

/// An open block, as its next line finds it: whether the line before in it was an `if` or `elif`,
/// and whether only loads and strings alone came before in the file.
#[derive(Clone, Copy)]
struct Open {
    column: usize,
    place: Place,
    after: bool,
    early: bool,
}

fn misplaced(line: usize) -> ParseStop
    ensures { result ≡ ParseStop.Fault (record { line = line; kind = FaultKind.Statement }) }
{
    ParseStop::Fault(SyntaxFault {
        line,
        kind: FaultKind::Statement,
    })
}

fn is_top(place: Place) -> bool
    ensures { result ≡ is_top place }
{
    matches!(place, Place::Module | Place::Build)
}

fn is_function(place: Place) -> bool
    ensures { result ≡ is_function place }
{
    matches!(place, Place::Function | Place::Loop)
}

/// Whether a line, or the head of one, may stand there.
fn shape_stands(place: Place, shape: Shape) -> bool
    ensures { result ≡ shape_stands place shape }
{
    match shape {
        Shape::Load => is_top(place),
        Shape::Text | Shape::Plain => true,
        Shape::Jump => matches!(place, Place::Loop),
        Shape::Def => matches!(place, Place::Module),
        Shape::Return | Shape::If | Shape::Elif | Shape::Else | Shape::For => is_function(place),
    }
}

/// The place of what belongs to a head.
fn within(place: Place, shape: Shape) -> Place
    ensures { result ≡ within place shape }
{
    match shape {
        Shape::Def => Place::Function,
        Shape::For => Place::Loop,
        _ => place,
    }
}

/// Whether a line may stand there with what is on it.
fn formed_stands(place: Place, form: Formed) -> bool
    ensures { result ≡ formed_stands place form }
{
    if !shape_stands(place, form.shape) {
        return false;
    }
    match form.body {
        Body::Statement(shape) => shape_stands(within(place, form.shape), shape),
        _ => true,
    }
}

/// Whether a line may come after the line before it in its block.
fn follows(after: bool, shape: Shape) -> bool
    ensures { result ≡ follows after shape }
{
    match shape {
        Shape::Elif | Shape::Else => after,
        _ => true,
    }
}

/// Whether a line may come behind what its block has so far.
fn early_enough(early: bool, shape: Shape) -> bool
    ensures { result ≡ early_enough early shape }
{
    match shape {
        Shape::Load => early,
        _ => true,
    }
}

fn still_early(early: bool, shape: Shape) -> bool
    ensures { result ≡ still_early early shape }
{
    match shape {
        Shape::Load | Shape::Text => early,
        _ => false,
    }
}

fn takes_else(shape: Shape) -> bool
    ensures { result ≡ takes_else shape }
{
    matches!(shape, Shape::If | Shape::Elif)
}

fn opens(body: Body) -> bool
    ensures { result ≡ opens body }
{
    matches!(body, Body::Block)
}

impl Open {
    /// Whether a line may come next.
    fn fits(self, form: Formed) -> bool
        ensures { result ≡ fits self form }
    {
        formed_stands(self.place, form)
            && follows(self.after, form.shape)
            && early_enough(self.early, form.shape)
    }

    /// The block behind a line in it.
    fn behind(self, form: Formed) -> Open
        ensures { result ≡ behind self form }
    {
        Open {
            column: self.column,
            place: self.place,
            after: takes_else(form.shape),
            early: still_early(self.early, form.shape),
        }
    }

    /// The block that a head in this one opens at a column.
    fn inside(self, form: Formed, column: usize) -> Open
        ensures { result ≡ inside self form column }
    {
        Open {
            column,
            place: within(self.place, form.shape),
            after: false,
            early: false,
        }
    }
}

/// Leaves the blocks that are deeper than this column.
fn down_to(blocks: &mut Stack<Open>, column: usize)
    ensures { blocks.new ≡ down_to column blocks.old }
{
    while let Some(innermost) = blocks.top() {
        if column >= innermost.column {
            return;
        }
        blocks.pop();
    }
}

/// The column of the block behind a head, which is that of the next line.
fn block_column(head: Outline, next: Option<Outline>) -> Result<usize, ParseStop>
    ensures value { IfOk result (λ column. block_column head next ≡ Ok column) }
    ensures fault { FaultsAt FaultKind.Statement (block_column head next) result }
{
    let Some(next) = next else {
        return Err(misplaced(head.line));
    };
    if head.column < next.column {
        return Ok(next.column);
    }
    Err(misplaced(next.line))
}

/// Goes on behind a line of the innermost block, which was taken from the stack.
fn go_on(
    blocks: &mut Stack<Open>,
    block: Open,
    form: Formed,
    line: Outline,
    next: Option<Outline>,
) -> Result<(), ParseStop>
    ensures value { IfOk result (λ _. opened block blocks.old form line next ≡ Ok blocks.new) }
    ensures fault { FaultsAt FaultKind.Statement (opened block blocks.old form line next) result }
{
    if !opens(form.body) {
        blocks.push(block.behind(form))?;
        return Ok(());
    }
    let column = block_column(line, next)?;
    blocks.push(block.behind(form))?;
    blocks.push(block.inside(form, column))?;
    Ok(())
}

/// Goes on behind a line, where it may stand as the next one of the open blocks.
fn step(blocks: &mut Stack<Open>, line: Outline, next: Option<Outline>) -> Result<(), ParseStop>
    ensures value { IfOk result (λ _. stepped line next blocks.old ≡ Ok blocks.new) }
    ensures fault { FaultsAt FaultKind.Statement (stepped line next blocks.old) result }
{
    down_to(blocks, line.column);
    let Some(block) = blocks.pop() else {
        return Err(misplaced(line.line));
    };
    if line.column != block.column {
        return Err(misplaced(line.line));
    }
    let Some(form) = line.form else {
        return Err(misplaced(line.line));
    };
    if !block.fits(form) {
        return Err(misplaced(line.line));
    }
    go_on(blocks, block, form, line, next)
}

/// The line behind a place.
fn next_of(lines: &[Outline], place: usize) -> Option<Outline>
    requires { place < length lines.now }
    ensures { result ≡ first_of (drop (place + 1) lines.now) }
{
    let next = place + 1;
    if next < lines.len() {
        return Some(lines[next]);
    }
    None
}

/// Finds the first line, from the top level on, that has no form or stands where it may not.
///
/// # Errors
///
/// A fault of the statements, at that line. Want of memory may be answered in its place.
pub(crate) fn lines_stand(alloc: Global, lines: &[Outline], top: Place) -> Result<(), ParseStop>
    ensures value { IfOk result (λ _. (os : List Open)
        × (pass lines.now (top_level top ∷ []) ≡ Ok os)) }
    ensures fault { FaultsAt FaultKind.Statement (pass lines.now (top_level top ∷ [])) result }
{
    let mut blocks = Stack::new(alloc);
    blocks.push(Open {
        column: 0,
        place: top,
        after: false,
        early: true,
    })?;
    for (place, line) in lines.iter().enumerate() {
        let next = next_of(lines, place);
        if let Err(stop) = step(&mut blocks, *line, next) {
            return Err(stop);
        }
    }
    Ok(())
}
