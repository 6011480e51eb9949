//! The blocks of a file: its lines are put into the blocks of their heads, from the last line to
//! the first.

ghost use Rattle.std.specs.Prelude.{◌≡◌, ◌∷◌, [], map, IfOk};
ghost use Rattle.grammar.specs.BareLines.{Lines};
ghost use Rattle.grammar.specs.LineView.{line_of, lines, lines_of};
ghost use Rattle.grammar.specs.Built.{around, attached, built, inner_of, innermost, left_by, put};
ghost use Rattle.statements.specs.BuiltView.{body_of, pendings, read_of};

use grammar::{Form, Line};
use std::alloc::{AllocError, Global};

/// What belongs to a line.
#[derive(Drop)]
pub(crate) enum Body<'t> {
    /// Nothing, since it is no head.
    Nothing,
    /// The block that follows.
    Block,
    /// A statement on the line itself.
    Statement(Box<Form<'t>>),
}

/// A logical line that was read.
#[derive(Drop)]
pub(crate) struct Read<'t> {
    pub(crate) number: usize,
    pub(crate) column: usize,
    pub(crate) form: Box<Form<'t>>,
    pub(crate) body: Body<'t>,
}

/// The lines of a block, the last one first, of which those before them aren't known yet. It
/// doesn't matter here what a line is.
#[derive(Drop)]
struct Pending<L> {
    column: usize,
    lines: Vec<L>,
}

/// The lines of the innermost block, from the first to the last.
fn take_block<L: Drop>(alloc: Global, blocks: &mut Vec<Pending<L>>) -> Vec<L>
    ensures lines { (seen : L → Lines → Lines) → lines_of (map seen result.items)
        ≡ innermost (pendings seen blocks.old.items) }
    ensures around { (seen : L → Lines → Lines) → pendings seen blocks.new.items
        ≡ around (pendings seen blocks.old.items) }
{
    match blocks.pop() {
        Some(innermost) => {
            let mut lines = innermost.lines;
            lines.reverse();
            lines
        }
        None => Vec::new(alloc),
    }
}

/// A list of one line.
fn one<L: Drop>(alloc: Global, line: L) -> Result<Vec<L>, AllocError>
    ensures { IfOk result (λ ls. ls.items ≡ line ∷ []) }
{
    let mut lines = Vec::with_capacity(alloc, 1)?;
    lines.push(line)?;
    Ok(lines)
}

/// A block of which the last line is known.
fn begun<L: Drop>(alloc: Global, column: usize, line: L) -> Result<Pending<L>, AllocError>
    ensures { IfOk result (λ p. (p.column ≡ column) × (p.lines.items ≡ line ∷ [])) }
{
    let lines = one(alloc, line)?;
    Ok(Pending { column, lines })
}

/// Puts a line before those of its column.
fn put<L: Drop>(
    alloc: Global,
    blocks: &mut Vec<Pending<L>>,
    column: usize,
    line: L,
) -> Result<(), AllocError>
    ensures { IfOk result (λ _. (seen : L → Lines → Lines) → pendings seen blocks.new.items
        ≡ put column (seen line) (pendings seen blocks.old.items)) }
{
    match blocks.pop() {
        Some(mut innermost) => {
            if innermost.column == column {
                innermost.lines.push(line)?;
                blocks.push(innermost)?;
            } else {
                blocks.push(innermost)?;
                blocks.push(begun(alloc, column, line)?)?;
            }
        }
        None => blocks.push(begun(alloc, column, line)?)?,
    }
    Ok(())
}

/// The lines that belong to a line; those of its block are taken.
fn block_of<'t>(
    alloc: Global,
    number: usize,
    body: Body<'t>,
    blocks: &mut Vec<Pending<Line<'t>>>,
) -> Result<Vec<Line<'t>>, AllocError>
    ensures lines { IfOk result (λ ls. lines ls.items
        ≡ inner_of number (body_of body.entry) (pendings line_of blocks.old.items)) }
    ensures left { IfOk result (λ _. pendings line_of blocks.new.items
        ≡ left_by (body_of body.entry) (pendings line_of blocks.old.items)) }
{
    match body {
        Body::Nothing => Ok(Vec::new(alloc)),
        Body::Block => Ok(take_block(alloc, blocks)),
        Body::Statement(form) => one(
            alloc,
            Line {
                number,
                form,
                block: Vec::new(alloc),
            },
        ),
    }
}

/// Puts a line before those behind it, with what belongs to it.
fn attach<'t>(
    alloc: Global,
    blocks: &mut Vec<Pending<Line<'t>>>,
    read: Read<'t>,
) -> Result<(), AllocError>
    ensures { IfOk result (λ _. pendings line_of blocks.new.items
        ≡ attached (read_of read.entry) (pendings line_of blocks.old.items)) }
{
    let Read {
        number,
        column,
        form,
        body,
    } = read;
    let block = block_of(alloc, number, body, blocks)?;
    let line = Line {
        number,
        form,
        block,
    };
    put(alloc, blocks, column, line)
}

/// Puts the lines of a file into their blocks.
///
/// # Errors
///
/// Where memory was refused.
pub(crate) fn file_lines<'t>(
    alloc: Global,
    reads: Vec<Read<'t>>,
) -> Result<Vec<Line<'t>>, AllocError>
    ensures { IfOk result (λ ls. lines ls.items ≡ built (map read_of reads.entry.items)) }
{
    let mut left = reads;
    let mut blocks = Vec::new(alloc);
    while let Some(read) = left.pop() {
        attach(alloc, &mut blocks, read)?;
    }
    Ok(take_block(alloc, &mut blocks))
}
