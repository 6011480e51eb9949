//! The third pass: logical lines and blocks, by brackets and columns.
//!
//! The pass goes over the tokens once. It holds the brackets that are open and the columns of the
//! blocks that are open, each as a stack; brackets and columns are tested together, in the order of
//! the text.

ghost use Rattle.std.specs.Prelude.{◌≡◌, ◌+◌, List, ℕ, [], ◌∷◌, ◌++◌, ◌<◌, map, Ok};
ghost use Rattle.std.specs.Prelude.{Some, None, IfOk, IfErr, if◌then◌else◌};
ghost use Rattle.std.specs.Bool.{MatchBool};
ghost use Rattle.lexer.specs.Layout.{opening, closing, opened, closed, after_mark, back_to};
ghost use Rattle.lexer.specs.Layout.{block_opened, columns_at, starts, begun, turn};
ghost use Rattle.lexer.specs.Layout.{ended, at_start, line_starts};
ghost use Rattle.lexer.specs.Scan.{preceded};
ghost use Rattle.lexer.specs.Seen.{seen};
ghost use Rattle.lexer.specs.Tokens.{Placed};
ghost use Rattle.lexer.specs.Stops.{FaultsAt};

use crate::fault::{FaultKind, ParseStop, SyntaxFault};
use crate::token::{Mark, Token};
use plain::Stack;
use std::alloc::Global;

/// A kind of bracket.
#[derive(Clone, Copy, PartialEq, Eq, Debug)]
pub enum Bracket {
    Round,
    Square,
    Curly,
}

/// A bracket that is open.
#[derive(Clone, Copy)]
pub(crate) struct Open {
    pub(crate) bracket: Bracket,
    pub(crate) line: usize,
}

/// Where a text stands between two of its tokens.
#[derive(Drop)]
pub(crate) struct Layout {
    /// The open brackets, the innermost at the top.
    pub(crate) unclosed: Stack<Open>,
    /// The columns of the open blocks, the innermost at the top; the top level isn't among them.
    pub(crate) columns: Stack<usize>,
    /// Whether the token before is a `:`.
    pub(crate) head: bool,
    /// The first line of the logical line that the token before belongs to.
    pub(crate) first: usize,
    /// The line of the token before, or 0 at the start.
    pub(crate) last: usize,
}

/// How many brackets may be open at once.
const MOST_BRACKETS: usize = 100;

/// How many blocks may be open at once.
const MOST_BLOCKS: usize = 32;

fn indent_fault(line: usize) -> ParseStop
    ensures { result ≡ ParseStop.Fault (record { line = line; kind = FaultKind.Indent }) }
{
    ParseStop::Fault(SyntaxFault {
        line,
        kind: FaultKind::Indent,
    })
}

/// The bracket that a mark opens.
fn opening(mark: Mark) -> Option<Bracket>
    ensures { result ≡ opening mark }
{
    match mark {
        Mark::OpenParen => Some(Bracket::Round),
        Mark::OpenBracket => Some(Bracket::Square),
        Mark::OpenBrace => Some(Bracket::Curly),
        _ => None,
    }
}

/// The bracket that a mark closes.
fn closing(mark: Mark) -> Option<Bracket>
    ensures { result ≡ closing mark }
{
    match mark {
        Mark::CloseParen => Some(Bracket::Round),
        Mark::CloseBracket => Some(Bracket::Square),
        Mark::CloseBrace => Some(Bracket::Curly),
        _ => None,
    }
}

/// Opens a bracket, where fewer than the most are open.
fn open_bracket(unclosed: &mut Stack<Open>, bracket: Bracket, line: usize) -> Result<(), ParseStop>
    ensures value { IfOk result (λ _. opened unclosed.old bracket line ≡ Ok unclosed.new) }
    ensures fault { FaultsAt FaultKind.Indent (opened unclosed.old bracket line) result }
{
    if unclosed.len() >= MOST_BRACKETS {
        return Err(indent_fault(line));
    }
    unclosed.push(Open { bracket, line })?;
    Ok(())
}

/// Closes the innermost open bracket, where it is of this kind.
fn close_bracket(unclosed: &mut Stack<Open>, bracket: Bracket, line: usize) -> Result<(), ParseStop>
    ensures value { IfOk result (λ _. closed unclosed.old bracket line ≡ Ok unclosed.new) }
    ensures fault { FaultsAt FaultKind.Indent (closed unclosed.old bracket line) result }
{
    let Some(innermost) = unclosed.pop() else {
        return Err(indent_fault(line));
    };
    if innermost.bracket != bracket {
        return Err(indent_fault(line));
    }
    Ok(())
}

/// Opens or closes the bracket that a mark is, if it is one.
fn after_mark(unclosed: &mut Stack<Open>, mark: Mark, line: usize) -> Result<(), ParseStop>
    ensures value { IfOk result (λ _. after_mark unclosed.old mark line ≡ Ok unclosed.new) }
    ensures fault { FaultsAt FaultKind.Indent (after_mark unclosed.old mark line) result }
{
    if let Some(bracket) = opening(mark) {
        return open_bracket(unclosed, bracket, line);
    }
    if let Some(bracket) = closing(mark) {
        return close_bracket(unclosed, bracket, line);
    }
    Ok(())
}

/// Leaves the blocks that are deeper than this column; whether one stands at it.
fn back_to(columns: &mut Stack<usize>, column: usize) -> bool
    ensures { MatchBool result (back_to column columns.old ≡ Some columns.new)
        (back_to column columns.old ≡ None) }
{
    while let Some(innermost) = columns.top() {
        if column == innermost {
            return true;
        }
        if column > innermost {
            return false;
        }
        columns.pop();
    }
    column == 0
}

impl Layout {
    fn new(alloc: Global) -> Self
        ensures { result ≡ at_start }
    {
        Layout {
            unclosed: Stack::new(alloc),
            columns: Stack::new(alloc),
            head: false,
            first: 0,
            last: 0,
        }
    }

    /// Whether a token on this line begins a logical line.
    fn starts(&self, line: usize) -> bool
        ensures { result ≡ starts self.now line }
    {
        self.unclosed.len() == 0 && line != self.last
    }

    /// Opens the block of the line before, which ends with `:`.
    fn open_block(&mut self, line: usize, column: usize) -> Result<(), ParseStop>
        ensures value { IfOk result (λ _. (block_opened self.old line column ≡ Ok self.new.columns)
            × (self.new ≡ record self.old { columns = self.new.columns })) }
        ensures fault { FaultsAt FaultKind.Indent (block_opened self.old line column) result }
    {
        if column <= self.columns.top().unwrap_or(0) {
            return Err(indent_fault(self.first));
        }
        if self.columns.len() >= MOST_BLOCKS {
            return Err(indent_fault(line));
        }
        self.columns.push(column)?;
        Ok(())
    }

    /// Finds the block of a logical line that begins here.
    fn begin_line(&mut self, line: usize, column: usize) -> Result<(), ParseStop>
        ensures value { IfOk result (λ _. (columns_at self.old line column ≡ Ok self.new.columns)
            × (self.new ≡ record self.old { columns = self.new.columns })) }
        ensures fault { FaultsAt FaultKind.Indent (columns_at self.old line column) result }
    {
        if self.head {
            return self.open_block(line, column);
        }
        if !back_to(&mut self.columns, column) {
            return Err(indent_fault(line));
        }
        Ok(())
    }

    /// Begins a logical line where one begins at a token of this line and column.
    fn begin(&mut self, line: usize, column: usize) -> Result<bool, ParseStop>
        ensures value { IfOk result (λ begins. (begins ≡ starts self.old line)
            × (begun self.old line column ≡ Ok self.new)) }
        ensures fault { FaultsAt FaultKind.Indent (begun self.old line column) result }
    {
        if !self.starts(line) {
            return Ok(false);
        }
        self.begin_line(line, column)?;
        self.first = line;
        Ok(true)
    }

    /// Goes on behind a token, by the mark that it is; whether it begins a logical line.
    #[tactic(auto, unfolding(crate::specs::Layout::turn))]
    fn turn(&mut self, mark: Option<Mark>, line: usize, column: usize) -> Result<bool, ParseStop>
        ensures value { IfOk result (λ begins. (begins ≡ starts self.old line)
            × (turn self.old mark line column ≡ Ok self.new)) }
        ensures fault { FaultsAt FaultKind.Indent (turn self.old mark line column) result }
    {
        let begins = self.begin(line, column)?;
        if let Some(mark) = mark {
            after_mark(&mut self.unclosed, mark, line)?;
        }
        self.head = matches!(mark, Some(Mark::Colon));
        self.last = line;
        Ok(begins)
    }

    /// Refuses a text that ends inside a bracket, or after a line that wants a block.
    fn end(&self) -> Result<(), ParseStop>
        ensures value { IfOk result (λ _. ended self.now ≡ Ok []) }
        ensures fault { FaultsAt FaultKind.Indent (ended self.now) result }
    {
        if let Some(innermost) = self.unclosed.top() {
            return Err(indent_fault(innermost.line));
        }
        if self.head {
            return Err(indent_fault(self.first));
        }
        Ok(())
    }
}

/// Notes a place, where it counts.
fn note(starts: &mut Vec<usize>, counts: bool, place: usize) -> Result<(), ParseStop>
    ensures value { IfOk result (λ _.
        starts.new.items ≡ starts.old.items ++ (if counts then place ∷ [] else [])) }
    ensures fault { IfErr result (λ e. e ≡ ParseStop.NoMemory) }
{
    if counts {
        starts.push(place)?;
    }
    Ok(())
}

/// Goes on behind a token, and notes its place where it begins a logical line.
fn go_on(
    layout: &mut Layout,
    starts: &mut Vec<usize>,
    place: usize,
    token: Token,
) -> Result<(), ParseStop>
    ensures value { IfOk result (λ _. (text : List ℕ) (rest : List Placed) →
        preceded starts.new.items (line_starts (place + 1) layout.new rest)
        ≡ preceded starts.old.items (line_starts place layout.old (seen text token ∷ rest))) }
    ensures fault { (text : List ℕ) (rest : List Placed) → FaultsAt FaultKind.Indent
        (preceded starts.old.items (line_starts place layout.old (seen text token ∷ rest))) result }
{
    let begins = match layout.turn(token.kind.mark(), token.line, token.column) {
        Ok(begins) => begins,
        Err(stop) => return Err(stop),
    };
    note(starts, begins, place)
}

/// The places of the tokens that begin the logical lines, or the line of the first fault.
pub(crate) fn line_starts(alloc: Global, tokens: &[Token]) -> Result<Vec<usize>, ParseStop>
    ensures value { IfOk result (λ starts. (text : List ℕ) →
        line_starts 0 at_start (map (seen text) tokens.now) ≡ Ok starts.items) }
    ensures fault { (text : List ℕ) →
        FaultsAt FaultKind.Indent (line_starts 0 at_start (map (seen text) tokens.now)) result }
{
    let mut layout = Layout::new(alloc);
    let mut starts = Vec::new(alloc);
    for (place, token) in tokens.iter().enumerate() {
        if let Err(stop) = go_on(&mut layout, &mut starts, place, *token) {
            return Err(stop);
        }
    }
    if let Err(stop) = layout.end() {
        return Err(stop);
    }
    Ok(starts)
}
