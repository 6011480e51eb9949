//! The pass over the statements of a text: each logical line is read by itself, then all are seen
//! to stand where they may, and are put into their blocks.

ghost use Rattle.std.specs.Prelude.{◌≡◌, ◌++◌, ◌<◌, ◌≤◌, ℕ, List, [], ◌∷◌, map, filter_map, Some};
ghost use Rattle.std.specs.Prelude.{Ok, IfOk, OnOk};
ghost use Rattle.std.specs.List.{cons_option};
ghost use Rattle.std.specs.Option.{option_map};
ghost use Rattle.grammar.specs.Ahead.{tokens_seen};
ghost use Rattle.grammar.specs.BareDepth.{lines_depth};
ghost use Rattle.grammar.specs.BareLines.{bare_lines};
ghost use Rattle.grammar.specs.BlockReading.{file_reads};
ghost use Rattle.grammar.specs.Blocks.{Block, laid};
ghost use Rattle.grammar.specs.Built.{Made};
ghost use Rattle.statements.specs.BuiltView.{body_of, read_of};
ghost use Rattle.grammar.specs.Places.{top_of};
ghost use Rattle.statements.specs.FormView.{body_shape, formed_as, is_text, line_read};
ghost use Rattle.statements.specs.FormView.{outline_read, shape_of, shaped_of};
ghost use Rattle.grammar.specs.LineView as view;
ghost use Rattle.grammar.specs.LineView.{form_of};
ghost use Rattle.statements.specs.Outlines.{place_of};
ghost use Rattle.lexer.specs.Seen.{seen};
ghost use Rattle.lexer.specs.Stops.{FaultsAt};
ghost use Rattle.lexer.specs.declared.fault.FaultKind.TheVariants as FaultKind;

use crate::blocks::{Body, Read, file_lines};
use crate::line_forms::read_form;
use crate::outline;
use crate::outline::{Formed, Outline, Place, Shape, lines_stand};
use grammar::{Form, Line};
use lexer::{FileKind, Kind, Lines, NoMemory, ParseStop, Token};
use std::alloc::{AllocError, Global};

/// Whether a line is a string alone.
#[tactic(auto, unfolding(crate::specs::FormView::is_text))]
fn is_text(tokens: &[Token]) -> bool
    ensures { (text : List ℕ) → result ≡ is_text (tokens_seen text tokens.now) }
{
    match tokens {
        [only] => matches!(only.kind, Kind::Str(_)),
        [] => false,
        [_, _, ..] => false,
    }
}

fn shape_of(form: &Form<'_>, is_text: bool) -> Shape
    ensures { result ≡ shape_of is_text (form_of form.now) }
{
    match form {
        Form::Load(_, _) => Shape::Load,
        Form::Def(_, _) => Shape::Def,
        Form::If(_) => Shape::If,
        Form::Elif(_) => Shape::Elif,
        Form::Else => Shape::Else,
        Form::For(_, _, _) => Shape::For,
        Form::Evaluate(_) => { if is_text { Shape::Text } else { Shape::Plain } }
        Form::Break | Form::Continue => Shape::Jump,
        Form::Return(_) => Shape::Return,
        Form::Assign(_, _, _)
        | Form::AssignAt(_, _, _)
        | Form::Add(_, _)
        | Form::AddAt(_, _, _)
        | Form::Pass => Shape::Plain,
    }
}

fn body_shape(body: &Body<'_>) -> outline::Body
    ensures { result ≡ body_shape (body_of body.now) }
{
    match body {
        Body::Nothing => outline::Body::Nothing,
        Body::Block => outline::Body::Block,
        Body::Statement(form) => outline::Body::Statement(shape_of(form, false)),
    }
}

/// The number of a line, and its column: those of its first token.
fn start_of(tokens: &[Token]) -> (usize, usize)
    ensures line { (text : List ℕ) → result.0 ≡ (laid (map (seen text) tokens.now)).line }
    ensures column { (text : List ℕ) → result.1 ≡ (laid (map (seen text) tokens.now)).column }
{
    match tokens {
        [first, ..] => (first.line, first.column),
        [] => (0, 0),
    }
}

/// The outline of a line with what was read of it, which is nothing where the line has no form.
#[derive(Drop)]
struct LineRead<R> {
    outline: Outline,
    read: Option<R>,
}

/// What is read of a line that begins there.
fn with_start<'t>(
    number: usize,
    column: usize,
    form: Option<(Box<Form<'t>>, Body<'t>)>,
    is_text: bool,
) -> LineRead<Read<'t>>
    ensures outline { result.outline ≡ record {
      line = number;
      column = column;
      form = option_map
          (formed_as is_text) (option_map shaped_of form.entry);
    } }
    ensures read { option_map read_of result.read ≡ option_map
        (λ s. record { number = number; column = column; form = s.0; body = s.1 })
        (option_map shaped_of form.entry) }
{
    match form {
        Some((form, body)) => {
            let formed = Formed {
                shape: shape_of(&form, is_text),
                body: body_shape(&body),
            };
            LineRead {
                outline: Outline {
                    line: number,
                    column,
                    form: Some(formed),
                },
                read: Some(Read {
                    number,
                    column,
                    form,
                    body,
                }),
            }
        }
        None => LineRead {
            outline: Outline {
                line: number,
                column,
                form: None,
            },
            read: None,
        },
    }
}

/// What was read of the lines of a text: the outlines of all, and what was read of those that have
/// a form.
#[derive(Drop)]
struct LinesRead<R> {
    outlines: Vec<Outline>,
    reads: Vec<R>,
}

impl<R: Drop> LinesRead<R> {
    /// Adds a line.
    fn add(&mut self, line: LineRead<R>) -> Result<(), AllocError>
        ensures outlines { OnOk result (self.new.outlines.items
            ≡ self.old.outlines.items ++ line.outline ∷ []) }
        ensures reads { OnOk result ((seen : R → Made) (ms : List Made)
            → map seen self.new.reads.items ++ ms
            ≡ map seen self.old.reads.items ++ cons_option (option_map seen line.read) ms) }
    {
        self.outlines.push(line.outline)?;
        if let Some(read) = line.read {
            self.reads.push(read)?;
        }
        Ok(())
    }
}

/// Reads the line of these tokens, and adds it.
fn read_line<'t>(
    alloc: Global,
    lines: &Lines<'t>,
    tokens: &[Token],
    found: &mut LinesRead<Read<'t>>,
) -> Result<(), NoMemory>
    ensures outlines { OnOk result (found.new.outlines.items ≡ found.old.outlines.items
        ++ outline_read (laid (map (seen lines.now.text) tokens.now)) ∷ []) }
    ensures reads { OnOk result ((ms : List Made) → map read_of found.new.reads.items ++ ms
        ≡ map read_of found.old.reads.items
        ++ cons_option (line_read (laid (map (seen lines.now.text) tokens.now))) ms) }
{
    let (number, column) = start_of(tokens);
    let form = read_form(alloc, lines, tokens)?;
    found.add(with_start(number, column, form, is_text(tokens)))?;
    Ok(())
}

/// Reads each line of a text.
fn read_lines<'t>(alloc: Global, lines: &Lines<'t>) -> Result<LinesRead<Read<'t>>, NoMemory>
    ensures outlines { IfOk result (λ r. r.outlines.items
        ≡ map outline_read (map laid lines.now.lines)) }
    ensures reads { IfOk result (λ r. map read_of r.reads.items
        ≡ filter_map line_read (map laid lines.now.lines)) }
{
    let mut found = LinesRead {
        outlines: Vec::new(alloc),
        reads: Vec::new(alloc),
    };
    for place in 0..lines.len() {
        read_line(alloc, lines, lines.line(place), &mut found)?;
    }
    Ok(found)
}

/// Where the lines of the top level stand.
fn top_of(kind: FileKind) -> Place
    ensures { result ≡ place_of (top_of kind) }
{
    match kind {
        FileKind::Module => Place::Module,
        FileKind::Build => Place::Build,
    }
}

/// The same as [`read_file`].
fn blocks_of<'t>(
    alloc: Global,
    lines: Lines<'t>,
    kind: FileKind,
) -> Result<Vec<Line<'t>>, ParseStop>
    ensures tree { IfOk result (λ ls. (tree : Block)
        × (file_reads (top_of kind) (map laid lines.entry.lines) ≡ Ok tree)
        × (view.lines ls.items ≡ bare_lines tree)) }
    ensures fault { FaultsAt FaultKind.Statement
        (file_reads (top_of kind) (map laid lines.entry.lines)) result }
{
    let read = match read_lines(alloc, &lines) {
        Ok(read) => read,
        Err(NoMemory) => return Err(ParseStop::NoMemory),
    };
    drop(lines);
    match lines_stand(alloc, read.outlines.as_slice(), top_of(kind)) {
        Ok(()) => {}
        Err(stop) => return Err(stop),
    }
    drop(read.outlines);
    Ok(file_lines(alloc, read.reads)?)
}

/// Reads the logical lines of a file and puts them into their blocks. No expression in them is more
/// than [`grammar::MAX_DEPTH`] deep. The logical lines are given back before the blocks are made.
///
/// # Errors
///
/// A fault of the statements at the first line that has no form, or stands where it may not. Want
/// of memory may be answered in its place.
pub fn read_file<'t>(
    alloc: Global,
    lines: Lines<'t>,
    kind: FileKind,
) -> Result<Vec<Line<'t>>, ParseStop>
    ensures tree { IfOk result (λ ls. (tree : Block)
        × (file_reads (top_of kind) (map laid lines.entry.lines) ≡ Ok tree)
        × (view.lines ls.items ≡ bare_lines tree)) }
    ensures shallow { IfOk result (λ ls. lines_depth (view.lines ls.items) ≤ 200) }
    ensures fault { FaultsAt FaultKind.Statement
        (file_reads (top_of kind) (map laid lines.entry.lines)) result }
{
    blocks_of(alloc, lines, kind)
}
