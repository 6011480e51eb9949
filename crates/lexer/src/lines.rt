//! The logical lines of a text: the three lower passes, one after the other.

ghost use Rattle.std.specs.Prelude.{◌≡◌, ◌<◌, ℕ, Ok, Err, IfOk, List, length, map, slice_get};
ghost use Rattle.std.specs.Prelude.{slice_range, Some};
ghost use Rattle.std.specs.Str.{IsAscii};
ghost use Rattle.lexer.specs.LaidOut.{IsReading};
ghost use Rattle.lexer.specs.Lines.{lines_at, reading};
ghost use Rattle.lexer.specs.Seen.{bytes_of, seen};

use crate::characters::character_fault;
use crate::fault::{FaultKind, ParseStop, SyntaxFault};
use crate::layout::line_starts;
use crate::scan::tokens;
use crate::token::{Span, Token};
use std::alloc::Global;
use std::marker::Model;

/// A text with its logical lines. A clause sees the bytes of the text, and the list of the lines,
/// each as the list of its tokens; a line's own column and number are those of its first token.
#[derive(Drop)]
pub struct Lines<'t> {
    text: &'t [u8],
    tokens: Vec<Token>,
    starts: Vec<usize>,
}

impl<'t> Model for Lines<'t> {
    ghost use Rattle.lexer.specs.Lines.{Read};

    ghost Value = { Read };

    ghost use Rattle.std.specs.Prelude.{map};
    ghost use Rattle.lexer.specs.Seen.{seen};
    ghost use Rattle.lexer.specs.Lines.{lines_at};

    ghost view = { λ a. record {
      text = a.text.now;
      lines = lines_at a.starts.items (map (seen a.text.now) a.tokens.items);
    } };

    ghost use Rattle.std.specs.Str.{IsAscii};

    ghost invariant = { λ a. IsAscii a.text.now };
}

/// The items from one place on, up to the one before another; no item where these places have none
/// between them.
fn between<T>(items: &[T], start: usize, end: usize) -> &[T]
    ensures { result.now ≡ slice_range items.now start end }
{
    let end = end.min(items.len());
    &items[start.min(end)..end]
}

/// The tokens of the line at a place, which go up to where the next line begins.
fn line_at<'l>(tokens: &'l [Token], starts: &[usize], place: usize) -> &'l [Token]
    requires { place < length starts.now }
    ensures { (text : List ℕ) → slice_get (lines_at starts.now (map (seen text) tokens.now)) place
        ≡ Some (map (seen text) result.now) }
{
    let start = starts[place];
    let next = place + 1;
    if next < starts.len() {
        return between(tokens, start, starts[next]);
    }
    between(tokens, start, tokens.len())
}

impl<'t> Lines<'t> {
    /// How many logical lines the text has.
    pub fn len(&self) -> usize
        ensures { result ≡ length self.now.lines }
    {
        self.starts.len()
    }

    /// The tokens of the logical line at this place.
    pub fn line(&self, place: usize) -> &[Token]
        requires { place < length self.now.lines }
        ensures { slice_get self.now.lines place ≡ Some (map (seen self.now.text) result.now) }
    {
        line_at(self.tokens.as_slice(), self.starts.as_slice(), place)
    }

    /// A part of the text, as the tokens name it.
    pub fn part(&self, span: Span) -> &'t str
        ensures part { result.now ≡ bytes_of self.now.text span }
        ensures ascii { IsAscii result.now }
    {
        as_text(between(self.text, span.start, span.end))
    }
}

/// Bytes of ASCII as a text.
fn as_text(bytes: &[u8]) -> &str
    requires { IsAscii bytes.now }
    ensures { result.now ≡ bytes.now }
{
    match str::from_utf8(bytes) {
        Ok(text) => text,
        Err(_) => "",
    }
}

/// The logical lines of a text that is given as its bytes.
fn read(alloc: Global, text: &[u8]) -> Result<Lines<'_>, ParseStop>
    ensures text { IfOk result (λ read. read.text ≡ text.now) }
    ensures lines { IfOk result (λ read. reading text.now ≡ Ok read.lines) }
    ensures fault { (f : SyntaxFault) → result ≡ Err (ParseStop.Fault f)
        → reading text.now ≡ Err f }
{
    match character_fault(text) {
        Some(line) => {
            return Err(ParseStop::Fault(SyntaxFault {
                line,
                kind: FaultKind::Character,
            }));
        }
        None => {}
    }
    let tokens = match tokens(alloc, text) {
        Ok(tokens) => tokens,
        Err(stop) => return Err(stop),
    };
    let starts = match line_starts(alloc, tokens.as_slice()) {
        Ok(starts) => starts,
        Err(stop) => return Err(stop),
    };
    Ok(Lines {
        text,
        tokens,
        starts,
    })
}

/// Reads a text down to its logical lines: its characters, then its tokens, then its brackets and
/// columns.
///
/// # Errors
///
/// The first fault of the first of these passes that finds one, with its line. Want of memory may
/// be answered in its place, or in place of the lines.
pub fn logical_lines(alloc: Global, text: &str) -> Result<Lines<'_>, ParseStop>
    ensures text { IfOk result (λ read. read.text ≡ text.now) }
    ensures lines { IfOk result (λ read. reading text.now ≡ Ok read.lines) }
    ensures laid_out { IfOk result (λ read. IsReading text.now read.lines) }
    ensures fault { (f : SyntaxFault) → result ≡ Err (ParseStop.Fault f)
        → reading text.now ≡ Err f }
{
    read(alloc, text.as_bytes())
}
