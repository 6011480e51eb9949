//! The second pass: the tokens of a text, from its first byte to its last.

ghost use Rattle.std.specs.Prelude.{◌≡◌, ◌<◌, length, map, Ok, IfOk};
ghost use Rattle.lexer.specs.Scan.{tokens_of};
ghost use Rattle.lexer.specs.Seen.{seen};
ghost use Rattle.lexer.specs.Cursor.{IsCursor, left};
ghost use Rattle.lexer.specs.Stops.{FaultsAt};

use crate::begins::{Beginning, begins};
use crate::fault::{FaultKind, ParseStop, SyntaxFault};
use crate::token::Token;
use std::alloc::Global;

/// A place in a text, with its line and the place where that line begins.
#[derive(Clone, Copy)]
struct Cursor {
    at: usize,
    line: usize,
    line_start: usize,
}

/// Reads what begins at the cursor, and goes behind it.
fn step(text: &[u8], cursor: &mut Cursor, tokens: &mut Vec<Token>) -> Result<(), ParseStop>
    requires cursor { IsCursor text.now cursor.old }
    requires within { cursor.old.at < length text.now }
    ensures cursor { IfOk result (λ _. IsCursor text.now cursor.new) }
    ensures onward { IfOk result (λ _. cursor.old.at < cursor.new.at) }
    ensures value { IfOk result (λ _. left text.now cursor.new tokens.new.items
        ≡ left text.now cursor.old tokens.old.items) }
    ensures fault { FaultsAt FaultKind.Token (left text.now cursor.old tokens.old.items) result }
{
    let at = cursor.at;
    match begins(text, at) {
        Beginning::Space => cursor.at = at + 1,
        Beginning::LineEnd => {
            cursor.at = at + 1;
            cursor.line += 1;
            cursor.line_start = at + 1;
        }
        Beginning::Comment(more) => cursor.at = at + 1 + more,
        Beginning::Token(kind, more) => {
            tokens.push(Token {
                kind,
                line: cursor.line,
                column: at - cursor.line_start,
            })?;
            cursor.at = at + 1 + more;
        }
        Beginning::Nothing => {
            return Err(ParseStop::Fault(SyntaxFault {
                line: cursor.line,
                kind: FaultKind::Token,
            }));
        }
    }
    Ok(())
}

/// The tokens of a text, or the line of the first place where no token fits.
pub(crate) fn tokens(alloc: Global, text: &[u8]) -> Result<Vec<Token>, ParseStop>
    ensures value { IfOk result (λ ts. tokens_of text.now ≡ Ok (map (seen text.now) ts.items)) }
    ensures fault { FaultsAt FaultKind.Token (tokens_of text.now) result }
{
    let mut tokens = Vec::new(alloc);
    let mut cursor = Cursor {
        at: 0,
        line: 1,
        line_start: 0,
    };
    while cursor.at < text.len() {
        step(text, &mut cursor, &mut tokens)?;
    }
    Ok(tokens)
}
