//! The expression that a logical line is.

ghost use Rattle.std.specs.Prelude.{◌≡◌, ◌<◌, length, List, slice_get, Some, IfOk};
ghost use Rattle.std.specs.Option.{option_map};
ghost use Rattle.grammar.specs.Ahead.{tokens_seen};
ghost use Rattle.grammar.specs.Descent.{reads_all};
ghost use Rattle.lexer.specs.Tokens.{line_tokens, Placed};
ghost use Rattle.grammar.specs.LineExpression.{IsExpression};
ghost use Rattle.grammar.specs.TreeView.{tree_of};

use crate::expressions::expression;
use grammar::ahead::{Ahead, Stop};
use grammar::parts::Row;
use grammar::{Expr, MAX_DEPTH};
use lexer::{Lines, NoMemory, Token};
use std::alloc::Global;

/// The expression that these tokens are.
#[tactic(auto, unfolding(grammar::specs::Descent::reads_all))]
fn read_all<'t>(
    alloc: Global,
    lines: &Lines<'t>,
    tokens: &[Token],
) -> Result<Option<Expr<'t>>, NoMemory>
    ensures { IfOk result (λ r. option_map tree_of r
        ≡ reads_all (tokens_seen lines.now.text tokens.now)) }
{
    let mut ahead = Ahead::new(lines, tokens);
    let turns = ahead.len();
    match expression(alloc, &mut ahead, turns, Row::Whole, MAX_DEPTH) {
        Ok(part) => {
            if ahead.is_done() {
                Ok(Some(Box::into_inner(part.expr)))
            } else {
                Ok(None)
            }
        }
        Err(Stop::NoForm) => Ok(None),
        Err(Stop::NoMemory) => Err(NoMemory),
    }
}

/// The tree of the expression that the logical line at this place is; None where the line is no
/// expression, or one that is deeper than [`MAX_DEPTH`]. The expressions are those of the Starlark
/// specification in this project's profile.
///
/// # Errors
///
/// [`NoMemory`] where memory was refused.
pub fn line_expression<'t>(
    alloc: Global,
    lines: &Lines<'t>,
    place: usize,
) -> Result<Option<Expr<'t>>, NoMemory>
    requires { place < length lines.now.lines }
    ensures { (line : List Placed) → slice_get lines.now.lines place ≡ Some line
        → IfOk result (λ r. IsExpression (line_tokens line) (option_map tree_of r)) }
{
    read_all(alloc, lines, lines.line(place))
}
