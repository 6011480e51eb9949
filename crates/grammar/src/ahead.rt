//! What is left of a logical line, and what is taken from its front.

ghost use Rattle.std.specs.Prelude.{◌≡◌, ℕ, List, length, IfSome, IfOk, true};
ghost use Rattle.std.specs.Option.{option_map};
ghost use Rattle.grammar.specs.Ahead.{is_done, Ends, Passes, Takes, tokens_seen, operator_at};
ghost use Rattle.grammar.specs.Ahead.{operator_of, behind_not, behind_minus, behind_if, HasHead};
ghost use Rattle.grammar.specs.Ahead.{PassesToken};
ghost use Rattle.grammar.specs.Ahead.{suffix_at, named_at, number_at, string_at, bracket_at};
ghost use Rattle.grammar.specs.Front.{next, behind_comma, behind_colon, behind_else, behind_close};
ghost use Rattle.grammar.specs.Front.{name_at, names_in, head_at, is_for};
ghost use Rattle.grammar.specs.FormDescent.{opening_at, behind_assign, behind_add, behind_open};
ghost use Rattle.grammar.specs.FormReading.{names_to};
ghost use Rattle.grammar.specs.TreeView.{operator_seen};
ghost use Rattle.lexer.specs.Strings.{unescaped};
ghost use Rattle.lexer.specs.Tokens.{mark, word};
ghost use Rattle.std.specs.Str.{IsAscii};

use crate::Name;
use crate::tree::Operator;
use lexer::{Bracket, Kind, Lines, Mark, Token, Word};
use std::alloc::{AllocError, AllocFailed, Global};
use std::marker::Model;

/// Why a line was not read.
#[derive(Clone, Copy, PartialEq, Eq, Debug)]
pub enum Stop {
    /// It has no form, or one with an expression that is too deep.
    NoForm,
    /// Memory was refused.
    NoMemory,
}

impl From<AllocError> for Stop {
    ghost use Rattle.std.specs.Prelude.{◌≡◌};
    ghost use Rattle.grammar.specs.declared.ahead.Stop.TheVariants.{NoMemory};

    ghost from_gives = { λ _ e. e ≡ NoMemory };

    fn from(_: AllocError) -> Self {
        Stop::NoMemory
    }
}

impl<T: Drop> From<AllocFailed<T>> for Stop {
    ghost use Rattle.std.specs.Prelude.{◌≡◌};
    ghost use Rattle.grammar.specs.declared.ahead.Stop.TheVariants.{NoMemory};

    ghost from_gives = { λ _ e. e ≡ NoMemory };

    fn from(_: AllocFailed<T>) -> Self {
        Stop::NoMemory
    }
}

/// How an expression goes on.
#[derive(Clone, Copy, PartialEq, Eq, Debug)]
pub enum Suffix {
    /// `.`.
    Attribute,
    /// `[`.
    Index,
    /// `(`.
    Call,
}

/// How a line begins, where that is with a word that begins no expression.
#[derive(Clone, Copy, PartialEq, Eq, Debug)]
pub enum Opening {
    Load,
    Def,
    If,
    Elif,
    Else,
    For,
    Pass,
    Break,
    Continue,
    Return,
    /// With a word that no line begins with, or not at all.
    Other,
}

/// The names behind commas up to `=`, and the tokens behind that.
#[tactic(auto, unfolding(crate::specs::FormReading::names_to))]
fn names_to<'l, 't>(
    alloc: Global,
    lines: &Lines<'t>,
    tokens: &'l [Token],
) -> Result<Option<(Vec<Name<'t>>, &'l [Token])>, AllocError>
    ensures { IfOk result (λ r. option_map (λ p. (p.0.items, tokens_seen lines.now.text p.1.now)) r
        ≡ names_to (tokens_seen lines.now.text tokens.now)) }
{
    let mut names = Vec::new(alloc);
    let mut left = tokens;
    while let [first, second, rest @ ..] = left {
        match (first.kind, second.kind) {
            (Kind::Mark(Mark::Comma), Kind::Name(span)) => {
                names.push(Name::new(lines.part(span)))?;
                left = rest;
            }
            _ => break,
        }
    }
    match left {
        [first, rest @ ..] => match first.kind {
            Kind::Mark(Mark::Assign) => Ok(Some((names, rest))),
            _ => Ok(None),
        },
        [] => Ok(None),
    }
}

/// How a clause of a comprehension begins.
#[derive(Drop)]
pub enum Head<'t> {
    /// With `for`, its first name, its others, and `in`.
    For(Name<'t>, Vec<Name<'t>>),
    /// With `if`.
    If,
    /// It doesn't.
    Other,
}

/// The names behind commas up to `in`, and the tokens behind that.
#[tactic(auto, unfolding(crate::specs::Front::names_in))]
fn names_in<'l, 't>(
    alloc: Global,
    lines: &Lines<'t>,
    tokens: &'l [Token],
) -> Result<Option<(Vec<Name<'t>>, &'l [Token])>, AllocError>
    ensures { IfOk result (λ r. option_map (λ p. (p.0.items, tokens_seen lines.now.text p.1.now)) r
        ≡ names_in (tokens_seen lines.now.text tokens.now)) }
{
    let mut names = Vec::new(alloc);
    let mut left = tokens;
    while let [first, second, rest @ ..] = left {
        match (first.kind, second.kind) {
            (Kind::Mark(Mark::Comma), Kind::Name(span)) => {
                names.push(Name::new(lines.part(span)))?;
                left = rest;
            }
            _ => break,
        }
    }
    match left {
        [first, rest @ ..] => match first.kind {
            Kind::Word(Word::In) => Ok(Some((names, rest))),
            _ => Ok(None),
        },
        [] => Ok(None),
    }
}

/// The operator between two parts that comes first, and the tokens behind it.
#[tactic(auto, unfolding(crate::specs::Front::next))]
fn operator_in(tokens: &[Token]) -> Option<(Operator, &[Token])>
    ensures { (text : List ℕ) → option_map (λ p. (operator_seen p.0, tokens_seen text p.1.now))
        result ≡ operator_of (next (tokens_seen text tokens.now)) }
{
    let [first, rest @ ..] = tokens else {
        return None;
    };
    let operator = match first.kind {
        Kind::Word(Word::Or) => Operator::Or,
        Kind::Word(Word::And) => Operator::And,
        Kind::Mark(Mark::Equal) => Operator::Equal,
        Kind::Mark(Mark::NotEqual) => Operator::NotEqual,
        Kind::Mark(Mark::Less) => Operator::Less,
        Kind::Mark(Mark::Greater) => Operator::Greater,
        Kind::Mark(Mark::LessEqual) => Operator::LessEqual,
        Kind::Mark(Mark::GreaterEqual) => Operator::GreaterEqual,
        Kind::Word(Word::In) => Operator::In,
        Kind::Word(Word::Not) => {
            let [second, behind @ ..] = rest else {
                return None;
            };
            return match second.kind {
                Kind::Word(Word::In) => Some((Operator::NotIn, behind)),
                _ => None,
            };
        }
        Kind::Mark(Mark::Plus) => Operator::Add,
        Kind::Mark(Mark::Minus) => Operator::Subtract,
        Kind::Mark(Mark::Star) => Operator::Multiply,
        Kind::Mark(Mark::FloorDivide) => Operator::FloorDivide,
        Kind::Mark(Mark::Percent) => Operator::Remainder,
        _ => return None,
    };
    Some((operator, rest))
}

/// The tokens of a line from one of them on. A clause sees their list.
#[derive(Drop)]
pub struct Ahead<'l, 't> {
    lines: &'l Lines<'t>,
    tokens: &'l [Token],
}

impl<'l, 't> Model for Ahead<'l, 't> {
    ghost use Rattle.std.specs.Prelude.{List};
    ghost use Rattle.lexer.specs.Tokens.{Token};
    ghost use Rattle.grammar.specs.Ahead.{tokens_seen};

    ghost Value = { List Token };

    ghost view = { λ a. tokens_seen a.lines.now.text a.tokens.now };
}

impl<'l, 't> Ahead<'l, 't> {
    /// These tokens of a line.
    pub fn new(lines: &'l Lines<'t>, tokens: &'l [Token]) -> Ahead<'l, 't>
        ensures { result ≡ tokens_seen lines.now.text tokens.now }
    {
        Ahead { lines, tokens }
    }

    /// How many tokens are left.
    pub fn len(&self) -> usize
        ensures { result ≡ length self.now }
    {
        self.tokens.len()
    }

    /// Whether nothing is left.
    pub fn is_done(&self) -> bool
        ensures { result ≡ is_done self.now }
    {
        let [_, ..] = self.tokens else {
            return true;
        };
        false
    }

    /// Passes a mark by, if it comes next.
    #[inline(always)]
    fn pass_mark(&mut self, wanted: Mark) -> bool
        ensures { PassesToken (mark wanted) result self.old self.new }
    {
        match self.tokens {
            [
                Token {
                    kind: Kind::Mark(found),
                    ..
                },
                rest @ ..,
            ] if *found == wanted => {
                self.tokens = rest;
                true
            }
            _ => false,
        }
    }

    /// Passes a word by, if it comes next.
    #[inline(always)]
    fn pass_word(&mut self, wanted: Word) -> bool
        ensures { PassesToken (word wanted) result self.old self.new }
    {
        match self.tokens {
            [
                Token {
                    kind: Kind::Word(found),
                    ..
                },
                rest @ ..,
            ] if *found == wanted => {
                self.tokens = rest;
                true
            }
            _ => false,
        }
    }

    /// Passes a comma by, if it comes next.
    #[tactic(auto, unfolding(crate::specs::Front::behind_comma))]
    pub fn comma(&mut self) -> bool
        ensures { Passes (behind_comma self.old) result self.old self.new }
    {
        self.pass_mark(Mark::Comma)
    }

    /// Passes a colon by.
    #[tactic(auto, unfolding(crate::specs::Front::behind_colon))]
    pub fn colon(&mut self) -> bool
        ensures { Passes (behind_colon self.old) result self.old self.new }
    {
        self.pass_mark(Mark::Colon)
    }

    /// Passes `else` by.
    #[tactic(auto, unfolding(crate::specs::Front::behind_else))]
    pub fn else_word(&mut self) -> bool
        ensures { Passes (behind_else self.old) result self.old self.new }
    {
        self.pass_word(Word::Else)
    }

    /// Passes `if` by.
    #[tactic(auto, unfolding(crate::specs::Ahead::behind_if))]
    pub fn if_word(&mut self) -> bool
        ensures { Passes (behind_if self.old) result self.old self.new }
    {
        self.pass_word(Word::If)
    }

    /// Passes `not` by.
    #[tactic(auto, unfolding(crate::specs::Ahead::behind_not))]
    pub fn not_word(&mut self) -> bool
        ensures { Passes (behind_not self.old) result self.old self.new }
    {
        self.pass_word(Word::Not)
    }

    /// Passes `-` by.
    #[tactic(auto, unfolding(crate::specs::Ahead::behind_minus))]
    pub fn minus(&mut self) -> bool
        ensures { Passes (behind_minus self.old) result self.old self.new }
    {
        self.pass_mark(Mark::Minus)
    }

    /// Whether a token comes next that is no operator between two parts, or none at all. Where it
    /// answers that there may be one, only time is lost.
    #[tactic(auto, unfolding(crate::specs::Front::next))]
    pub fn ends_here(&self) -> bool
        ensures { result ≡ true → Ends self.now }
    {
        let [first, ..] = self.tokens else {
            return true;
        };
        match first.kind {
            Kind::Mark(Mark::CloseParen)
            | Kind::Mark(Mark::CloseBracket)
            | Kind::Mark(Mark::CloseBrace)
            | Kind::Mark(Mark::Comma)
            | Kind::Mark(Mark::Colon)
            | Kind::Mark(Mark::Assign) => true,
            _ => false,
        }
    }

    /// Takes an operator of this level, of which `not in` has two tokens.
    #[tactic(auto, unfolding(crate::specs::Front::next))]
    pub fn operator(&mut self, level: usize) -> Option<Operator>
        ensures { Takes operator_seen (operator_at level self.old) result self.old self.new }
    {
        let (operator, behind) = operator_in(self.tokens)?;
        if operator.level() != level {
            return None;
        }
        self.tokens = behind;
        Some(operator)
    }

    /// Takes how an expression goes on.
    #[tactic(auto, unfolding(crate::specs::Ahead::suffix_at))]
    pub fn suffix(&mut self) -> Option<Suffix>
        ensures { Takes (λ s. s) (suffix_at self.old) result self.old self.new }
    {
        let [first, rest @ ..] = self.tokens else {
            return None;
        };
        let suffix = match first.kind {
            Kind::Mark(Mark::Dot) => Suffix::Attribute,
            Kind::Mark(Mark::OpenBracket) => Suffix::Index,
            Kind::Mark(Mark::OpenParen) => Suffix::Call,
            _ => return None,
        };
        self.tokens = rest;
        Some(suffix)
    }

    /// Takes an opening bracket.
    #[tactic(auto, unfolding(crate::specs::Ahead::bracket_at))]
    pub fn bracket(&mut self) -> Option<Bracket>
        ensures { Takes (λ b. b) (bracket_at self.old) result self.old self.new }
    {
        let [first, rest @ ..] = self.tokens else {
            return None;
        };
        let bracket = match first.kind {
            Kind::Mark(Mark::OpenParen) => Bracket::Round,
            Kind::Mark(Mark::OpenBracket) => Bracket::Square,
            Kind::Mark(Mark::OpenBrace) => Bracket::Curly,
            _ => return None,
        };
        self.tokens = rest;
        Some(bracket)
    }

    /// Passes the bracket by that closes one of this kind.
    #[tactic(auto, unfolding(crate::specs::Front::behind_close))]
    pub fn close(&mut self, bracket: Bracket) -> bool
        ensures { Passes (behind_close bracket self.old) result self.old self.new }
    {
        let [first, rest @ ..] = self.tokens else {
            return false;
        };
        match (bracket, first.kind) {
            (Bracket::Round, Kind::Mark(Mark::CloseParen))
            | (Bracket::Square, Kind::Mark(Mark::CloseBracket))
            | (Bracket::Curly, Kind::Mark(Mark::CloseBrace)) => {
                self.tokens = rest;
                true
            }
            _ => false,
        }
    }

    /// Takes a name.
    #[tactic(auto, unfolding(crate::specs::Front::name_at))]
    pub fn name(&mut self) -> Option<&'t str>
        ensures { Takes (λ s. s.now) (name_at self.old) result self.old self.new }
    {
        let [first, rest @ ..] = self.tokens else {
            return None;
        };
        match first.kind {
            Kind::Name(span) => {
                self.tokens = rest;
                Some(self.lines.part(span))
            }
            _ => None,
        }
    }

    /// Takes a name and the `=` behind it.
    #[tactic(auto, unfolding(crate::specs::Ahead::named_at))]
    pub fn named(&mut self) -> Option<&'t str>
        ensures { Takes (λ s. s.now) (named_at self.old) result self.old self.new }
    {
        let [first, second, rest @ ..] = self.tokens else {
            return None;
        };
        match (first.kind, second.kind) {
            (Kind::Name(span), Kind::Mark(Mark::Assign)) => {
                self.tokens = rest;
                Some(self.lines.part(span))
            }
            _ => None,
        }
    }

    /// Takes a number.
    #[tactic(auto, unfolding(crate::specs::Ahead::number_at))]
    pub fn number(&mut self) -> Option<u64>
        ensures { Takes (λ n. n) (number_at self.old) result self.old self.new }
    {
        let [first, rest @ ..] = self.tokens else {
            return None;
        };
        match first.kind {
            Kind::Number(value) => {
                self.tokens = rest;
                Some(value)
            }
            _ => None,
        }
    }

    /// Takes a string: its body, with its escapes as they are written.
    #[tactic(auto, unfolding(crate::specs::Ahead::string_at))]
    pub fn string(&mut self) -> Option<&'t str>
        ensures body { Takes (λ s. unescaped s.now) (string_at self.old) result self.old self.new }
        ensures ascii { IfSome result (λ s. IsAscii s.now) }
    {
        let [first, rest @ ..] = self.tokens else {
            return None;
        };
        match first.kind {
            Kind::Str(span) => {
                self.tokens = rest;
                Some(self.lines.part(span))
            }
            _ => None,
        }
    }

    /// Whether `for` comes next.
    #[tactic(auto, unfolding(crate::specs::Front::is_for))]
    pub fn is_for(&self) -> bool
        ensures { result ≡ is_for self.now }
    {
        let [first, ..] = self.tokens else {
            return false;
        };
        match first.kind {
            Kind::Word(Word::For) => true,
            _ => false,
        }
    }

    /// Takes how a clause of a comprehension begins.
    ///
    /// # Errors
    ///
    /// `AllocError` where memory was refused.
    #[tactic(auto, unfolding(crate::specs::Front::head_at))]
    pub fn head(&mut self, alloc: Global) -> Result<Head<'t>, AllocError>
        ensures { IfOk result (λ h. HasHead (head_at self.old) h self.old self.new) }
    {
        let [first, rest @ ..] = self.tokens else {
            return Ok(Head::Other);
        };
        match first.kind {
            Kind::Word(Word::If) => {
                self.tokens = rest;
                Ok(Head::If)
            }
            Kind::Word(Word::For) => {
                let [second, others @ ..] = rest else {
                    return Ok(Head::Other);
                };
                let Kind::Name(span) = second.kind else {
                    return Ok(Head::Other);
                };
                match names_in(alloc, self.lines, others)? {
                    Some((names, behind)) => {
                        let name = Name::new(self.lines.part(span));
                        self.tokens = behind;
                        Ok(Head::For(name, names))
                    }
                    None => Ok(Head::Other),
                }
            }
            _ => Ok(Head::Other),
        }
    }

    /// Takes how the line begins, where that is with a word that begins no expression.
    #[tactic(auto, unfolding(crate::specs::FormDescent::opening_at))]
    pub fn opening(&mut self) -> Option<Opening>
        ensures { Takes (λ o. o) (opening_at self.old) result self.old self.new }
    {
        let [first, rest @ ..] = self.tokens else {
            return Some(Opening::Other);
        };
        let opening = match first.kind {
            Kind::Word(Word::Load) => Opening::Load,
            Kind::Word(Word::Def) => Opening::Def,
            Kind::Word(Word::If) => Opening::If,
            Kind::Word(Word::Elif) => Opening::Elif,
            Kind::Word(Word::Else) => Opening::Else,
            Kind::Word(Word::For) => Opening::For,
            Kind::Word(Word::Pass) => Opening::Pass,
            Kind::Word(Word::Break) => Opening::Break,
            Kind::Word(Word::Continue) => Opening::Continue,
            Kind::Word(Word::Return) => Opening::Return,
            Kind::Word(Word::And | Word::In | Word::Or | Word::Reserved) => Opening::Other,
            _ => return None,
        };
        self.tokens = rest;
        Some(opening)
    }

    /// Passes `=` by.
    #[tactic(auto, unfolding(crate::specs::FormDescent::behind_assign))]
    pub fn assign(&mut self) -> bool
        ensures { Passes (behind_assign self.old) result self.old self.new }
    {
        self.pass_mark(Mark::Assign)
    }

    /// Passes `+=` by.
    #[tactic(auto, unfolding(crate::specs::FormDescent::behind_add))]
    pub fn add_assign(&mut self) -> bool
        ensures { Passes (behind_add self.old) result self.old self.new }
    {
        self.pass_mark(Mark::AddAssign)
    }

    /// Passes `(` by.
    #[tactic(auto, unfolding(crate::specs::FormDescent::behind_open))]
    pub fn open_round(&mut self) -> bool
        ensures { Passes (behind_open self.old) result self.old self.new }
    {
        self.pass_mark(Mark::OpenParen)
    }

    /// Takes the names behind commas up to `=`.
    ///
    /// # Errors
    ///
    /// `AllocError` where memory was refused.
    pub fn names_to(&mut self, alloc: Global) -> Result<Option<Vec<Name<'t>>>, AllocError>
        ensures { IfOk result (λ r. Takes (λ v. v.items) (names_to self.old) r self.old self.new) }
    {
        match names_to(alloc, self.lines, self.tokens)? {
            Some((names, rest)) => {
                self.tokens = rest;
                Ok(Some(names))
            }
            None => Ok(None),
        }
    }

    /// Takes the names behind commas up to `in`.
    ///
    /// # Errors
    ///
    /// `AllocError` where memory was refused.
    pub fn names_in(&mut self, alloc: Global) -> Result<Option<Vec<Name<'t>>>, AllocError>
        ensures { IfOk result (λ r. Takes (λ v. v.items) (names_in self.old) r self.old self.new) }
    {
        match names_in(alloc, self.lines, self.tokens)? {
            Some((names, rest)) => {
                self.tokens = rest;
                Ok(Some(names))
            }
            None => Ok(None),
        }
    }
}
