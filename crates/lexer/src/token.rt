//! Tokens, as places in the text that they stand in: a token owns no memory.

ghost use Rattle.std.specs.Prelude.{◌≡◌, List, ℕ};
ghost use Rattle.lexer.specs.Layout.{mark_of};
ghost use Rattle.lexer.specs.Seen.{token_seen};

/// A word that is no name.
#[derive(Clone, Copy, PartialEq, Eq, Debug)]
pub enum Word {
    And,
    Break,
    Continue,
    Def,
    Elif,
    Else,
    For,
    If,
    In,
    Load,
    Not,
    Or,
    Pass,
    Return,
    /// A word that Starlark reserves and that no form has, as `class`.
    Reserved,
}

/// An operator or a punctuation mark.
#[derive(Clone, Copy, PartialEq, Eq, Debug)]
pub enum Mark {
    OpenParen,
    CloseParen,
    OpenBracket,
    CloseBracket,
    OpenBrace,
    CloseBrace,
    Comma,
    Colon,
    Dot,
    Assign,
    AddAssign,
    Equal,
    NotEqual,
    Less,
    Greater,
    LessEqual,
    GreaterEqual,
    Plus,
    Minus,
    Star,
    FloorDivide,
    Percent,
}

/// A part of the text: the bytes from `start` on, up to the one before `end`.
#[derive(Clone, Copy, PartialEq, Eq, Debug)]
pub struct Span {
    pub start: usize,
    pub end: usize,
}

/// What a token is.
#[derive(Clone, Copy, PartialEq, Eq, Debug)]
pub enum Kind {
    /// A name, by its place in the text.
    Name(Span),
    /// A number, at most 2^63 - 1.
    Number(u64),
    /// A string, by its body between the quotes, with its escapes as they are written.
    Str(Span),
    Word(Word),
    Mark(Mark),
}

impl Kind {
    /// The mark that the token is.
    pub(crate) fn mark(self) -> Option<Mark>
        ensures { (text : List ℕ) → result ≡ mark_of (token_seen text self) }
    {
        match self {
            Kind::Mark(mark) => Some(mark),
            _ => None,
        }
    }
}

/// A token, with its line, counted from 1, and the number of bytes before it on that line.
#[derive(Clone, Copy, PartialEq, Eq, Debug)]
pub struct Token {
    pub kind: Kind,
    pub line: usize,
    pub column: usize,
}
