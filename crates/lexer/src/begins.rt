//! What begins at a byte of a text: the longest token that fits, or what separates tokens.

ghost use Rattle.std.specs.Prelude.{◌≡◌, ◌+◌, ◌<◌, ◌≤◌, ◌==◌, not, length, drop};
ghost use Rattle.std.specs.Prelude.{slice_index};
ghost use Rattle.lexer.specs.Characters.{newline};
ghost use Rattle.lexer.specs.Words.{word_or_name};
ghost use Rattle.lexer.specs.Begins.{begins, is_word_byte, run_length, number_at, name_at};
ghost use Rattle.lexer.specs.Begins.{string_at, mark_at};
ghost use Rattle.lexer.specs.Marks.{pair_mark, punctuation, operator};
ghost use Rattle.lexer.specs.Seen.{beginning_seen, token_seen, bytes_of, EndsWithin};

use crate::classes::{is_digit, is_letter, is_word_byte};
use crate::numbers::value_of;
use crate::strings::{body_length, is_quote};
use crate::token::{Kind, Mark, Span, Word};
use crate::words::{expression_word, is_reserved, statement_word};

/// What begins at a byte; a count is that of the further bytes that belong to it.
#[derive(Clone, Copy)]
pub(crate) enum Beginning {
    Space,
    LineEnd,
    Comment(usize),
    Token(Kind, usize),
    Nothing,
}

fn word_length(rest: &[u8]) -> usize
    ensures value { result ≡ run_length is_word_byte rest.now }
    ensures within { result ≤ length rest.now }
{
    rest.iter().take_while(|b| is_word_byte(**b)).count()
}

fn comment_length(rest: &[u8]) -> usize
    ensures value { result ≡ run_length (λ c. not (c == newline)) rest.now }
    ensures within { result ≤ length rest.now }
{
    rest.iter().take_while(|b| **b != b'\n').count()
}

/// The name or the word that a part of the text spells.
fn word_or_name(text: &[u8], part: Span) -> Kind
    requires { (part.start ≤ part.end) × (part.end ≤ length text.now) }
    ensures { token_seen text.now result ≡ word_or_name (bytes_of text.now part) }
{
    let spelling = &text[part.start..part.end];
    if let Some(word) = expression_word(spelling) {
        return Kind::Word(word);
    }
    if let Some(word) = statement_word(spelling) {
        return Kind::Word(word);
    }
    if is_reserved(spelling) {
        Kind::Word(Word::Reserved)
    } else {
        Kind::Name(part)
    }
}

/// The name or word whose first byte is at `at`.
fn name_at(text: &[u8], at: usize) -> Beginning
    requires { at < length text.now }
    ensures value { beginning_seen text.now result
        ≡ name_at (slice_index text.now at) (drop (at + 1) text.now) }
    ensures within { EndsWithin text.now at result }
{
    let more = word_length(&text[at + 1..]);
    let part = Span {
        start: at,
        end: at + 1 + more,
    };
    Beginning::Token(word_or_name(text, part), more)
}

/// The number whose first digit is at `at`, if it is one.
fn number_at(text: &[u8], at: usize) -> Beginning
    requires { at < length text.now }
    ensures value { beginning_seen text.now result
        ≡ number_at (slice_index text.now at) (drop (at + 1) text.now) }
    ensures within { EndsWithin text.now at result }
{
    let rest = &text[at + 1..];
    let more = word_length(rest);
    match value_of(text[at], &rest[..more]) {
        Some(value) => Beginning::Token(Kind::Number(value), more),
        None => Beginning::Nothing,
    }
}

/// The string whose opening quote is at `at`, if it is one.
fn string_at(text: &[u8], at: usize) -> Beginning
    requires { at < length text.now }
    ensures value { beginning_seen text.now result
        ≡ string_at (slice_index text.now at) (drop (at + 1) text.now) }
    ensures within { EndsWithin text.now at result }
{
    let start = at + 1;
    match body_length(text[at], &text[start..]) {
        Some(length) => {
            let body = Span {
                start,
                end: start + length,
            };
            Beginning::Token(Kind::Str(body), length + 1)
        }
        None => Beginning::Nothing,
    }
}

fn pair_mark(first: u8, second: u8) -> Option<Mark>
    ensures { result ≡ pair_mark first second }
{
    match (first, second) {
        (b'+', b'=') => Some(Mark::AddAssign),
        (b'=', b'=') => Some(Mark::Equal),
        (b'!', b'=') => Some(Mark::NotEqual),
        (b'<', b'=') => Some(Mark::LessEqual),
        (b'>', b'=') => Some(Mark::GreaterEqual),
        (b'/', b'/') => Some(Mark::FloorDivide),
        _ => None,
    }
}

fn punctuation(first: u8) -> Option<Mark>
    ensures { result ≡ punctuation first }
{
    match first {
        b'(' => Some(Mark::OpenParen),
        b')' => Some(Mark::CloseParen),
        b'[' => Some(Mark::OpenBracket),
        b']' => Some(Mark::CloseBracket),
        b'{' => Some(Mark::OpenBrace),
        b'}' => Some(Mark::CloseBrace),
        b',' => Some(Mark::Comma),
        b':' => Some(Mark::Colon),
        b'.' => Some(Mark::Dot),
        _ => None,
    }
}

fn operator(first: u8) -> Option<Mark>
    ensures { result ≡ operator first }
{
    match first {
        b'=' => Some(Mark::Assign),
        b'<' => Some(Mark::Less),
        b'>' => Some(Mark::Greater),
        b'+' => Some(Mark::Plus),
        b'-' => Some(Mark::Minus),
        b'*' => Some(Mark::Star),
        b'%' => Some(Mark::Percent),
        _ => None,
    }
}

/// The mark whose first byte is at `at`, if it is one.
fn mark_at(text: &[u8], at: usize) -> Beginning
    requires { at < length text.now }
    ensures value { beginning_seen text.now result
        ≡ mark_at (slice_index text.now at) (drop (at + 1) text.now) }
    ensures within { EndsWithin text.now at result }
{
    let first = text[at];
    if let [second, ..] = &text[at + 1..]
        && let Some(mark) = pair_mark(first, *second)
    {
        return Beginning::Token(Kind::Mark(mark), 1);
    }
    if let Some(mark) = punctuation(first) {
        return Beginning::Token(Kind::Mark(mark), 0);
    }
    match operator(first) {
        Some(mark) => Beginning::Token(Kind::Mark(mark), 0),
        None => Beginning::Nothing,
    }
}

/// What begins at the byte at `at`.
#[tactic(auto, unfolding(crate::specs::Begins::begins))]
pub(crate) fn begins(text: &[u8], at: usize) -> Beginning
    requires { at < length text.now }
    ensures value { beginning_seen text.now result
        ≡ begins (slice_index text.now at) (drop (at + 1) text.now) }
    ensures within { EndsWithin text.now at result }
{
    let first = text[at];
    if first == b' ' {
        Beginning::Space
    } else if first == b'\n' {
        Beginning::LineEnd
    } else if first == b'#' {
        Beginning::Comment(comment_length(&text[at + 1..]))
    } else if is_quote(first) {
        string_at(text, at)
    } else if is_digit(first) {
        number_at(text, at)
    } else if is_letter(first) {
        name_at(text, at)
    } else {
        mark_at(text, at)
    }
}
