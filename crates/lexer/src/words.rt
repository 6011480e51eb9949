//! The words that are no names.

ghost use Rattle.std.specs.Prelude.{◌≡◌, bytes_eq};
ghost use Rattle.lexer.specs.Words.{expression_word, statement_word, is_reserved_to_except};
ghost use Rattle.lexer.specs.Words.{is_reserved_to_nonlocal, is_reserved_to_yield, is_reserved};

use crate::token::Word;

fn spells(word: &[u8], spelling: &[u8]) -> bool
    ensures { result ≡ bytes_eq word.now spelling.now }
{
    word == spelling
}

pub(crate) fn expression_word(word: &[u8]) -> Option<Word>
    ensures { result ≡ expression_word word.now }
{
    if spells(word, b"and") {
        Some(Word::And)
    } else if spells(word, b"in") {
        Some(Word::In)
    } else if spells(word, b"not") {
        Some(Word::Not)
    } else if spells(word, b"or") {
        Some(Word::Or)
    } else if spells(word, b"for") {
        Some(Word::For)
    } else if spells(word, b"break") {
        Some(Word::Break)
    } else if spells(word, b"continue") {
        Some(Word::Continue)
    } else {
        None
    }
}

pub(crate) fn statement_word(word: &[u8]) -> Option<Word>
    ensures { result ≡ statement_word word.now }
{
    if spells(word, b"def") {
        Some(Word::Def)
    } else if spells(word, b"elif") {
        Some(Word::Elif)
    } else if spells(word, b"else") {
        Some(Word::Else)
    } else if spells(word, b"if") {
        Some(Word::If)
    } else if spells(word, b"load") {
        Some(Word::Load)
    } else if spells(word, b"pass") {
        Some(Word::Pass)
    } else if spells(word, b"return") {
        Some(Word::Return)
    } else {
        None
    }
}

fn is_reserved_to_except(word: &[u8]) -> bool
    ensures { result ≡ is_reserved_to_except word.now }
{
    spells(word, b"as")
        || spells(word, b"assert")
        || spells(word, b"async")
        || spells(word, b"await")
        || spells(word, b"class")
        || spells(word, b"del")
        || spells(word, b"except")
}

fn is_reserved_to_nonlocal(word: &[u8]) -> bool
    ensures { result ≡ is_reserved_to_nonlocal word.now }
{
    spells(word, b"finally")
        || spells(word, b"from")
        || spells(word, b"global")
        || spells(word, b"import")
        || spells(word, b"is")
        || spells(word, b"lambda")
        || spells(word, b"nonlocal")
}

fn is_reserved_to_yield(word: &[u8]) -> bool
    ensures { result ≡ is_reserved_to_yield word.now }
{
    spells(word, b"raise")
        || spells(word, b"try")
        || spells(word, b"while")
        || spells(word, b"with")
        || spells(word, b"yield")
}

pub(crate) fn is_reserved(word: &[u8]) -> bool
    ensures { result ≡ is_reserved word.now }
{
    is_reserved_to_except(word) || is_reserved_to_nonlocal(word) || is_reserved_to_yield(word)
}
