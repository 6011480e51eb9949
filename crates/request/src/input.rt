//! The input: a workspace as JSON.
//!
//! The text is read token by token and each pair copied as it comes, so that no tree of the whole
//! stands beside the bytes and the files.

ghost use Rattle.std.specs.Prelude.{◌≡◌, ◌∷◌, List, IfOk, IsUtf8, Err, MatchOption, true};
ghost use Rattle.std.specs.Bool.{MatchBool};
ghost use Rattle.std.specs.List.{list_all};
ghost use Rattle.json.specs.Lex.{tokens};
ghost use Rattle.json.specs.Token as spec;
ghost use Rattle.request.specs.Input.{Spells};
ghost use Rattle.request.specs.InputTokens.{BeginsArray, BeginsString, BeginsPair, input_tokens};
ghost use Rattle.request.specs.InputTokens.{pair_before};
ghost use Rattle.workspace.specs.Workspaces.{Pair, is_file};

use json::{Reader, Scratch, Token};
use std::alloc::Global;
use std::str;
use workspace::{Workspace, WorkspaceBuilder, WorkspaceRefused};

/// The most bytes of an input.
pub const INPUT_LIMIT: usize = 16_777_216;

/// Why an input gave no workspace.
#[derive(Clone, Copy, Debug, PartialEq, Eq)]
pub enum InputRefused {
    /// The input spells no workspace.
    Illegal,
    /// Memory was refused.
    NoMemory,
}

/// Takes the bracket that opens an array, where it comes next.
fn take_begin_array(reader: &mut Reader<'_>) -> bool
    ensures { MatchBool result (reader.old ≡ spec.begin_array ∷ reader.new)
        (BeginsArray reader.old → ⊥) }
{
    match reader.next() {
        Some(Token::BeginArray) => true,
        _ => false,
    }
}

/// Takes a string, where one comes next.
fn take_string<'a>(reader: &mut Reader<'a>) -> Option<&'a str>
    ensures { MatchOption result (BeginsString reader.old → ⊥)
        (λ s. reader.old ≡ spec.string s.now ∷ reader.new) }
{
    match reader.next() {
        Some(Token::String(text)) => Some(text),
        _ => None,
    }
}

/// Takes an array of exactly two strings, where one comes next.
fn take_pair<'a>(reader: &mut Reader<'a>) -> Option<(&'a str, &'a str)>
    ensures { MatchOption result (BeginsPair reader.old → ⊥)
        (λ p. reader.old ≡ pair_before (p.0.now, p.1.now) reader.new) }
{
    if !take_begin_array(reader) {
        return None;
    }
    let path = take_string(reader)?;
    let text = take_string(reader)?;
    if !reader.take_end_array() {
        return None;
    }
    Some((path, text))
}

/// The files that a text spells, whose paths may stand twice.
fn read_files(alloc: Global, text: &str) -> Result<WorkspaceBuilder, InputRefused>
    ensures ok { IfOk result (λ files. tokens text.now ≡ input_tokens files) }
    ensures illegal { result ≡ Err InputRefused.Illegal → (pairs : List Pair)
        → tokens text.now ≡ input_tokens pairs → list_all is_file pairs ≡ true → ⊥ }
{
    let mut scratch = Scratch::new(alloc);
    let Ok(mut reader) = Reader::new(text, &mut scratch) else {
        return Err(InputRefused::NoMemory);
    };
    if !take_begin_array(&mut reader) {
        return Err(InputRefused::Illegal);
    }
    let mut files = WorkspaceBuilder::new(alloc);
    'pairs: while !reader.take_end_array() {
        let Some((path, contents)) = take_pair(&mut reader) else {
            return Err(InputRefused::Illegal);
        };
        match files.add(alloc, path, contents) {
            Ok(()) => {}
            Err(WorkspaceRefused::Illegal) => return Err(InputRefused::Illegal),
            Err(WorkspaceRefused::NoMemory) => return Err(InputRefused::NoMemory),
        }
    }
    match reader.next() {
        None => Ok(files),
        Some(_) => Err(InputRefused::Illegal),
    }
}

/// The files that an input spells, whose paths may stand twice.
fn input_files(alloc: Global, input: &[u8]) -> Result<WorkspaceBuilder, InputRefused>
    ensures ok { IfOk result (λ files. IsUtf8 input.now × (tokens input.now ≡ input_tokens files)) }
    ensures illegal { result ≡ Err InputRefused.Illegal → (pairs : List Pair)
        → IsUtf8 input.now → tokens input.now ≡ input_tokens pairs
        → list_all is_file pairs ≡ true → ⊥ }
{
    match str::from_utf8(input) {
        Ok(text) => read_files(alloc, text),
        Err(_) => Err(InputRefused::Illegal),
    }
}

/// The workspace that an input spells: a JSON array of arrays of exactly two strings, a path and a
/// text, in at most [`INPUT_LIMIT`] bytes of UTF-8. The input is given back to memory before the
/// paths are compared.
///
/// # Errors
///
/// `Illegal` where the input is longer, or is no such array, or the pairs are no workspace, and
/// `NoMemory` where memory was refused.
pub fn read_workspace(alloc: Global, input: Vec<u8>) -> Result<Workspace, InputRefused>
    ensures ok { IfOk result (λ w. Spells input.items w) }
    ensures illegal { result ≡ Err InputRefused.Illegal
        → (pairs : List Pair) → Spells input.items pairs → ⊥ }
{
    if input.len() > INPUT_LIMIT {
        return Err(InputRefused::Illegal);
    }
    let files = match input_files(alloc, input.as_slice()) {
        Ok(files) => files,
        Err(refused) => return Err(refused),
    };
    drop(input);
    match files.finish(alloc) {
        Ok(workspace) => Ok(workspace),
        Err(WorkspaceRefused::Illegal) => Err(InputRefused::Illegal),
        Err(WorkspaceRefused::NoMemory) => Err(InputRefused::NoMemory),
    }
}
