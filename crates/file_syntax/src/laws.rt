//! Laws of the trees of files, and of their faults.

ghost use Rattle.std.specs.Prelude.{◌≡◌, ◌≤◌, ◌↔◌, ◌∷◌, ◌++◌, ℕ, List, Some, Ok, Err, bytes_eq};
ghost use Rattle.std.specs.Prelude.{length, map, position, true};
ghost use Rattle.lexer.specs.Characters.{character_fault};
ghost use Rattle.lexer.specs.Scan.{tokens_of};
ghost use Rattle.lexer.specs.Layout.{at_start, line_starts};
ghost use Rattle.lexer.specs.Lines.{reading};
ghost use Rattle.lexer.specs.Parts.{IsTokens};
ghost use Rattle.lexer.specs.Tokens.{Placed};
ghost use Rattle.grammar.specs.Blocks.{Block};
ghost use Rattle.grammar.specs.BareLines.{Lines, Param, bare_lines};
ghost use Rattle.grammar.specs.BareDepth.{lines_depth};
ghost use Rattle.file_syntax.specs.Files.{IsFile, syntax};
ghost use Rattle.file_syntax.specs.FirstFault.{IsFault};
ghost use Rattle.file_syntax.specs.CharacterFault.{IsCharacterFault};
ghost use Rattle.file_syntax.specs.TokenFault.{IsTokenFault};
ghost use Rattle.file_syntax.specs.IndentFault.{IsIndentFault};
ghost use Rattle.file_syntax.specs.LineFault.{IsLineFault};
ghost use Rattle.file_syntax.specs.IsProgram.{IsProgram};
ghost use Rattle.file_syntax.specs.ProgramDepth.{IsShallow};
ghost use Rattle.program_tree.specs.Names.{Name, Scope, distinct, function_scope, param_name};
ghost use Rattle.program_tree.specs.Names.{slot_of, stands_for};
ghost use Rattle.program_tree.specs.Resolved.{resolved};
ghost use Rattle.program_tree.specs.declared.names.Binding.TheVariants.{Slot as slot};

use lexer::{FileKind, SyntaxFault};

/// The five passes give a tree exactly where it is that of the text.
pub fn trees_are_those_of_the_text()
    ensures { (text : List ℕ) (kind : FileKind) (tree : Block)
        → (syntax text kind ≡ Ok tree) ↔ IsFile text kind tree }
{}

/// A text has at most one tree of a kind.
pub fn texts_have_one_tree()
    ensures { (text : List ℕ) (kind : FileKind) (t u : Block) → IsFile text kind t
        → IsFile text kind u → t ≡ u }
{}

/// A text has a fault exactly where it has no tree.
pub fn faults_stand_where_no_tree_is()
    ensures refused { (text : List ℕ) (kind : FileKind) (f : SyntaxFault) (tree : Block)
        → syntax text kind ≡ Err f → ¬ IsFile text kind tree }
    ensures found { (text : List ℕ) (kind : FileKind) → ((tree : Block) → ¬ IsFile text kind tree)
        → (f : SyntaxFault) × (syntax text kind ≡ Err f) }
{}

/// A fault that the five passes give is the first fault of the text: that of the first pass that
/// finds one, at the first line where it does. A text has no other fault.
pub fn faults_are_the_first()
    ensures { (text : List ℕ) (kind : FileKind) (f : SyntaxFault)
        → (syntax text kind ≡ Err f) ↔ IsFault text kind f }
{}

/// The pass over characters finds a fault on a line exactly where the first byte of the text that
/// is no character stands on this line.
pub fn character_faults_stand_at_the_first_byte_that_is_none()
    ensures { (text : List ℕ) (line : ℕ)
        → (character_fault text ≡ Some line) ↔ IsCharacterFault text line }
{}

/// The pass over tokens finds a fault on a line exactly where the text is read in whole parts up to
/// a place on this line, and neither a space, the end of a line, a comment nor a token begins
/// there.
pub fn token_faults_stand_where_nothing_fits()
    ensures { (text : List ℕ) (line : ℕ) → (tokens_of text ≡ Err line) ↔ IsTokenFault text line }
{}

/// The pass over brackets and columns finds a fault on a line exactly where all is well before, and
/// then a logical line stands at a wrong column, a bracket may not stand where it does or is never
/// closed, or a line that ends with `:` has no block.
pub fn indent_faults_stand_at_brackets_and_lines()
    ensures { (text : List ℕ) (tokens : List Placed) (line : ℕ) → IsTokens text tokens
        → (line_starts 0 at_start tokens ≡ Err line) ↔ IsIndentFault tokens line }
{}

/// The fault of a text that is not read as logical lines is the first one of its characters, else
/// of its tokens, else of its brackets and columns. No other fault is found.
pub fn faults_of_lines_are_the_first()
    ensures { (text : List ℕ) (f : SyntaxFault) → (reading text ≡ Err f) ↔ IsLineFault text f }
{}

/// With its names resolved, each file is shallow and a program: whatever reads one can rely on it.
pub fn files_are_programs()
    ensures shallow { (text : List ℕ) (kind : FileKind) (tree : Block) → syntax text kind ≡ Ok tree
        → IsShallow (resolved (bare_lines tree)) }
    ensures fits { (text : List ℕ) (kind : FileKind) (tree : Block) → syntax text kind ≡ Ok tree
        → IsProgram (resolved (bare_lines tree)) }
{}

/// In a file no expression is more than 200 deep.
pub fn trees_are_shallow()
    ensures { (text : List ℕ) (kind : FileKind) (tree : Block) → IsFile text kind tree
        → lines_depth (bare_lines tree) ≤ 200 }
{}

/// Two names of one scope stand for two places: no slot and no number is that of two names.
pub fn names_have_places_of_their_own()
    ensures slots { (s : Scope) (x y : Name) (k : ℕ) → slot_of x s.levels ≡ Some k
        → slot_of y s.levels ≡ Some k → x ≡ y }
    ensures globals { (s : Scope) (x y : Name) (k : ℕ) → position (bytes_eq x) s.globals ≡ Some k
        → position (bytes_eq y) s.globals ≡ Some k → x ≡ y }
{}

/// In a function whose parameters are distinct, as many slots come before that of a parameter as
/// there are parameters before it.
pub fn parameters_have_the_first_slots()
    ensures { (s : Scope) (ps : List Param) (inner : Lines) (front behind : List Name) (x : Name)
        → distinct (map param_name ps) ≡ true → map param_name ps ≡ front ++ x ∷ behind
        → stands_for (function_scope s ps inner) x ≡ Some (slot (length front)) }
{}
