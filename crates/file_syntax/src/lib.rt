//! What the tree of a file is, from its bytes, and what the first fault of a text is that has none:
//! definitions and laws.
//!
//! The definitions join those of the lexer, of the grammar and of names that are resolved
//! (`specs/Files`, `FirstFault`), and add the rules of scopes (`specs/Scopes`). Where the faults of
//! characters, tokens, brackets and columns stand is said once more in the words of what stands
//! there (`specs/CharacterFault`, `TokenFault`, `IndentFault`, `LineFault`). What is so of each
//! file stands beside them: how deep its tree is (`specs/ProgramDepth`), and what a compiler can
//! rely on (`specs/IsProgram`). The parser is crate `syntax`; crate `evaluation` stands on these
//! definitions, and not on the parser.
#![tactic(auto)]

pub mod laws;
