//! What holds of values and states through an evaluation, if each operation keeps it.
//!
//! Definitions and lemmas over the meaning of files (`meaning`), for any operations: `specs/Kept`
//! says what is kept, over a world that only grows, and `specs/Owed` what each operation owes for
//! it; `proofs/Calls`, that the calls of functions and the top levels of files keep it then. A
//! contract can't speak of every such relation, so there is no call here: the crates above have one
//! for theirs.
#![tactic(auto)]
