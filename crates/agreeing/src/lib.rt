//! Two records of operations that agree wherever what holds holds: evaluations agree then.
//!
//! Definitions and lemmas over what evaluations keep (`keeping`): `specs/Agreed` says where two
//! records of operations agree, and `specs/Laws` with `proofs/Calls`, that the calls of functions
//! and the top levels of files then do the same by either. A contract can't speak of every such
//! relation, so there is no call here: the crates above have one for theirs.
#![tactic(auto)]
