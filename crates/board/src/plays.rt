//! What each step on the words tells the pass that makes it.
//!
//! A step knows its word and the number that it found. Which node a pass delivers from or finishes
//! is neither, so it stands in a type: a brand, whose ghost member is the node.
ghost use Rattle.std.specs.Prelude.{ℕ};

use crate::journal::{Journal, Law};
use crate::key::BoardKey;
use atomic_table::{Play, Seat, Shared};
use std::collections::LinkedList;
use std::marker::{Brand, PhantomData};

/// What a seat knows: journals, one for a pass at rest.
pub type View = LinkedList<Journal>;

/// The words of a board, which all passes share.
pub type Words = Shared<(), View, BoardKey, Law>;

/// A seat at the words, which a pass steps with.
pub type BoardSeat = Seat<(), View>;

/// A type that stands for a node.
pub trait NodeBrand {
    ghost node: { ℕ };
}

/// The type at which each step calls a function of any such type. The node of that call is picked
/// in `proofs/` (`ghosts-..`), and what stands here isn't used.
impl NodeBrand for Brand {
    ghost node = { 0 };
}

/// A node's word is exchanged for the mark, if it is 0.
pub struct Starting;

impl Play<(), View> for Starting {
    ghost use Rattle.board.specs.Steps.{starting};

    ghost then = { starting };
}

/// The word of a user goes down by 1, for an edge from the branded node.
pub struct Delivering<N> {
    of: PhantomData<N>,
}

impl<N: NodeBrand> Play<(), View> for Delivering<N> {
    ghost use Rattle.board.specs.Steps.{delivering};

    ghost then = { delivering N.node };
}

/// The count goes down by 1, for the branded node.
pub struct Finishing<N> {
    of: PhantomData<N>,
}

impl<N: NodeBrand> Play<(), View> for Finishing<N> {
    ghost use Rattle.board.specs.Steps.{finishing};

    ghost then = { finishing N.node };
}

/// The count is loaded.
pub struct Counting;

impl Play<(), View> for Counting {
    ghost use Rattle.board.specs.Steps.{counting};

    ghost then = { counting };
}

/// The halt is set.
pub struct Halting;

impl Play<(), View> for Halting {
    ghost use Rattle.board.specs.Steps.{halting};

    ghost then = { halting };
}

/// The halt is loaded.
pub struct Hearing;

impl Play<(), View> for Hearing {
    ghost use Rattle.board.specs.Steps.{hearing};

    ghost then = { hearing };
}

/// A node's word is loaded, to see whether it is the mark.
pub struct Looking;

impl Play<(), View> for Looking {
    ghost use Rattle.board.specs.Steps.{looking};

    ghost then = { looking };
}

/// A word is loaded by a seat with the journals of two passes.
pub struct Comparing;

impl Play<(), View> for Comparing {
    ghost use Rattle.board.specs.Steps.{comparing};

    ghost then = { comparing };
}
