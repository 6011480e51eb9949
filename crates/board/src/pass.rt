//! A pass, which one thread steps with, and what it publishes.
//!
//! A pass has a seat, whose view is its journal, and a memory of the cells' values. What it knows
//! stays tied to what it did: it started or saw started each node whose value it knows, and knows
//! each node that it finished or delivered from.
use crate::memory::Memory;
use crate::plays::BoardSeat;
use std::marker::Model;

/// What one thread works with: its place at the board, and what it read and published.
///
/// `Board::new` makes all passes of a board, each with a note and a flag for each node; no call
/// takes memory for them later. A pass is worth nothing at another board.
#[derive(Drop)]
pub struct Pass<V> {
    pub(crate) seat: BoardSeat,
    pub(crate) memory: Memory<V>,
}

impl<V> Model for Pass<V> {
    ghost use Rattle.std.specs.Prelude.{◌≡◌, []};
    ghost use Rattle.board.specs.Steps.{IsOne};
    ghost use Rattle.board.specs.Seats.{journal_of_seat};
    ghost use Rattle.board.specs.Views.{PassView, IsBacked, IsLevel};

    ghost Value = { PassView V };

    ghost view = { λ p. record {
      table = p.seat.table_id;
      journal = journal_of_seat p.seat;
      memory = p.memory;
    } };

    ghost invariant = { λ p. IsOne p.seat.me.0 × (p.seat.me.1 ≡ []) × IsLevel p.memory
        × IsBacked (journal_of_seat p.seat) p.memory };
}

/// A node whose value is published: what `publish` gives, `deliver` uses and `finish` takes.
///
/// It is to be used with the pass that published the node. One that is let go leaves the node
/// unfinished for good, and `left` above 0.
#[derive(Drop)]
pub struct Published {
    pub(crate) node: usize,
}

impl Model for Published {
    ghost use Rattle.board.specs.Views.{PublishedView};

    ghost Value = { PublishedView };

    ghost view = { λ p. record { node = p.node } };
}
