//! The board, and what a pass does at it.
//!
//! Each call takes the pass that steps. What it did stands in the pass's journal afterwards, and
//! its contract says so by one equation, `pass`, with the other clauses for callers' ease. `of`
//! says that the pass is still of this board. Each step of a board is one atomic operation on one
//! word; values go by cells that are set once, outside the words.
ghost use Rattle.std.specs.Prelude.{◌≡◌, ◌≢◌, ℕ, ◌+◌, ◌<◌, ◌≤◌, ◌⊎◌, [], ◌∷◌, length, false};
ghost use Rattle.std.specs.Prelude.{None, Some, IfOk, IfErr, IfSome};
ghost use Rattle.std.specs.Prelude.{MatchResult, MatchBool, MatchOption};
ghost use Rattle.once_cell.specs.Once.{Agrees};
ghost use Rattle.board.specs.Journal.{times, edge_times, deps, AtMost};
ghost use Rattle.board.specs.Journal.{MayWait, HasSentAll};
ghost use Rattle.board.specs.Lawful.{NothingTwice, WasComplete};
ghost use Rattle.board.specs.Answers.{MatchReadiness};
ghost use Rattle.board.specs.Steps.{with_started, with_delivered, with_readied, with_finished};
ghost use Rattle.board.specs.Steps.{with_least, with_set, with_saw};
ghost use Rattle.board.specs.Views.{Keeps, Agree, IsHeld, IsUnsent, IsPassOf};
ghost use Rattle.board.specs.Views.{knows, with_journal, with_known, saw_started};
ghost use Rattle.board.specs.Views.{FoundNothing, FoundValue};

use crate::answers::{NoMemory, NotReady, Readiness};
use crate::pass::{Pass, Published};
use crate::steps;
use crate::table::BoardTable;
use once_cell::race::OnceBox;
use std::alloc::{AllocFailed, Global};
use std::marker::Model;

/// The readiness words and result cells of a dependency graph with values of type `V`.
///
/// A node is a number below the number of nodes. Threads share a board by `&`, each with a
/// [`Pass`] of its own. A node is worked on by `start`, `publish`, a `deliver` to each user, and
/// `finish`, in this order and by one pass.
#[derive(Drop)]
pub struct Board<V> {
    pub(crate) table: BoardTable,
    pub(crate) cells: Vec<OnceBox<V>>,
    pub(crate) alloc: Global,
}

impl<V> Model for Board<V> {
    ghost use Rattle.std.specs.Prelude.{◌≡◌, ◌+◌, ◌<◌, length, map};
    ghost use Rattle.once_cell.specs.Once.{cell_name};
    ghost use Rattle.board.specs.Views.{BoardView};

    ghost Value = { BoardView };

    ghost view = { λ b. record {
      table = b.table.shared.table_id;
      cells = map cell_name b.cells.items;
      plan = b.table.shared.key.plan;
      passes = b.table.shared.key.passes;
    } };

    ghost invariant = { λ b. (length b.table.shared.key.plan ≡ length b.cells.items)
        × (b.table.shared.table_id.words ≡ length b.cells.items + 2)
        × (b.table.shared.table_id.slots ≡ 0)
        × (0 < b.table.shared.key.passes) };
}

impl<V> Board<V> {
    /// Starts the node, if all edges into it were delivered and no pass started it.
    ///
    /// At `Ok` this pass alone has the node: it didn't know the node's value, and there was a
    /// moment at which every dependency had delivered its edge. `NotReady` says that some pass had
    /// started the node, which this pass has then seen, or that an edge into it was missing, so
    /// that this pass hadn't readied it. One compare and exchange.
    ///
    /// # Errors
    ///
    /// `NotReady` where some pass had started the node, or an edge into it was missing.
    pub fn start(&self, pass: &mut Pass<V>, n: usize) -> Result<(), NotReady>
        requires pass { IsPassOf self.now pass.old }
        requires node { n < length self.now.plan }
        ensures of { IsPassOf self.now pass.new }
        ensures fresh { IfOk result (λ _. (knows pass.old n ≡ None) × (knows pass.new n ≡ None)
            × (0 < times n pass.new.journal.started)) }
        ensures complete { IfOk result (λ _. WasComplete n pass.old.journal) }
        ensures stays { IfErr result (λ _. pass.new
            ≡ with_journal pass.old (record pass.old.journal { seen = pass.new.journal.seen })) }
        ensures pass { let j = pass.old.journal in MatchResult result
            (λ _. pass.new ≡ with_journal pass.old (with_started n j))
            (λ _. (pass.new ≡ saw_started pass.old n)
            ⊎ ((pass.new ≡ pass.old) × MayWait self.now.plan n j)) }
    {
        steps::start(&self.table.shared, &mut pass.seat, n)
    }

    /// Delivers the edge from the published node to a user of it, once for each user.
    ///
    /// `Ready` comes exactly where it was the last edge into the user, to one pass alone. One
    /// subtraction from the user's word.
    pub fn deliver(&self, pass: &mut Pass<V>, published: &mut Published, user: usize) -> Readiness
        requires pass { IsPassOf self.now pass.old }
        requires held { IsHeld pass.old published.old.node }
        requires first { edge_times published.old.node user pass.old.journal.delivered ≡ 0 }
        requires edge { 0 < times published.old.node (deps self.now.plan user) }
        ensures of { IsPassOf self.now pass.new }
        ensures same { published.new ≡ published.old }
        ensures held { IsHeld pass.new published.old.node }
        ensures sent { 0 < edge_times published.old.node user pass.new.journal.delivered }
        ensures others { let d = published.old.node in (u : ℕ) → u ≢ user
            → edge_times d u pass.new.journal.delivered
            ≡ edge_times d u pass.old.journal.delivered }
        ensures pass { let j = with_delivered published.old.node user pass.old.journal in
            MatchReadiness result
            (pass.new ≡ with_journal pass.old (with_readied user j))
            (pass.new ≡ with_journal pass.old j) }
    {
        steps::deliver(&self.table.shared, &mut pass.seat, published.node, user)
    }

    /// Finishes the published node, after the edges to all its users were delivered. One
    /// subtraction from the count of unfinished nodes.
    pub fn finish(&self, pass: &mut Pass<V>, published: Published)
        requires pass { IsPassOf self.now pass.old }
        requires held { IsHeld pass.old published.node }
        requires whole { HasSentAll self.now.plan published.node pass.old.journal }
        ensures of { IsPassOf self.now pass.new }
        ensures pass { pass.new
            ≡ with_journal pass.old (with_finished published.node pass.old.journal) }
    {
        let Published { node } = published;
        steps::finish(&self.table.shared, &mut pass.seat, self.cells.len(), node);
    }

    /// How many nodes are not finished: at most what this pass saw before, and at most all nodes
    /// less those that it finished. Once a pass sees 0, all nodes are finished. One load.
    pub fn left(&self, pass: &mut Pass<V>) -> u64
        requires pass { IsPassOf self.now pass.old }
        ensures of { IsPassOf self.now pass.new }
        ensures lower { AtMost result pass.old.journal.least }
        ensures rest { result + length pass.old.journal.finished ≤ length self.now.plan }
        ensures pass { pass.new ≡ with_journal pass.old (with_least result pass.old.journal) }
    {
        steps::left(&self.table.shared, &mut pass.seat, self.cells.len())
    }

    /// Sets the halt, for good. One store.
    pub fn halt(&self, pass: &mut Pass<V>)
        requires pass { IsPassOf self.now pass.old }
        ensures of { IsPassOf self.now pass.new }
        ensures pass { pass.new ≡ with_journal pass.old (with_set pass.old.journal) }
    {
        steps::halt(&self.table.shared, &mut pass.seat, self.cells.len());
    }

    /// Whether some pass set the halt: true wherever this pass set it, or saw it before. One load.
    pub fn halted(&self, pass: &mut Pass<V>) -> bool
        requires pass { IsPassOf self.now pass.old }
        ensures of { IsPassOf self.now pass.new }
        ensures stays { pass.new
            ≡ with_journal pass.old (record pass.old.journal { saw = pass.new.journal.saw }) }
        ensures pass { let j = pass.old.journal in MatchBool result
            (pass.new ≡ with_journal pass.old (with_saw j))
            ((pass.new ≡ pass.old) × (j.set ≡ false) × (j.saw ≡ false)) }
    {
        steps::halted(&self.table.shared, &mut pass.seat, self.cells.len())
    }

    /// Brings two passes together, which stay as they were. They have no started, readied or
    /// finished node and no delivered edge in common, and agree on every node that both know.
    pub fn meet(&self, one: &mut Pass<V>, two: &mut Pass<V>)
        requires pass { IsPassOf self.now one.old × IsPassOf self.now two.old }
        ensures of { IsPassOf self.now one.new × IsPassOf self.now two.new }
        ensures same { (one.new ≡ one.old) × (two.new ≡ two.old) }
        ensures apart { NothingTwice (one.old.journal ∷ two.old.journal ∷ []) }
        ensures agree { Agree (knows one.old) (knows two.old) }
    {
        steps::meet(&self.table.shared, &mut one.seat, &mut two.seat);
        one.memory.compare(&mut two.memory);
    }

    /// The node's value, if this pass published or read it before, or finds it now.
    ///
    /// A pass that knows the value gets it every time, with no step on a word. Another loads the
    /// node's word first: `None` where the node wasn't started, or where it was and its value isn't
    /// there yet. A value that is found is that of the node, and the same for every pass.
    pub fn read<'a>(&'a self, pass: &mut Pass<V>, n: usize) -> Option<&'a V>
        requires pass { IsPassOf self.now pass.old }
        requires node { n < length self.now.plan }
        ensures of { IsPassOf self.now pass.new }
        ensures value { IfSome result (λ v. knows pass.new n ≡ Some v.now) }
        ensures begun { let j = pass.new.journal in IfSome result (λ _. (0 < times n j.started)
            ⊎ (0 < times n j.seen)) }
        ensures others { (k : ℕ) → k ≢ n → knows pass.new k ≡ knows pass.old k }
        ensures keeps { Keeps (knows pass.old) (knows pass.new) }
        ensures stays { pass.new.journal
            ≡ record pass.old.journal { seen = pass.new.journal.seen } }
        ensures pass { MatchOption result
            ((knows pass.old n ≡ None) × FoundNothing n pass.old pass.new)
            (λ v. Agrees (knows pass.old n) v.now × FoundValue n v.now pass.old pass.new) }
    {
        if !pass.memory.has(n) && !steps::look(&self.table.shared, &mut pass.seat, n) {
            return None;
        }
        pass.memory.get(&self.cells[n], n)
    }
}

impl<V: Drop> Board<V> {
    /// Publishes the value of a node that this pass started, once.
    ///
    /// `Err` gives the value back, with board and pass as they were; it comes where the allocator
    /// refuses memory for it. No step on a word.
    ///
    /// # Errors
    ///
    /// `NoMemory`, with the value, where memory for it was refused.
    pub fn publish(&self, pass: &mut Pass<V>, n: usize, v: V) -> Result<Published, (V, NoMemory)>
        requires pass { IsPassOf self.now pass.old }
        requires started { 0 < times n pass.old.journal.started }
        requires fresh { knows pass.old n ≡ None }
        requires node { n < length self.now.plan }
        ensures of { IsPassOf self.now pass.new }
        ensures held { IfOk result (λ p. (p.node ≡ n) × IsHeld pass.new n × IsUnsent pass.new n) }
        ensures value { IfOk result (λ _. knows pass.new n ≡ Some v) }
        ensures others { (k : ℕ) → k ≢ n → knows pass.new k ≡ knows pass.old k }
        ensures ok { IfOk result (λ _. pass.new ≡ with_known pass.old n v) }
        ensures err { IfErr result (λ e. (e.0 ≡ v) × (pass.new ≡ pass.old)) }
    {
        let value = match Box::new(self.alloc, v) {
            Ok(value) => value,
            Err(AllocFailed { value }) => return Err((value, NoMemory)),
        };
        let cell = &self.cells[n];
        let mut note = cell.note();
        match cell.set_as(value, &mut note) {
            Ok(()) => {
                pass.memory.learn(n, note);
                Ok(Published { node: n })
            }
            // No clause of the cell rules this out. The cell of a node is set by the one pass that
            // started the node, once, so it is empty here.
            Err(value) => Err((Box::into_inner(value), NoMemory)),
        }
    }
}
