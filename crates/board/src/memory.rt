//! What a pass knows of the cells' values.
//!
//! A note knows for contracts alone: it has no bytes and cannot be asked. So a flag for each cell
//! says at run time whether its note knows. The model's invariant is that flags and notes agree.
ghost use Rattle.std.specs.Prelude.{◌≡◌, ◌≢◌, ◌<◌, ℕ, length, slice_index, map, true};
ghost use Rattle.std.specs.Prelude.{None, Some, MatchOption, IfSome, IfOk};
ghost use Rattle.once_cell.specs.Once.{cell_name, Agrees};
ghost use Rattle.board.specs.Views.{known_at, learned, is_known, cells_of, knowns_of};
ghost use Rattle.board.specs.Views.{Union, Same, Keeps, Agree, AgreeBelow, SameCells};

use crate::copying::copy_note;
use crate::flags::Flags;
use once_cell::race::{Note, OnceBox};
use std::alloc::{AllocError, Global};
use std::marker::Model;

/// A note for each cell, and a flag where it knows the value.
#[derive(Drop)]
pub struct Memory<V> {
    notes: Vec<Note<V>>,
    flags: Flags,
}

impl<V> Model for Memory<V> {
    ghost use Rattle.board.specs.Flags.{Tracks};
    ghost use Rattle.board.specs.Views.{MemoryView, cells_of, knowns_of};

    ghost Value = { MemoryView V };

    ghost view = { λ m. record {
      cells = cells_of m.notes.items;
      known = knowns_of m.notes.items;
    } };

    ghost invariant = { λ m. Tracks m.flags (knowns_of m.notes.items) };
}

impl<V> Memory<V> {
    /// Whether the value of node `n` is known.
    pub fn has(&self, n: usize) -> bool
        requires { n < length self.now.known }
        ensures { result ≡ is_known (known_at self.now n) }
    {
        self.flags.is_up(n)
    }

    /// The value in node `n`'s cell, which is known from then on. A known value is always there.
    pub fn get<'a>(&mut self, cell: &'a OnceBox<V>, n: usize) -> Option<&'a V>
        requires node { n < length self.old.known }
        requires cell { slice_index self.old.cells n ≡ cell_name cell.now }
        ensures value { MatchOption result
            ((known_at self.old n ≡ None) × (self.new ≡ self.old))
            (λ v. Agrees (known_at self.old n) v.now × (self.new ≡ learned self.old n v.now)) }
        ensures now { IfSome result (λ v. known_at self.new n ≡ Some v.now) }
        ensures others { (k : ℕ) → k ≢ n → known_at self.new k ≡ known_at self.old k }
        ensures keeps { Keeps (known_at self.old) (known_at self.new) }
    {
        match cell.get_as(&mut self.notes[n]) {
            None => None,
            Some(value) => {
                self.flags.raise(n);
                Some(value)
            }
        }
    }

    /// Takes a note that knows, of node `n`'s cell, in the place of the one there.
    pub fn learn(&mut self, n: usize, note: Note<V>)
        requires node { n < length self.old.known }
        requires note { (slice_index self.old.cells n ≡ note.cell) × (is_known note.known ≡ true) }
        ensures value { (v : V) → note.known ≡ Some v
            → (self.new ≡ learned self.old n v) × (known_at self.new n ≡ Some v) }
        ensures others { (k : ℕ) → k ≢ n → known_at self.new k ≡ known_at self.old k }
    {
        self.notes[n] = note;
        self.flags.raise(n);
    }
}

/// Both as before. Where both know a value, it is the same.
fn compare_all<V>(ours: &mut Vec<Note<V>>, theirs: &mut Vec<Note<V>>)
    requires { cells_of theirs.old.items ≡ cells_of ours.old.items }
    ensures same { (ours.new.items ≡ ours.old.items) × (theirs.new.items ≡ theirs.old.items) }
    ensures agree { let a = ours.old.items in let b = theirs.old.items in
        AgreeBelow (length a) (knowns_of a) (knowns_of b) }
{
    for i in 0..ours.len() {
        let copy = theirs[i].again();
        ours[i].compare(copy);
    }
}

impl<V> Memory<V> {
    /// What is known of the cell goes to `note`.
    pub fn tell(&self, n: usize, note: &mut Note<V>)
        requires { n < length self.now.known }
        ensures { (note.new.cell ≡ slice_index self.now.cells n)
            × (note.new.known ≡ known_at self.now n) }
    {
        copy_note(&self.notes[n], note);
    }

    /// A note of node `n`'s cell.
    fn another(&mut self, n: usize) -> Note<V>
        requires { n < length self.old.known }
        ensures { (self.new ≡ self.old) × (result.cell ≡ slice_index self.old.cells n) }
    {
        self.notes[n].again()
    }

    /// Where the note knows too, it knows the same.
    fn check(&mut self, n: usize, note: Note<V>)
        requires { (n < length self.old.known) × (slice_index self.old.cells n ≡ note.cell) }
        ensures { (self.new ≡ self.old) × Same (known_at self.old n) note.known }
    {
        self.notes[n].compare(note);
    }

    /// What the other memory knows of node `n` is known here too.
    fn add(&mut self, other: &Memory<V>, n: usize)
        requires node { (n < length self.old.known) × (n < length other.now.known) }
        requires cells { other.now.cells ≡ self.old.cells }
        ensures cells { SameCells self.old self.new }
        ensures here { Union (known_at self.old n) (known_at other.now n) (known_at self.new n) }
        ensures others { (k : ℕ) → k ≢ n → known_at self.new k ≡ known_at self.old k }
    {
        if other.has(n) {
            let mut note = self.another(n);
            other.tell(n, &mut note);
            if self.has(n) {
                self.check(n, note);
            } else {
                self.learn(n, note);
            }
        }
    }

    /// What either knew.
    pub fn merge(&mut self, other: &Memory<V>)
        requires { SameCells self.old other.now }
        ensures cells { SameCells self.old self.new }
        ensures known { (n : ℕ)
            → Union (known_at self.old n) (known_at other.now n) (known_at self.new n) }
    {
        if other.flags.is_new() {
            return;
        }
        let nodes = self.notes.len();
        let mut n = 0;
        while n < nodes {
            if n % 64 == 0 && other.flags.is_blank(n / 64) {
                n = n.saturating_add(64).min(nodes);
            } else {
                self.add(other, n);
                n += 1;
            }
        }
    }

    /// Both as before. Where both know a value, it is the same.
    pub fn compare(&mut self, other: &mut Memory<V>)
        requires { other.old.cells ≡ self.old.cells }
        ensures same { (self.new ≡ self.old) × (other.new ≡ other.old) }
        ensures agree { Agree (known_at self.old) (known_at other.old) }
    {
        compare_all(&mut self.notes, &mut other.notes);
    }
}

/// A note that knows nothing for each cell.
///
/// # Errors
///
/// `AllocError` where memory was refused.
pub fn fresh<V>(alloc: Global, cells: &[OnceBox<V>]) -> Result<Memory<V>, AllocError>
    ensures { IfOk result (λ m. (m.cells ≡ map cell_name cells.now)
        × (m.known ≡ map (λ _. None) cells.now)) }
{
    let mut notes = Vec::with_capacity(alloc, cells.len())?;
    for cell in cells {
        notes.push_reserved(cell.note());
    }
    let flags = Flags::new(alloc, cells.len())?;
    Ok(Memory { notes, flags })
}
