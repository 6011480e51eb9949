//! The lists of `ctx.files` that were made for a target.
ghost use Rattle.std.specs.Prelude.{◌≡◌, Ok, MatchOption, ⊤};
ghost use Rattle.values.specs.Seeing.{item_value};

use std::alloc::{AllocError, Global};
use std::cell::OnceCell;
use std::marker::{Brand, PhantomData};
use values::{Item, Value};

/// What `ctx.files` gives in the implementation of one target: by the place of the attribute among
/// those of the rule, a list or a fault. It has a ghost member alone, which is picked where an
/// implementation is called, so that a type can say of a list that it is the list of an attribute
/// of that target.
pub trait FileLists {
    ghost use Rattle.std.specs.Prelude.{ℕ, Result};
    ghost use Rattle.ticks.specs.declared.ticks.Kind.{Kind};
    ghost use Rattle.values.specs.declared.value.Value.{Value};

    ghost list_at: { ℕ → Result Value Kind };
}

/// The type at which the call of an implementation goes to a function of any such type. The lists
/// of that call are picked in `proofs/` (`ghosts-run`), and what stands here isn't used.
impl FileLists for Brand {
    ghost use Rattle.std.specs.Prelude.{Err};
    ghost use Rattle.ticks.specs.declared.ticks.Kind.TheVariants.{Name};

    ghost list_at = { λ _. Err Name };
}

/// The list of the attribute at a place.
#[derive(Drop)]
struct Kept<I: FileLists> {
    place: usize,
    list: Value,
    of: PhantomData<I>,
    ghost listed: { I.list_at place ≡ Ok list },
}

/// The lists that were made so far, which are kept to the end of the call. There is a cell for each
/// attribute; the cells are made when the first list is kept, since not every target is asked for
/// one.
#[derive(Drop)]
pub(crate) struct KeptLists<I: FileLists> {
    cells: OnceCell<Vec<OnceCell<Kept<I>>>>,
}

impl<I: FileLists> KeptLists<I> {
    /// No lists.
    pub(crate) fn new() -> KeptLists<I> {
        KeptLists {
            cells: OnceCell::new(),
        }
    }

    /// The list of the attribute at a place, if it is kept.
    pub(crate) fn at(&self, place: usize) -> Option<Item<'_>>
        ensures { MatchOption result ⊤ (λ i. I.list_at place ≡ Ok (item_value i)) }
    {
        let kept = self.cells.get()?.get(place)?.get()?;
        // A cell holds the list of its own place; no clause says it of a cell, so the place is
        // compared.
        if kept.place == place {
            Some(kept.list.item())
        } else {
            None
        }
    }

    /// Keeps the list of the attribute at a place among so many.
    ///
    /// # Errors
    ///
    /// `AllocError` where memory was refused.
    pub(crate) fn keep(
        &self,
        alloc: Global,
        attributes: usize,
        place: usize,
        list: Value,
    ) -> Result<(), AllocError>
        requires { I.list_at place ≡ Ok list }
    {
        let cells = self
            .cells
            .get_or_try_init(|| empty_cells(alloc, attributes))?;
        if let Some(cell) = cells.get(place) {
            let _ = cell.set(Kept {
                place,
                list,
                of: PhantomData,
            });
        }
        Ok(())
    }
}

/// So many empty cells.
fn empty_cells<I: FileLists>(
    alloc: Global,
    attributes: usize,
) -> Result<Vec<OnceCell<Kept<I>>>, AllocError> {
    let mut cells = Vec::with_capacity(alloc, attributes)?;
    for _ in 0..attributes {
        cells.push(OnceCell::new())?;
    }
    Ok(cells)
}
