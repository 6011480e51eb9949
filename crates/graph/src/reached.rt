//! All that is reached from labels.
ghost use Rattle.std.specs.Prelude.{◌≡◌, ◌+◌, ◌<◌, ◌≤◌, length, IfOk, IfErr, OnOk};
ghost use Rattle.workspace.specs.Labels.{same_label};
ghost use Rattle.graph.specs.Same.{no_label};
ghost use Rattle.graph.specs.Reached.{TooManyReached};
ghost use Rattle.graph.specs.Numbering.{Numbering};

use crate::dependencies::Dependencies;
use crate::numbers::Numbers;
use crate::refused::GraphRefused;
use edges::{Adjacency, NodeId};
use plain::Shared;
use std::alloc::{AllocError, Global};
use workspace::Label;

/// Labels by number, and the numbers of those that each needs.
#[derive(Drop)]
pub struct Reached {
    pub numbers: Numbers,
    /// Of the first labels while it is made, and in the end of all.
    pub deps: Adjacency,
}

/// Numbers what the label of the next row needs, and adds the row. `list` is memory for it.
fn add_row<S: Dependencies>(
    source: &S,
    reached: &mut Reached,
    list: &mut Vec<NodeId>,
    limit: usize,
    asked: &[Shared<Label>],
) -> Result<(), GraphRefused>
    requires more { length reached.old.deps < length reached.old.numbers }
    requires within { length reached.old.numbers ≤ limit }
    requires numbered { Numbering same_label no_label (S.needs source.now) asked.now
        reached.old.numbers reached.old.deps }
    ensures numbered { OnOk result (Numbering same_label no_label (S.needs source.now) asked.now
        reached.new.numbers reached.new.deps) }
    ensures within { OnOk result (length reached.new.numbers ≤ limit) }
    ensures rows { OnOk result (length reached.new.deps ≡ length reached.old.deps + 1) }
    ensures many { IfErr result (λ e. e ≡ GraphRefused.TooMany
        → TooManyReached (S.needs source.now) asked.now same_label limit) }
{
    let _asked = asked;
    let needed = source.deps(reached.numbers.label(reached.deps.len()).get());
    reached.numbers.number_all(list, needed, limit)?;
    reached.deps.push(list.as_slice())?;
    Ok(())
}

/// All that is reached from the labels that are asked for. The labels whose turn is still to come
/// are those behind the rows.
///
/// # Errors
///
/// `TooMany` where more labels are reached than the limit; `NoMemory` where memory was refused.
pub fn reached_from<S: Dependencies>(
    alloc: Global,
    source: &S,
    asked: &[Shared<Label>],
    limit: usize,
) -> Result<Reached, GraphRefused>
    ensures numbered { IfOk result
        (λ r. Numbering same_label no_label (S.needs source.now) asked.now r.numbers r.deps) }
    ensures whole { IfOk result (λ r. length r.deps ≡ length r.numbers) }
    ensures within { IfOk result (λ r. length r.numbers ≤ limit) }
    ensures many { IfErr result (λ e. e ≡ GraphRefused.TooMany
        → TooManyReached (S.needs source.now) asked.now same_label limit) }
{
    let mut numbers = Numbers::new(alloc);
    let mut list = Vec::new(alloc);
    numbers.number_all(&mut list, asked, limit)?;
    let deps = Adjacency::with_capacity(alloc, 0, 0)?;
    let mut reached = Reached { numbers, deps };
    'nodes: while reached.deps.len() < reached.numbers.len() {
        add_row(source, &mut reached, &mut list, limit, asked)?;
    }
    Ok(reached)
}
