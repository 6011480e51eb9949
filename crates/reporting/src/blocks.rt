//! Nodes, each with how its actions are told.
ghost use Rattle.std.specs.Prelude.{◌≡◌, IfOk, OnOk, drop, map, take};
ghost use Rattle.depsets.specs.Listed.{walked};
ghost use Rattle.claims.specs.Conflicts.{conflicts_of};
ghost use Rattle.claims.specs.Telling.{telling};
ghost use Rattle.reporting.specs.Answers.{actions_of, node_actions, owned_actions, owned_by};
ghost use Rattle.reporting.specs.Seen.{block_seen, blocks_of, node_seen, nodes_seen};
ghost use Rattle.std.specs.Prelude.{◌++◌};

use crate::node_lines::Node;
use actions::Action;
use claims::{Owned, Telling, Told, tell};
use plain::Text;
use std::alloc::{AllocError, Global};
use targets::Outcome;

/// A node, and how its actions are told.
#[derive(Clone, Copy)]
pub(crate) struct Block<'a> {
    /// The node.
    pub node: Node<'a>,
    /// How each of its actions is told, in their order.
    pub tellings: &'a [Telling],
}

/// The actions that an outcome has.
fn actions_of(outcome: &Outcome) -> &[Action]
    ensures { result.now ≡ actions_of outcome.now }
{
    match outcome {
        Outcome::Source(_) => &[],
        Outcome::Done(_, actions) => actions.as_slice(),
        Outcome::Failed(_) => &[],
    }
}

/// Takes the actions of a label, whose text this is.
fn own_actions<'a>(
    owned: &mut Vec<Owned<'a>>,
    text: &Text,
    actions: &'a [Action],
) -> Result<(), AllocError>
    ensures { OnOk result
        (owned.new.items ≡ owned.old.items ++ map (owned_by text.now) actions.now) }
{
    for action in actions {
        owned.push(Owned::new(text.share()?, action))?;
    }
    Ok(())
}

/// Takes the actions of a node.
fn own_node<'a>(owned: &mut Vec<Owned<'a>>, node: &Node<'a>) -> Result<(), AllocError>
    ensures { OnOk result
        (owned.new.items ≡ owned.old.items ++ node_actions (node_seen node.now)) }
{
    let actions = actions_of(node.outcome);
    if actions.is_empty() {
        return Ok(());
    }
    own_actions(owned, node.label.shared_text(), actions)
}

/// The actions of nodes, with their owners.
fn owned_actions<'a>(alloc: Global, nodes: &[Node<'a>]) -> Result<Vec<Owned<'a>>, AllocError>
    ensures { IfOk result (λ v. v.items ≡ owned_actions (nodes_seen nodes.now)) }
{
    let mut owned = Vec::new(alloc);
    for node in nodes {
        own_node(&mut owned, node)?;
    }
    Ok(owned)
}

/// The conflicts of the actions of nodes, and how each action is told.
pub(crate) fn tell_nodes(alloc: Global, nodes: &[Node<'_>]) -> Result<Told, AllocError>
    ensures conflicts { IfOk result (λ t. t.conflicts.items
        ≡ conflicts_of walked (owned_actions (nodes_seen nodes.now))) }
    ensures tellings { IfOk result (λ t. t.tellings.items
        ≡ map (telling walked (owned_actions (nodes_seen nodes.now)))
        (owned_actions (nodes_seen nodes.now))) }
{
    let owned = owned_actions(alloc, nodes)?;
    tell(alloc, &owned)
}

/// The first `count` tellings, or all of them where there are fewer.
fn front(tellings: &[Telling], count: usize) -> &[Telling]
    ensures { result.now ≡ take count tellings.now }
{
    &tellings[..count.min(tellings.len())]
}

/// The tellings behind the first `count`.
fn behind(tellings: &[Telling], count: usize) -> &[Telling]
    ensures { result.now ≡ drop count tellings.now }
{
    &tellings[count.min(tellings.len())..]
}

/// Nodes, each with how its actions are told, where the actions of all are told so.
pub(crate) fn blocks<'a>(
    alloc: Global,
    nodes: &[Node<'a>],
    tellings: &'a [Telling],
) -> Result<Vec<Block<'a>>, AllocError>
    ensures { IfOk result
        (λ v. map block_seen v.items ≡ blocks_of tellings.now (nodes_seen nodes.now)) }
{
    let mut blocks = Vec::new(alloc);
    let mut rest = tellings;
    for node in nodes {
        let count = actions_of(node.outcome).len();
        blocks.push(Block {
            node: *node,
            tellings: front(rest, count),
        })?;
        rest = behind(rest, count);
    }
    Ok(blocks)
}
