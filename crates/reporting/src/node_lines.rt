//! The lines of labels, written by several threads.
ghost use Rattle.std.specs.Prelude.{◌≡◌, ◌++◌, ◌<◌, drop, string_bytes, IfOk, OnOk};
ghost use Rattle.std.specs.Fork.{slice_chunk};
ghost use Rattle.depsets.specs.Listed.{walked};
ghost use Rattle.reporting.specs.Seen.{AreParts, block_seen, block_text, lines_of, text_of};

use crate::blocks::Block;
use crate::outcome_lines::put_outcome;
use parallel::map_places;
use std::alloc::{AllocError, Global};
use std::thread::Threads;
use targets::Outcome;
use workspace::Label;

/// How many nodes each part of a report has. A thread takes the next part that none has taken, so
/// the more parts there are the more evenly the threads end.
const PART: usize = 256;

/// A label, and what becomes of it.
#[derive(Clone, Copy)]
pub struct Node<'a> {
    /// The label.
    pub label: &'a Label,
    /// What becomes of it.
    pub outcome: &'a Outcome,
}

/// Appends the lines of a node.
fn put_node(alloc: Global, out: &mut String, block: &Block<'_>) -> Result<(), AllocError>
    ensures { OnOk result (string_bytes out.new
        ≡ string_bytes out.old ++ block_text walked (block_seen block.now)) }
{
    put_outcome(
        alloc,
        out,
        block.node.label,
        block.node.outcome,
        block.tellings,
    )
}

/// Appends the lines of nodes.
fn put_nodes(alloc: Global, out: &mut String, blocks: &[Block<'_>]) -> Result<(), AllocError>
    ensures { OnOk result (string_bytes out.new
        ≡ string_bytes out.old ++ lines_of blocks.now) }
{
    for block in blocks {
        put_node(alloc, out, block)?;
    }
    Ok(())
}

/// The lines of nodes, in no more memory than they take.
fn lines(alloc: Global, blocks: &[Block<'_>]) -> Result<String, AllocError>
    ensures { IfOk result (λ t. string_bytes t ≡ lines_of blocks.now) }
{
    let mut out = String::new(alloc);
    put_nodes(alloc, &mut out, blocks)?;
    out.shrink_to_fit();
    Ok(out)
}

/// The nodes from a place on.
fn blocks_from<'n, 'a>(blocks: &'n [Block<'a>], start: usize) -> &'n [Block<'a>]
    ensures { result.now ≡ drop start blocks.now }
{
    &blocks[start.min(blocks.len())..]
}

/// The nodes of a part, where each part has so many.
fn part_at<'n, 'a>(blocks: &'n [Block<'a>], size: usize, place: usize) -> &'n [Block<'a>]
    ensures { result.now ≡ slice_chunk blocks.now size place }
{
    let rest = blocks_from(blocks, place.saturating_mul(size));
    &rest[..size.min(rest.len())]
}

/// The lines of a part, where each part has so many nodes.
fn lines_of_part(
    alloc: Global,
    blocks: &[Block<'_>],
    size: usize,
    place: usize,
) -> Result<String, AllocError>
    ensures { IfOk result (λ t. string_bytes t ≡ lines_of (slice_chunk blocks.now size place)) }
{
    lines(alloc, part_at(blocks, size, place))
}

/// The lines of each part, where each part has so many nodes, written by so many threads.
fn lines_of_parts<R: Threads + Sync>(
    rt: &R,
    alloc: Global,
    blocks: &[Block<'_>],
    size: usize,
    threads: usize,
) -> Result<Vec<String>, AllocError>
    requires { 0 < size }
    ensures { IfOk result (λ texts. AreParts blocks.now size texts.items) }
{
    map_places(
        rt,
        alloc,
        blocks.len().div_ceil(size),
        threads,
        &|place: usize| -> Result<String, AllocError>
            ensures { IfOk result
                (λ t. string_bytes t ≡ lines_of (slice_chunk blocks.entry.now size place)) }
        { lines_of_part(alloc, blocks, size, place) },
    )
}

/// The lines of nodes, in parts that stand one after the other, which are written by so many
/// threads at most.
///
/// Where no thread can be started, the parts are written one after the other.
#[tactic(auto, using(crate::proofs::Parts::parts_are_whole))]
pub(crate) fn node_parts<R: Threads + Sync>(
    rt: &R,
    alloc: Global,
    blocks: &[Block<'_>],
    threads: usize,
) -> Result<Vec<String>, AllocError>
    ensures { IfOk result (λ texts. text_of texts.items ≡ lines_of blocks.now) }
{
    lines_of_parts(rt, alloc, blocks, PART, threads)
}
