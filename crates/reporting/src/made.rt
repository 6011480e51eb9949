//! A report as a whole.
ghost use Rattle.std.specs.Prelude.{◌≡◌, ◌++◌, ◌||◌, string_bytes, IfOk, OnOk};
ghost use Rattle.std.specs.List.{flat_map, list_any};
ghost use Rattle.depsets.specs.Listed.{walked};
ghost use Rattle.targets.specs.Steps.{is_failed};
ghost use Rattle.reporting.specs.Lines.{conflict_line};
ghost use Rattle.reporting.specs.Answers.{file_line, has_some, is_loud, report_text};
ghost use Rattle.reporting.specs.Seen.{block_text, blocks_of, lines_of, node_seen, nodes_seen};
ghost use Rattle.reporting.specs.Seen.{text_of};
ghost use Rattle.reporting.specs.Reported.{report_bytes};

use crate::blocks::{Block, blocks, tell_nodes};
use crate::conflict_lines::put_conflict;
use crate::load_lines::put_load_fault;
use crate::node_lines::{Node, node_parts};
use claims::{Conflict, Told};
use lexer::FaultKind;
use modules::FileFault;
use std::alloc::{AllocError, Global};
use std::thread::Threads;
use values::Kind;

/// A report: its text, and whether it is loud.
#[derive(Drop)]
pub struct Report {
    /// Parts of the text, which stand one after the other.
    pub parts: Vec<String>,
    /// Whether it is loud: it tells of a file that failed, a label that failed (also one that names
    /// nothing) or a conflict.
    pub loud: bool,
}

impl Report {
    /// The bytes of the whole text.
    ///
    /// # Errors
    ///
    /// `AllocError` where memory was refused.
    pub fn to_bytes(&self, alloc: Global) -> Result<Vec<u8>, AllocError>
        ensures { IfOk result (λ bytes. bytes.items ≡ report_bytes self.now) }
    {
        joined(alloc, &self.parts)
    }
}

/// The bytes of texts, one after the other.
fn joined(alloc: Global, texts: &[String]) -> Result<Vec<u8>, AllocError>
    ensures { IfOk result (λ bytes. bytes.items ≡ text_of texts.now) }
{
    let mut bytes = Vec::new(alloc);
    for text in texts {
        bytes.extend_from_slice(text.as_bytes())?;
    }
    Ok(bytes)
}

/// Appends a line for each file that failed.
fn put_faults(out: &mut String, faults: &[FileFault<FaultKind, Kind>]) -> Result<(), AllocError>
    ensures { OnOk result (string_bytes out.new
        ≡ string_bytes out.old ++ flat_map file_line faults.now) }
{
    for fault in faults {
        put_load_fault(out, &fault.path, &fault.fault)?;
    }
    Ok(())
}

/// Appends a line for each conflict.
fn put_conflicts(out: &mut String, conflicts: &[Conflict]) -> Result<(), AllocError>
    ensures { OnOk result (string_bytes out.new
        ≡ string_bytes out.old ++ flat_map conflict_line conflicts.now) }
{
    for conflict in conflicts {
        put_conflict(out, conflict)?;
    }
    Ok(())
}

/// Whether a node is a label that failed.
fn is_failed(node: &Node<'_>) -> bool
    ensures { result ≡ is_failed (node_seen node.now).outcome }
{
    node.outcome.is_failed()
}

/// Whether one of the labels failed.
fn any_failed(nodes: &[Node<'_>]) -> bool
    ensures { result ≡ list_any (λ n. is_failed (node_seen n).outcome) nodes.now }
{
    nodes.iter().any(|node| is_failed(node))
}

/// The same, as the definition of a report has it.
fn has_failed(nodes: &[Node<'_>]) -> bool
    ensures { result ≡ list_any (λ n. is_failed n.outcome) (nodes_seen nodes.now) }
{
    any_failed(nodes)
}

/// The report of files that failed and of nodes, both in the order in which they are to stand.
///
/// It takes time linear in its length, and n log n comparisons of paths for n outputs of actions;
/// no action and no value is copied. An action that declares a path that another declares too has
/// its inputs listed once more. The lines of many nodes are written by so many threads at most,
/// which have ended when this returns; what they are depends on none of them.
///
/// # Errors
///
/// `AllocError` where memory for the text, for a listing or for the claims of actions was refused.
pub fn make_report<R: Threads + Sync>(
    rt: &R,
    alloc: Global,
    faults: &[FileFault<FaultKind, Kind>],
    nodes: &[Node<'_>],
    threads: usize,
) -> Result<Report, AllocError>
    ensures text { IfOk result
        (λ r. report_bytes r ≡ report_text walked faults.now (nodes_seen nodes.now)) }
    ensures loud { IfOk result (λ r. r.loud ≡ is_loud walked faults.now (nodes_seen nodes.now)) }
{
    let told = tell_nodes(alloc, nodes)?;
    let parts = told_lines(rt, alloc, faults, nodes, &told, threads)?;
    let loud = is_loud(faults, nodes, &told.conflicts);
    Ok(Report { parts, loud })
}

/// Whether a report tells of a file that failed, a label that failed or one of these conflicts.
fn is_loud(
    faults: &[FileFault<FaultKind, Kind>],
    nodes: &[Node<'_>],
    conflicts: &[Conflict],
) -> bool
    ensures { result ≡ (has_some faults.now
        || (list_any (λ n. is_failed n.outcome) (nodes_seen nodes.now) || has_some conflicts.now)) }
{
    !faults.is_empty() || has_failed(nodes) || !conflicts.is_empty()
}

/// The lines of files that failed.
fn fault_lines(alloc: Global, faults: &[FileFault<FaultKind, Kind>]) -> Result<String, AllocError>
    ensures { IfOk result (λ text. string_bytes text ≡ flat_map file_line faults.now) }
{
    let mut out = String::new(alloc);
    put_faults(&mut out, faults)?;
    Ok(out)
}

/// The lines of conflicts.
fn conflict_lines(alloc: Global, conflicts: &[Conflict]) -> Result<String, AllocError>
    ensures { IfOk result (λ text. string_bytes text ≡ flat_map conflict_line conflicts.now) }
{
    let mut out = String::new(alloc);
    put_conflicts(&mut out, conflicts)?;
    Ok(out)
}

/// All lines, in parts, where the actions of the nodes are told so.
fn told_lines<R: Threads + Sync>(
    rt: &R,
    alloc: Global,
    faults: &[FileFault<FaultKind, Kind>],
    nodes: &[Node<'_>],
    told: &Told,
    threads: usize,
) -> Result<Vec<String>, AllocError>
    ensures { IfOk result (λ parts. text_of parts.items ≡ flat_map file_line faults.now
        ++ (flat_map (block_text walked) (blocks_of told.now.tellings.items (nodes_seen nodes.now))
        ++ flat_map conflict_line told.now.conflicts.items)) }
{
    let blocks = blocks(alloc, nodes, &told.tellings)?;
    lines(rt, alloc, faults, &blocks, &told.conflicts, threads)
}

/// All lines, in parts.
fn lines<R: Threads + Sync>(
    rt: &R,
    alloc: Global,
    faults: &[FileFault<FaultKind, Kind>],
    blocks: &[Block<'_>],
    conflicts: &[Conflict],
    threads: usize,
) -> Result<Vec<String>, AllocError>
    ensures { IfOk result (λ parts. text_of parts.items ≡ flat_map file_line faults.now
        ++ (lines_of blocks.now ++ flat_map conflict_line conflicts.now)) }
{
    let mut parts = Vec::new(alloc);
    parts.push(fault_lines(alloc, faults)?)?;
    let mut nodes = node_parts(rt, alloc, blocks, threads)?;
    parts.append(&mut nodes)?;
    parts.push(conflict_lines(alloc, conflicts)?)?;
    Ok(parts)
}
