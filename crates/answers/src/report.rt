//! The report on labels of a workspace.
ghost use Rattle.std.specs.Prelude.{◌≡◌, ◌<◌, ◌≤◌, ℕ, List, IfOk, Err, length, map};
ghost use Rattle.std.specs.List.{All};
ghost use Rattle.workspace.specs.Labels.{LabelParts, same_label};
ghost use Rattle.workspace.specs.Workspaces.{IsWorkspace, Pair};
ghost use Rattle.reporting.specs.Seen.{nodes_seen};
ghost use Rattle.loader.specs.Files.{faults};
ghost use Rattle.loader.specs.Loaded.{AreFilesOf};
ghost use Rattle.graph.specs.Graphs.{IsGraphOf};
ghost use Rattle.graph.specs.Reached.{TooManyReached};
ghost use Rattle.outcomes.specs.Workspaces.{dependencies};
ghost use Rattle.answers.specs.Nodes.{AreOutcomesOf, nodes_of};
ghost use Rattle.label_order.specs.Ordered.{entry_seen};
ghost use Rattle.workspace_laws.specs.Workspaces.{evaluated};
ghost use Rattle.answers.specs.Reports.{IsTooMany, Reports, node_limit};

use crate::found::found;
use crate::letting_go::Leftovers;
use crate::refused::{NoReport, without_graph};
use crate::team::{Deques, Shelving, Team};
use edges::NodeId;
use graph::Graph;
use label_order::{Entry, by_label};
use lexer::FaultKind;
use loader::LoadedFiles;
use modules::FileFault;
use packages::Targets;
use parallel::Workers;
use pool::{Gate, Gathered, Shelf, StealShelf};
use reporting::{Node, Report, make_report};
use std::alloc::{AllocError, Global};
use std::sync::Wait;
use std::thread::Threads;
use targets::Outcome;
use values::Kind;
use workspace::{Label, Workspace};

/// How many labels a report has at most. (This project's own limit.)
pub const NODE_LIMIT: usize = 1_048_576;

/// These labels, each with what was found of its node.
fn nodes_of<'a>(
    alloc: Global,
    found: &'a Gathered<Outcome>,
    entries: &[Entry<'a>],
) -> Result<Vec<Node<'a>>, AllocError>
    requires within { All (λ e. e.1 < found.now.nodes) entries.now }
    ensures { IfOk result
        (λ v. nodes_seen v.items ≡ nodes_of found.now (map entry_seen entries.now)) }
{
    let mut nodes = Vec::with_capacity(alloc, entries.len())?;
    for (label, number) in entries {
        nodes.push(Node {
            label,
            outcome: found.outcome(NodeId::of(*number)),
        })?;
    }
    Ok(nodes)
}

/// The report of files that fail, and of what was found of the nodes of a graph, written by so many
/// threads.
fn told<R: Threads + Sync>(
    rt: &R,
    alloc: Global,
    failing: &[FileFault<FaultKind, Kind>],
    graph: &Graph,
    found: &Gathered<Outcome>,
    threads: usize,
) -> Result<Report, AllocError>
    requires nodes { found.now.nodes ≡ length graph.now.labels }
    requires few { length graph.now.labels ≤ node_limit }
    ensures { (files workspace : List Pair) (limit : ℕ) (asked : List LabelParts)
        → failing.now ≡ faults files limit → IsWorkspace workspace → AreFilesOf workspace files
        → IsGraphOf (dependencies (evaluated files limit)) asked graph.now
        → AreOutcomesOf (evaluated files limit) graph.now.labels found.now
        → IfOk result (Reports workspace asked limit) }
{
    let entries = by_label(alloc, graph)?;
    let nodes = nodes_of(alloc, found, &entries)?;
    drop(entries);
    make_report(rt, alloc, failing, &nodes, threads)
}

/// The targets of a workspace that is read and evaluated, where each evaluation may use so many
/// steps (ticks of evaluation), by so many threads.
fn targets_of<R: Threads + Sync>(
    rt: &R,
    alloc: Global,
    workspace: &Workspace,
    limit: u64,
    threads: usize,
) -> Result<Targets, AllocError>
    ensures files { IfOk result (λ t. AreFilesOf workspace.now t.files) }
    ensures limit { IfOk result (λ t. t.limit ≡ limit) }
{
    let files = LoadedFiles::of(rt, alloc, workspace, limit, threads)?;
    Targets::declare(rt, alloc, files, threads)
}

/// The graph of these labels and of all that they depend on.
fn graph_of(alloc: Global, targets: &Targets, labels: &[Label]) -> Result<Graph, NoReport>
    ensures graph { let w = evaluated targets.now.files targets.now.limit in
        IfOk result (IsGraphOf (dependencies w) labels.now) }
    ensures within { IfOk result (λ g. length g.labels ≤ node_limit) }
    ensures many { let w = evaluated targets.now.files targets.now.limit in
        result ≡ Err NoReport.TooMany
        → TooManyReached (dependencies w) labels.now same_label node_limit }
    ensures threads { result ≡ Err NoReport.NoThread → ⊥ }
{
    match Graph::of(alloc, targets, labels, NODE_LIMIT) {
        Ok(graph) => Ok(graph),
        Err(refused) => Err(without_graph(refused)),
    }
}

/// The report of what was found of the nodes of a graph, by one thread. The targets are let go
/// before it is told, so that targets and report are never in memory at once.
fn told_alone<R: Threads + Sync>(
    rt: &R,
    alloc: Global,
    targets: Targets,
    graph: Graph,
    found: Gathered<Outcome>,
    leftovers: Leftovers,
) -> Result<Report, AllocError>
    requires nodes { found.nodes ≡ length graph.labels }
    requires few { length graph.labels ≤ node_limit }
    ensures { let w = evaluated targets.files targets.limit in
        (workspace : List Pair) (asked : List LabelParts) → IsWorkspace workspace
        → AreFilesOf workspace targets.files → IsGraphOf (dependencies w) asked graph
        → AreOutcomesOf w graph.labels found
        → IfOk result (Reports workspace asked targets.limit) }
{
    let failing = targets.into_faults();
    let report = told(rt, alloc, &failing, &graph, &found, 1);
    leftovers.of_two(found, graph);
    report
}

/// The report of what was found of the nodes of a graph, by so many threads. Afterwards what it was
/// made of is let go, each part by a thread, or left to the system.
fn told_together<R: Threads + Sync>(
    rt: &R,
    alloc: Global,
    targets: Targets,
    graph: Graph,
    found: Gathered<Outcome>,
    threads: usize,
    leftovers: Leftovers,
) -> Result<Report, AllocError>
    requires nodes { found.nodes ≡ length graph.labels }
    requires few { length graph.labels ≤ node_limit }
    ensures { let w = evaluated targets.files targets.limit in
        (workspace : List Pair) (asked : List LabelParts) → IsWorkspace workspace
        → AreFilesOf workspace targets.files → IsGraphOf (dependencies w) asked graph
        → AreOutcomesOf w graph.labels found
        → IfOk result (Reports workspace asked targets.limit) }
{
    let report = told(rt, alloc, targets.faults(), &graph, &found, threads);
    leftovers.of_three(rt, found, graph, targets);
    report
}

/// The report of what was found of the nodes of a graph, by one thread or by several.
fn told_of<R: Threads + Sync>(
    rt: &R,
    alloc: Global,
    targets: Targets,
    graph: Graph,
    found: Gathered<Outcome>,
    threads: usize,
    leftovers: Leftovers,
) -> Result<Report, AllocError>
    requires nodes { found.nodes ≡ length graph.labels }
    requires few { length graph.labels ≤ node_limit }
    ensures { let w = evaluated targets.files targets.limit in
        (workspace : List Pair) (asked : List LabelParts) → IsWorkspace workspace
        → AreFilesOf workspace targets.files → IsGraphOf (dependencies w) asked graph
        → AreOutcomesOf w graph.labels found
        → IfOk result (Reports workspace asked targets.limit) }
{
    if threads > 1 {
        told_together(rt, alloc, targets, graph, found, threads, leftovers)
    } else {
        told_alone(rt, alloc, targets, graph, found, leftovers)
    }
}

/// The report on the labels of a graph, by a team of workers at any shelf.
fn report_on_graph<R, S, F, G>(
    rt: &R,
    alloc: Global,
    targets: Targets,
    graph: Graph,
    team: &Team<'_, F, G>,
) -> Result<Report, NoReport>
where
    R: Threads + Wait + Sync,
    S: Shelf + Send,
    F: Shelving<S>,
    G: Gate,
    requires few { length graph.labels ≤ node_limit }
    ensures report { let w = evaluated targets.files targets.limit in
        (workspace : List Pair) (asked : List LabelParts) → IsWorkspace workspace
        → AreFilesOf workspace targets.files → IsGraphOf (dependencies w) asked graph
        → IfOk result (Reports workspace asked targets.limit) }
    ensures few { result ≡ Err NoReport.TooMany → ⊥ }
    ensures threads { result ≡ Err NoReport.NoThread → 1 < team.now.workers }
{
    let found = found::<R, S, F, G>(rt, alloc, &targets, &graph, team)?;
    let report = told_of(
        rt,
        alloc,
        targets,
        graph,
        found,
        team.workers.get(),
        team.leftovers,
    );
    Ok(report?)
}

/// The report on labels of a workspace and on all that they depend on, where each evaluation may
/// use so many steps (ticks of evaluation).
///
/// It is [`report_on_shelf`] where each worker has a deque, and where the memory of what the report
/// was made of is given back.
///
/// # Errors
///
/// `TooMany` only where more than [`NODE_LIMIT`] labels are reached; `NoMemory` where memory was
/// refused; `NoThread` where a thread was refused, or the memory to start it, never with one
/// worker.
pub fn report_on<R: Threads + Wait + Sync, G: Gate>(
    rt: &R,
    alloc: Global,
    workspace: &Workspace,
    labels: &[Label],
    workers: Workers,
    limit: u64,
    gate: &G,
) -> Result<Report, NoReport>
    ensures report { IfOk result (Reports workspace.now labels.now limit) }
    ensures many { result ≡ Err NoReport.TooMany
        → IsTooMany workspace.now labels.now limit }
    ensures threads { result ≡ Err NoReport.NoThread → 1 < workers }
{
    let team = Team {
        workers,
        shelving: &Deques,
        gate,
        leftovers: Leftovers::Free,
    };
    report_on_shelf::<R, StealShelf, Deques, G>(rt, alloc, workspace, labels, limit, &team)
}

/// The report on labels of a workspace, by a team of workers at any shelf.
///
/// `rt` is the permission to start threads and to wait. The labels are analysed by so many workers,
/// one in the thread that calls and the others in threads of their own, which have ended when this
/// returns. What the report says depends on none of them, nor on the shelf. The gate is called
/// round each label that isn't cyclic, by the worker that analyses it. Before them files are read
/// and `BUILD` files evaluated by as many threads, and afterwards the lines of many labels are
/// written by as many; modules are evaluated by the thread that calls.
///
/// # Errors
///
/// As for [`report_on`].
pub fn report_on_shelf<R, S, F, G>(
    rt: &R,
    alloc: Global,
    workspace: &Workspace,
    labels: &[Label],
    limit: u64,
    team: &Team<'_, F, G>,
) -> Result<Report, NoReport>
where
    R: Threads + Wait + Sync,
    S: Shelf + Send,
    F: Shelving<S>,
    G: Gate,
    ensures report { IfOk result (Reports workspace.now labels.now limit) }
    ensures many { result ≡ Err NoReport.TooMany
        → IsTooMany workspace.now labels.now limit }
    ensures threads { result ≡ Err NoReport.NoThread → 1 < team.now.workers }
{
    // Called for its contract alone: the paths are legal, and none of them stands twice.
    let _count = workspace.count();
    let targets = targets_of(rt, alloc, workspace, limit, team.workers.get())?;
    let graph = match graph_of(alloc, &targets, labels) {
        Ok(graph) => graph,
        Err(refused) => return Err(refused),
    };
    report_on_graph::<R, S, F, G>(rt, alloc, targets, graph, team)
}
