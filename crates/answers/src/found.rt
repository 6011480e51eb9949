//! What workers find of the nodes of a graph.
ghost use Rattle.std.specs.Prelude.{◌≡◌, ◌<◌, List, IfOk, Err, length};
ghost use Rattle.workspace.specs.Labels.{LabelParts};
ghost use Rattle.graph.specs.Graphs.{IsGraphOf};
ghost use Rattle.outcomes.specs.Workspaces.{dependencies};
ghost use Rattle.answers.specs.Nodes.{AreOutcomesOf};
ghost use Rattle.workspace_laws.specs.Workspaces.{evaluated};

use crate::label::LabelAnalysis;
use crate::refused::{NoReport, without_run};
use crate::team::{Shelving, Team};
use edges::NodeId;
use graph::Graph;
use packages::Targets;
use pool::{Analyse, Gate, Gathered, NoMemory, Shelf, run_on};
use std::alloc::Global;
use std::sync::Wait;
use std::thread::Threads;
use targets::{Outcome, TargetFault};

/// The work on the nodes of a graph of labels: of each, what becomes of its label.
#[derive(Drop)]
struct NodeAnalysis<'a> {
    labels: &'a LabelAnalysis<'a>,
    graph: &'a Graph,
}

impl<'a> Analyse<Outcome> for NodeAnalysis<'a> {
    ghost use Rattle.std.specs.Prelude.{length};
    ghost use Rattle.graph.specs.Same.{label_at};
    ghost use Rattle.outcomes.specs.Workspaces.{step_of};
    ghost use Rattle.targets.specs.declared.outcome.Outcome.TheVariants.{Failed};
    ghost use Rattle.targets.specs.declared.outcome.TargetFault.TheVariants.{Cycle};
    ghost use Rattle.workspace_laws.specs.Workspaces.{evaluated};

    ghost nodes = { λ a. length a.graph.now.labels };

    ghost step = { λ a n us. step_of (evaluated a.labels.now.files a.labels.now.limit)
        (label_at a.graph.now.labels n) us };

    ghost fits = { λ a n us. Unit {0} };

    ghost cycle = { λ a. Failed Cycle };

    fn cyclic(&self, _alloc: Global) -> Result<Outcome, NoMemory> {
        Ok(Outcome::Failed(TargetFault::Cycle))
    }

    fn analyse_one(
        &self,
        alloc: Global,
        n: NodeId,
        values: &[&Outcome],
    ) -> Result<Outcome, NoMemory> {
        let label = self.graph.label(n).get();
        match self.labels.analyse_one(alloc, label, values) {
            Ok(outcome) => Ok(outcome),
            Err(_) => Err(NoMemory),
        }
    }
}

/// What becomes of the labels of a graph, found by a team of workers.
pub(crate) fn found<R, S, F, G>(
    rt: &R,
    alloc: Global,
    targets: &Targets,
    graph: &Graph,
    team: &Team<'_, F, G>,
) -> Result<Gathered<Outcome>, NoReport>
where
    R: Threads + Wait + Sync,
    S: Shelf + Send,
    F: Shelving<S>,
    G: Gate,
    ensures nodes { IfOk result (λ g. g.nodes ≡ length graph.now.labels) }
    ensures outcomes { let w = evaluated targets.now.files targets.now.limit in
        (asked : List LabelParts) → IsGraphOf (dependencies w) asked graph.now
        → IfOk result (AreOutcomesOf w graph.now.labels) }
    ensures few { result ≡ Err NoReport.TooMany → ⊥ }
    ensures threads { result ≡ Err NoReport.NoThread → 1 < team.now.workers }
{
    let labels = LabelAnalysis::new(alloc, targets)?;
    let analysis = NodeAnalysis {
        labels: &labels,
        graph,
    };
    let edges = graph.edges();
    let Ok(ends) = team.shelving.ends(alloc, team.workers, edges.nodes()) else {
        return Err(NoReport::NoMemory);
    };
    match run_on(rt, alloc, edges, &analysis, ends, team.gate) {
        Ok(gathered) => Ok(gathered),
        Err(refused) => Err(without_run(refused)),
    }
}
