//! What the graph of labels means for outcomes. The function does nothing; its contract holds of
//! every graph.
ghost use Rattle.std.specs.Prelude.{List};
ghost use Rattle.workspace.specs.Labels.{LabelParts};
ghost use Rattle.graph.specs.Graphs.{GraphView, IsGraphOf};
ghost use Rattle.graph.specs.Laws.{Needs, Step, AreOfLabels};

/// What work on the nodes of a graph comes to is, at each node, what becomes of its label.
pub fn outcomes_are_of_labels<V>()
    ensures { (needs : Needs) (asked : List LabelParts) (g : GraphView) (cycle : LabelParts → V)
        (step : Step V) → IsGraphOf needs asked g → AreOfLabels needs g cycle step }
{}
