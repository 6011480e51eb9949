//! As many labels as a graph may have, and one more.
use graph::{Dependencies, Graph, GraphRefused};
use plain::Shared;
use std::alloc::{AllocError, Global};
use std::fmt::Write;
use workspace::Label;

/// How many labels an answer has at most.
const LIMIT: usize = 1_048_576;

/// Nothing depends on anything, as in an empty workspace.
#[derive(Drop)]
struct Nothing;

impl Dependencies for Nothing {
    ghost use Rattle.std.specs.Prelude.{[]};

    ghost needs = { λ _ _. [] };

    fn deps(&self, _label: &Label) -> &[Shared<Label>] {
        &[]
    }
}

/// The label `//a:N`.
fn label(alloc: Global, number: usize) -> Result<Option<Label>, AllocError> {
    let mut text = String::new(alloc);
    write!(text, "//a:{number}")?;
    match Label::read(alloc, &text, None) {
        Ok(label) => Ok(Some(label)),
        Err(_) => Ok(None),
    }
}

/// So many labels, each another one.
fn labels(alloc: Global, count: usize) -> Result<Vec<Label>, AllocError> {
    let mut labels = Vec::with_capacity(alloc, count)?;
    for number in 0..count {
        if let Some(label) = label(alloc, number)? {
            labels.push(label)?;
        }
    }
    Ok(labels)
}

/// Whether these are the greatest number of labels but for one, which is one too many.
fn is_limit(alloc: Global, labels: &[Label]) -> bool {
    let Some((_, fewer)) = labels.split_last() else {
        return false;
    };
    let many = Graph::of(alloc, &Nothing, labels, LIMIT);
    let all = Graph::of(alloc, &Nothing, fewer, LIMIT);
    matches!(many, Err(GraphRefused::TooMany)) && matches!(all, Ok(graph) if graph.nodes() == LIMIT)
}

/// Whether a label more than a graph may have is one too many.
fn limit(alloc: Global) -> bool {
    match labels(alloc, LIMIT + 1) {
        Ok(labels) => labels.len() == LIMIT + 1 && is_limit(alloc, &labels),
        Err(_) => false,
    }
}

#[test]
fn one_label_too_many(rt: HostRuntime) {
    assert!(rt; limit(rt.alloc()));
}
