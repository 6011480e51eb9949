//! Labels as keys of a set, found by package and name.
ghost use Rattle.std.specs.Prelude.{◌≡◌};
ghost use Rattle.workspace.specs.Labels.{same_label};

use indexmap::Equivalent;
use plain::Shared;
use std::hash::{Hash, Hasher};
use std::marker::Model;
use workspace::Label;

/// The label of a node. It is equal to another where package and name are, and hashed by its text.
#[derive(Drop)]
pub struct Node {
    pub label: Shared<Label>,
}

impl Model for Node {
    ghost use Rattle.workspace.specs.Labels.{LabelParts};

    ghost Value = { LabelParts };

    ghost view = { λ n. n.label };
}

impl PartialEq for Node {
    ghost use Rattle.workspace.specs.Labels.{same_label};
    ghost use Rattle.graph.specs.Same.{same_label-equiv};
    ghost use Rattle.std.specs.Cmp.{partial_equiv_from_equiv};

    ghost eq = { same_label };

    ghost laws = { partial_equiv_from_equiv same_label-equiv };

    fn eq(&self, other: &Node) -> bool {
        same_label(self.label.get(), other.label.get())
    }
}

impl Eq for Node {
    ghost use Rattle.graph.specs.Same.{same_label-equiv};

    ghost laws = { same_label-equiv };
}

impl Hash for Node {
    ghost use Rattle.std.specs.Hash as fed;
    ghost use Rattle.workspace.specs.Labels.{label_text};
    ghost use Rattle.graph.specs.Same.{same_label-hashed};

    ghost hash_input = { λ n. fed.str (label_text n) };

    ghost respects_eq = { same_label-hashed };

    fn hash<H: Hasher>(&self, state: &mut H) {
        self.label.get().text().hash(state);
    }
}

/// A label by which a node is found.
#[derive(Clone, Copy)]
pub struct Wanted<'a> {
    pub label: &'a Label,
}

impl<'a> PartialEq for Wanted<'a> {
    ghost use Rattle.workspace.specs.Labels.{same_label};
    ghost use Rattle.graph.specs.Same.{same_label-on};
    ghost use Rattle.std.specs.Cmp.{partial_equiv_from_equiv};

    ghost eq = { λ x y. same_label x.label.now y.label.now };

    ghost laws = { partial_equiv_from_equiv (same_label-on (λ x. x.label.now)) };

    fn eq(&self, other: &Wanted<'a>) -> bool {
        same_label(self.label, other.label)
    }
}

impl<'a> Eq for Wanted<'a> {
    ghost use Rattle.graph.specs.Same.{same_label-on};

    ghost laws = { same_label-on (λ x. x.label.now) };
}

impl<'a> Hash for Wanted<'a> {
    ghost use Rattle.std.specs.Hash as fed;
    ghost use Rattle.workspace.specs.Labels.{label_text};
    ghost use Rattle.graph.specs.Same.{same_label-hashed};

    ghost hash_input = { λ x. fed.str (label_text x.label.now) };

    ghost respects_eq = { λ x y. same_label-hashed x.label.now y.label.now };

    fn hash<H: Hasher>(&self, state: &mut H) {
        self.label.text().hash(state);
    }
}

impl<'a> Equivalent<Node> for Wanted<'a> {
    ghost use Rattle.workspace.specs.Labels.{same_label};
    ghost use Rattle.graph.specs.Same.{same_label-equiv, same_label-hashed};

    ghost equivalent = { λ q k. same_label q.label.now k };

    ghost respects_hash = { λ q k. same_label-hashed q.label.now k };

    ghost respects_eq = { λ q x y. same_label-equiv.congr q.label.now x y };

    fn equivalent(&self, key: &Node) -> bool {
        same_label(self.label, key.label.get())
    }
}

/// Whether two labels have one package and one name.
fn same_label(a: &Label, b: &Label) -> bool
    ensures { result ≡ same_label a.now b.now }
{
    a.package() == b.package() && a.name() == b.name()
}
