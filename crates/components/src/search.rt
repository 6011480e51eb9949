//! The search for components, depth first along dependencies.
ghost use Rattle.std.specs.Prelude.{◌≡◌, ◌+◌, ◌<◌, ◌≤◌, [], ◌∷◌, ◌++◌, length, map, All, IfOk};
ghost use Rattle.std.specs.Prelude.{IfSome, None, OnOk, MatchBool};
ghost use Rattle.components.specs.Components.{AreInside};
ghost use Rattle.components.specs.Search.{place_of, AreAscending, IsBlank, IsSearchBut, IsSearch};
ghost use Rattle.components.specs.Search.{IsFrom, IsLast, IsResting, StayMet, number_of};
ghost use Rattle.components.specs.Turns.{met, left, IsJoined, IsPopped, LastIsBehind, LastIsBefore};
ghost use Rattle.components.specs.Turns.{closed, closed_all, work_of};

use edges::{Adjacency, NodeId};
use std::alloc::{AllocError, Global};
use std::marker::Model;

/// Where a node stands in the search.
#[derive(Clone, Copy)]
pub enum Place {
    Unmet,
    /// In an open component, at this place of the path.
    Open(usize),
    /// In the closed component of this number.
    Closed(usize),
}

/// Where an open component starts: its nodes on the path, and its edges among those that wait.
#[derive(Clone, Copy)]
pub struct Start {
    nodes: usize,
    edges: usize,
}

/// A search along dependencies. A node joins the path when it is met. The components that may still
/// grow are open, and stand on the path one behind the other, each leading to the next.
#[derive(Drop)]
pub struct Search {
    /// The nodes of open components, in the order in which they were met.
    path: Vec<NodeId>,
    /// The ends of edges that wait to be followed, those of a component together.
    waiting: Vec<NodeId>,
    /// Where each open component starts.
    starts: Vec<Start>,
    places: Vec<Place>,
    /// The nodes of closed components, in the order of closing.
    order: Vec<NodeId>,
}

impl Model for Search {
    ghost use Rattle.components.specs.Search.{View};

    ghost Value = { View };

    ghost view = { λ s. record {
      path = s.path.items;
      waiting = s.waiting.items;
      starts = s.starts.items;
      places = s.places.items;
      order = s.order.items;
    } };
}

impl Search {
    /// A search that has met nothing.
    pub(crate) fn new(alloc: Global, nodes: usize) -> Result<Search, AllocError>
        ensures { IfOk result (IsBlank nodes) }
    {
        let places = vec![in alloc; Place::Unmet; nodes]?;
        Ok(Search {
            path: Vec::new(alloc),
            waiting: Vec::new(alloc),
            starts: Vec::new(alloc),
            places,
            order: Vec::with_capacity(alloc, nodes)?,
        })
    }

    /// Where a node stands.
    pub(crate) fn place(&self, n: NodeId) -> Place
        requires { n < length self.now.places }
        ensures { result ≡ place_of self.now.places n }
    {
        self.places[n.number()]
    }

    /// Puts a node on the path, as a component of its own, whose edges all wait.
    fn meet(&mut self, deps: &Adjacency, n: NodeId) -> Result<(), AllocError>
        requires node { n < length deps.now }
        requires place { n < length self.old.places }
        ensures { OnOk result (self.new ≡ met deps.now n self.old) }
    {
        self.starts.push(Start {
            nodes: self.path.len(),
            edges: self.waiting.len(),
        })?;
        self.places[n.number()] = Place::Open(self.path.len());
        self.path.push(n)?;
        self.waiting.extend_from_slice(deps.row(n))?;
        Ok(())
    }

    /// Whether the last open component starts behind a place of the path.
    fn starts_behind(&self, place: usize) -> bool
        ensures { MatchBool result (LastIsBehind place self.now.starts)
            (LastIsBefore place self.now.starts) }
    {
        match self.starts.last() {
            Some(start) => start.nodes > place,
            None => false,
        }
    }

    /// Makes one of all open components from a place of the path on.
    fn join(&mut self, place: usize)
        requires { AreAscending self.old.starts }
        ensures { IsJoined place self.old self.new }
    {
        while self.starts_behind(place) {
            let _start = self.starts.pop();
        }
    }

    /// Follows an edge of the last component to this node.
    fn follow(&mut self, deps: &Adjacency, d: NodeId) -> Result<(), AllocError>
        requires inside { AreInside deps.now }
        requires search { IsSearchBut deps.now (λ x. x ≡ d) self.old }
        requires from { IsFrom deps.now self.old d }
        ensures search { OnOk result (IsSearch deps.now self.new) }
        ensures met { OnOk result (StayMet self.old self.new) }
        ensures work { OnOk result (work_of deps.now self.new ≤ work_of deps.now self.old) }
    {
        match self.place(d) {
            Place::Unmet => self.meet(deps, d)?,
            Place::Open(place) => self.join(place),
            Place::Closed(_) => {}
        }
        Ok(())
    }

    /// The end of the last edge that waits, behind so many others.
    fn next_edge(&mut self, others: usize) -> Option<NodeId>
        ensures none { result ≡ None → (self.new ≡ self.old) × (length self.old.waiting ≤ others) }
        ensures some { IfSome result (λ d. IsPopped d self.old self.new) }
        ensures behind { IfSome result (λ _. others ≤ length self.new.waiting) }
    {
        if self.waiting.len() > others {
            self.waiting.pop()
        } else {
            None
        }
    }

    /// Takes the last component from those that are open.
    fn leave(&mut self, start: Start)
        requires last { IsLast start self.old.starts }
        ensures starts { self.old.starts ≡ self.new.starts ++ start ∷ [] }
        ensures same { self.new ≡ left self.new.starts self.old }
    {
        let _start = start;
        let _last = self.starts.pop();
    }

    /// Closes the nodes from a place of the path on, which are a component.
    fn close(&mut self, start: usize) -> Result<(), AllocError>
        requires start { start ≤ length self.old.path }
        requires inside { All (λ n. n < length self.old.places) self.old.path }
        ensures { OnOk result (self.new ≡ closed start self.old.starts self.old) }
    {
        let nodes = &self.path[start..];
        close_all(&mut self.places, nodes, self.order.len());
        self.order.extend_from_slice(nodes)?;
        self.path.truncate(start);
        Ok(())
    }

    /// Follows an edge of the last component, or closes it where none waits.
    fn step(&mut self, deps: &Adjacency, start: Start) -> Result<(), AllocError>
        requires inside { AreInside deps.now }
        requires search { IsSearch deps.now self.old }
        requires last { IsLast start self.old.starts }
        ensures search { OnOk result (IsSearch deps.now self.new) }
        ensures met { OnOk result (StayMet self.old self.new) }
        ensures work { OnOk result (work_of deps.now self.new < work_of deps.now self.old) }
    {
        match self.next_edge(start.edges) {
            Some(d) => self.follow(deps, d)?,
            None => {
                self.leave(start);
                self.close(start.nodes)?;
            }
        }
        Ok(())
    }

    /// Goes on until no component is open.
    fn run(&mut self, deps: &Adjacency) -> Result<(), AllocError>
        requires inside { AreInside deps.now }
        requires search { IsSearch deps.now self.old }
        ensures search { OnOk result (IsSearch deps.now self.new) }
        ensures done { OnOk result (self.new.starts ≡ []) }
        ensures met { OnOk result (StayMet self.old self.new) }
    {
        while let Some(start) = self.starts.last() {
            let start = *start;
            self.step(deps, start)?;
        }
        Ok(())
    }

    /// Meets a node, if it wasn't met, and all that it leads to.
    pub(crate) fn visit(&mut self, deps: &Adjacency, n: NodeId) -> Result<(), AllocError>
        requires inside { AreInside deps.now }
        requires node { n < length deps.now }
        requires resting { IsResting deps.now n self.old }
        ensures { OnOk result (IsResting deps.now (n + 1) self.new) }
    {
        if let Place::Unmet = self.place(n) {
            self.meet(deps, n)?;
            self.run(deps)?;
        }
        Ok(())
    }

    /// The numbers of all nodes' components, once all are closed.
    pub(crate) fn numbers(&self, alloc: Global) -> Result<Vec<usize>, AllocError>
        ensures { IfOk result (λ v. v.items ≡ map number_of self.now.places) }
    {
        let mut numbers = Vec::with_capacity(alloc, self.places.len())?;
        for place in &self.places {
            numbers.push(number_of(*place))?;
        }
        Ok(numbers)
    }
}

/// The number of a closed node's component, and 0 of any other node.
fn number_of(place: Place) -> usize
    ensures { result ≡ number_of place }
{
    match place {
        Place::Closed(number) => number,
        Place::Unmet | Place::Open(_) => 0,
    }
}

/// Closes nodes as the component of this number.
fn close_all(places: &mut [Place], nodes: &[NodeId], number: usize)
    requires inside { All (λ n. n < length places.old) nodes.now }
    ensures { places.new ≡ closed_all nodes.now number places.old }
{
    for n in nodes {
        places[n.number()] = Place::Closed(number);
    }
}
