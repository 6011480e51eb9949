//! What a board is made over.
ghost use Rattle.std.specs.Prelude.{◌≡◌, ℕ, ◌<◌, List, length};
ghost use Rattle.board.specs.Journal.{deps};

/// A dependency graph as a board reads it: how many nodes there are, and how many dependencies each
/// of them has.
///
/// Which these are is for contracts alone, since no call of a board reads them. So a graph that has
/// its edges in another form than lists is not copied.
pub trait Plan {
    /// Each node's dependencies.
    ghost lists: { Self → List (List ℕ) };

    /// How many nodes there are.
    fn nodes(&self) -> usize
        ensures { result ≡ length (lists self.now) };

    /// How many dependencies the node has.
    fn dependencies(&self, n: usize) -> usize
        requires { n < length (lists self.now) }
        ensures { result ≡ length (deps (lists self.now) n) };
}

/// The dependencies of each node in a list.
#[derive(Drop)]
pub struct Lists<'a> {
    pub lists: &'a [Vec<usize>],
}

impl<'a> Plan for Lists<'a> {
    ghost use Rattle.board.specs.Rule.{plan_in};

    ghost lists = { λ a. plan_in a.lists.now };

    fn nodes(&self) -> usize {
        self.lists.len()
    }

    fn dependencies(&self, n: usize) -> usize {
        self.lists[n].len()
    }
}
