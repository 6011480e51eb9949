//! What loading sees of a file that was read.
ghost use Rattle.std.specs.Prelude.{◌≡◌, None, Some, MatchOption};

use plain::Text;
use std::marker::Model;

/// One `load` statement.
#[derive(Drop)]
pub struct LoadStatement {
    /// The line that it begins on.
    pub line: u64,
    /// The path that its label spells, if it spells one.
    pub target: Option<Text>,
    /// The names that it asks of that module, in order.
    pub asked: Vec<Text>,
}

impl Model for LoadStatement {
    ghost use Rattle.loading.specs.Loads.{Load};

    ghost Value = { Load };

    ghost view = { λ l. record { line = l.line; target = l.target; asked = l.asked.items } };
}

impl LoadStatement {
    /// The line that it begins on.
    pub fn line(&self) -> u64
        ensures { result ≡ self.now.line }
    {
        self.line
    }

    /// The path that its label spells, if it spells one.
    pub fn target(&self) -> Option<&Text>
        ensures { MatchOption result (self.now.target ≡ None) (λ t. self.now.target ≡ Some t.now) }
    {
        self.target.as_ref()
    }

    /// The names that it asks of that module, in order.
    pub fn asked(&self) -> &[Text]
        ensures { result.now ≡ self.now.asked }
    {
        &self.asked
    }
}

/// A file without a syntax fault.
#[derive(Drop)]
pub struct FileRead<T> {
    /// Its loads, in order.
    pub loads: Vec<LoadStatement>,
    /// What of it is evaluated.
    pub tree: T,
}

impl<T> Model for FileRead<T> {
    ghost use Rattle.loading.specs.Loads.{Read};

    ghost Value = { Read T };

    ghost view = { λ r. record { loads = r.loads.items; tree = r.tree } };
}

impl<T> FileRead<T> {
    /// Its loads, in order.
    pub fn loads(&self) -> &[LoadStatement]
        ensures { result.now ≡ self.now.loads }
    {
        &self.loads
    }

    /// What of it is evaluated.
    pub fn tree(&self) -> &T
        ensures { result.now ≡ self.now.tree }
    {
        &self.tree
    }
}
