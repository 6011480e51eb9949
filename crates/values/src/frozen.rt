//! Frozen values: trees that never change.
//!
//! A key or a leaf is held as it is, and every other frozen value is one counted branch that has
//! its parts by place, so a second name of it costs a count, also from another thread, and nothing
//! below it is copied.
ghost use Rattle.std.specs.Prelude.{◌≡◌, ◌≤◌, IfOk, length};
ghost use Rattle.values.specs.Tree.{Tree, key, leaf, branch, list, tuple, dict, instance, trees};
ghost use Rattle.values.specs.Tree.{pairs, slots};
ghost use Rattle.ticks.specs.Extents.{IsExtent};
ghost use Rattle.values.specs.Extents.{branch_measure, measure, parts_measure};
ghost use Rattle.values.specs.View.{tree_of, node_branch, is_list, is_dict, is_walkable, IsPaired};
ghost use Rattle.values.specs.Shape.{tree_shape, branch_shape, value_of};
ghost use Rattle.values.specs.Seeing.{item_value, seen};

use crate::extent::{of_entries, of_fields, of_items};
use crate::sees::{Group, Item, Seen, Slots, Table};
use crate::{Extent, Key, Leaf, Provider, Value};
use indexmap::IndexSet;
use plain::Shared;
use std::alloc::{AllocError, Global};
use std::marker::Model;
use std::sync::Arc;

/// A frozen value, whose parts may be shared.
#[derive(Drop)]
#[cycle(frozen)]
pub struct Frozen {
    held: Held,
}

/// What a frozen value holds.
#[derive(Drop)]
#[cycle(frozen)]
pub enum Held {
    Key(Key),
    Leaf(Leaf),
    Branch(Branch),
}

/// A frozen list, tuple, dict or instance, whose parts may be shared. It has at most 64 levels, as
/// all that is frozen has: what would have more isn't made, which is answered as want of memory.
#[derive(Drop)]
#[cycle(frozen)]
pub struct Branch {
    parts: Arc<Parts>,
}

/// The parts of a branch, with what a visit of the branch finds.
#[derive(Drop)]
#[cycle(frozen)]
pub struct Parts {
    node: Node,
    extent: Extent,
}

/// The parts of a branch. Of a dict the keys and the values stand by place, and of an instance the
/// values, by the place of their names in the provider, with None for each field that wasn't given.
/// The keys are wide, and few branches are dicts, so they lie apart.
#[derive(Drop)]
#[cycle(frozen)]
pub enum Node {
    List(Vec<Frozen>),
    Tuple(Vec<Frozen>),
    Dict(Box<IndexSet<Key>>, Vec<Frozen>),
    Instance(Shared<Provider>, Vec<Option<Frozen>>),
}

impl Model for Frozen {
    ghost use Rattle.values.specs.Tree.{Tree, coded_tree, weight};
    ghost use Rattle.leaves.specs.LeafCodes.{leaf_code, key_code, provider_code};
    ghost use Rattle.leaves.specs.declared.leaf.Leaf.{Leaf as Plain};
    ghost use Rattle.keys.specs.declared.key.Key.{Key as Index};
    ghost use Rattle.leaves.specs.declared.leaf.Provider.{Provider as Maker};

    ghost Value = { Tree Plain Index Maker };

    ghost coded = { coded_tree leaf_code key_code provider_code };

    ghost use Rattle.values.specs.View.{tree_of};

    ghost view = { λ f. tree_of f.held };

    ghost size = { weight };

    ghost use Rattle.values.specs.Falls.{deep_le-weight};

    ghost size_decreases = { λ f h. deep_le-weight f.held };
}

impl Model for Branch {
    ghost use Rattle.values.specs.Tree.{Branch as Limb, coded_branch, branch_weight};
    ghost use Rattle.leaves.specs.LeafCodes.{leaf_code, key_code, provider_code};
    ghost use Rattle.leaves.specs.declared.leaf.Leaf.{Leaf as Plain};
    ghost use Rattle.keys.specs.declared.key.Key.{Key as Index};
    ghost use Rattle.leaves.specs.declared.leaf.Provider.{Provider as Maker};

    ghost Value = { Limb Plain Index Maker };

    ghost coded = { coded_branch leaf_code key_code provider_code };

    ghost use Rattle.values.specs.View.{node_branch};
    ghost use Rattle.values.specs.Extents.{IsNoted};

    ghost view = { λ b. node_branch b.parts.value.node };

    ghost invariant = { λ b. IsNoted b.parts.value };

    ghost size = { branch_weight };

    ghost use Rattle.values.specs.Falls.{parts_deep_le-weight};

    ghost size_decreases = { λ b h. parts_deep_le-weight b.parts.value h };
}

impl Frozen {
    /// A frozen key.
    pub fn of_key(value: Key) -> Frozen
        ensures { result ≡ key value }
    {
        Frozen {
            held: Held::Key(value),
        }
    }

    /// A frozen leaf.
    pub fn of_leaf(value: Leaf) -> Frozen
        ensures { result ≡ leaf value }
    {
        Frozen {
            held: Held::Leaf(value),
        }
    }

    /// A frozen value with parts.
    pub fn of_branch(value: Branch) -> Frozen
        ensures { result ≡ branch value }
    {
        Frozen {
            held: Held::Branch(value),
        }
    }

    /// Another name of the same frozen value: at most a count more, and no copy.
    ///
    /// # Errors
    ///
    /// `AllocError` where a count is at its greatest.
    pub fn share(&self) -> Result<Frozen, AllocError>
        ensures { IfOk result (λ f. f ≡ self.now) }
    {
        match &self.held {
            Held::Key(key) => Ok(Frozen::of_key(key.share()?)),
            Held::Leaf(leaf) => Ok(Frozen::of_leaf(leaf.share()?)),
            Held::Branch(branch) => Ok(Frozen::of_branch(branch.share()?)),
        }
    }

    /// What it holds.
    #[inline(always)]
    pub fn held(&self) -> &Held
        ensures { tree_of result.now ≡ self.now }
    {
        &self.held
    }

    /// It, where it lies.
    #[inline(always)]
    pub fn item(&self) -> Item<'_>
        ensures { item_value result ≡ value_of self.now }
    {
        match &self.held {
            Held::Key(key) => Item::Key(key),
            Held::Leaf(leaf) => Item::Leaf(leaf.lend()),
            Held::Branch(branch) => Item::Branch(branch),
        }
    }

    /// A name of it as a value: at most a count more.
    ///
    /// # Errors
    ///
    /// `AllocError` where a count is at its greatest.
    pub fn to_value(&self) -> Result<Value, AllocError>
        ensures { IfOk result (λ v. v ≡ value_of self.now) }
    {
        match &self.held {
            Held::Key(key) => Ok(Value::Key(key.share()?)),
            Held::Leaf(leaf) => Ok(Value::Leaf(leaf.share()?)),
            Held::Branch(branch) => Ok(Value::Frozen(branch.share()?)),
        }
    }

    /// What a visit of it finds.
    pub fn extent(&self) -> Extent
        ensures { IsExtent result (measure self.now) }
    {
        match &self.held {
            Held::Key(_) => Extent::one(true),
            Held::Leaf(leaf) => Extent::one(leaf.can_be_frozen()),
            Held::Branch(branch) => branch.extent(),
        }
    }

    /// What it shows, as a value.
    #[inline(always)]
    pub fn see<'b, 'a>(&'b self) -> Seen<'b, 'a>
        ensures { seen result ≡ tree_shape self.now }
    {
        match &self.held {
            Held::Key(key) => Seen::Key(key),
            Held::Leaf(leaf) => Seen::Leaf(leaf.lend()),
            Held::Branch(branch) => branch.see(),
        }
    }
}

impl Branch {
    /// A frozen list of these items.
    ///
    /// # Errors
    ///
    /// `AllocError` where memory was refused, or where it would have more than 64 levels.
    pub fn list(alloc: Global, items: Vec<Frozen>) -> Result<Branch, AllocError>
        ensures { IfOk result (λ b. b ≡ list (trees items.items)) }
    {
        let parts = of_items(items.as_slice());
        Branch::of(alloc, Node::List(items), parts)
    }

    /// A frozen tuple of these items.
    ///
    /// # Errors
    ///
    /// `AllocError` where memory was refused, or where it would have more than 64 levels.
    pub fn tuple(alloc: Global, items: Vec<Frozen>) -> Result<Branch, AllocError>
        ensures { IfOk result (λ b. b ≡ tuple (trees items.items)) }
    {
        let parts = of_items(items.as_slice());
        Branch::of(alloc, Node::Tuple(items), parts)
    }

    /// A frozen dict of these keys, each with the value at its place.
    ///
    /// # Errors
    ///
    /// `AllocError` where memory was refused, or where it would have more than 64 levels.
    pub fn dict(
        alloc: Global,
        keys: IndexSet<Key>,
        values: Vec<Frozen>,
    ) -> Result<Branch, AllocError>
        requires { length keys.keys ≡ length values.items }
        ensures { IfOk result (λ b. b ≡ dict (pairs keys.keys values.items)) }
    {
        let parts = of_entries(values.as_slice());
        let keys = Box::new(alloc, keys)?;
        Branch::of(alloc, Node::Dict(keys, values), parts)
    }

    /// A frozen instance of the provider: the values of its fields by place, None for each that
    /// wasn't given.
    ///
    /// # Errors
    ///
    /// `AllocError` where memory was refused, or where it would have more than 64 levels.
    pub fn instance(
        alloc: Global,
        provider: Shared<Provider>,
        fields: Vec<Option<Frozen>>,
    ) -> Result<Branch, AllocError>
        ensures { IfOk result (λ b. b ≡ instance provider (slots fields.items)) }
    {
        let parts = of_fields(fields.as_slice());
        Branch::of(alloc, Node::Instance(provider, fields), parts)
    }

    /// A branch of these parts, of which this is noted.
    #[inline(always)]
    fn of(alloc: Global, node: Node, parts: Extent) -> Result<Branch, AllocError>
        requires paired { IsPaired node }
        requires noted { IsExtent parts (parts_measure (node_branch node)) }
        ensures { IfOk result (λ b. b ≡ node_branch node) }
    {
        let Some(extent) = parts.above() else {
            return Err(AllocError);
        };
        let parts = Arc::new(alloc, Parts { node, extent })?;
        Ok(Branch { parts })
    }

    /// What a visit of it finds, as it was noted when it was made. It has at most 64 levels.
    pub fn extent(&self) -> Extent
        ensures noted { IsExtent result (branch_measure self.now) }
        ensures bounded { (branch_measure self.now).levels ≤ 64 }
    {
        self.parts.extent
    }

    /// Another name of the same frozen value: a count more, and no copy.
    ///
    /// # Errors
    ///
    /// `AllocError` where a count is at its greatest.
    pub fn share(&self) -> Result<Branch, AllocError>
        ensures { IfOk result (λ b. b ≡ self.now) }
    {
        let parts = Arc::try_clone(&self.parts)?;
        Ok(Branch { parts })
    }

    /// Its parts.
    #[inline(always)]
    pub fn node(&self) -> &Node
        ensures { node_branch result.now ≡ self.now }
    {
        &self.parts.node
    }

    /// Whether it is a list.
    pub fn is_list(&self) -> bool
        ensures { result ≡ is_list self.now }
    {
        matches!(&self.parts.node, Node::List(_))
    }

    /// Whether it is a dict.
    pub fn is_dict(&self) -> bool
        ensures { result ≡ is_dict self.now }
    {
        matches!(&self.parts.node, Node::Dict(_, _))
    }

    /// Whether it may be walked: a list, a tuple or a dict.
    pub fn is_walkable(&self) -> bool
        ensures { result ≡ is_walkable self.now }
    {
        !matches!(&self.parts.node, Node::Instance(_, _))
    }

    /// What it shows, as a value.
    #[inline(always)]
    pub fn see<'b, 'a>(&'b self) -> Seen<'b, 'a>
        ensures { seen result ≡ branch_shape self.now }
    {
        self.parts.node.see()
    }

    /// What it shows, as a value that is lent.
    #[inline(always)]
    pub fn lend(&self) -> Seen<'_, '_>
        ensures { seen result ≡ branch_shape self.now }
    {
        self.parts.node.lend()
    }
}

impl Node {
    /// What a branch of these parts shows.
    #[inline(always)]
    fn see<'b, 'a>(&'b self) -> Seen<'b, 'a>
        ensures { seen result ≡ branch_shape (node_branch self.now) }
    {
        match self {
            Node::List(items) => Seen::List(Group::Trees(items.as_slice())),
            Node::Tuple(items) => Seen::Tuple(Group::Trees(items.as_slice())),
            Node::Dict(keys, values) => Seen::Dict(Table::Trees(keys, values.as_slice())),
            Node::Instance(provider, fields) => {
                Seen::Instance(provider.get(), Slots::Trees(fields.as_slice()))
            }
        }
    }

    /// What a branch of these parts shows, as a value that is lent.
    #[inline(always)]
    fn lend(&self) -> Seen<'_, '_>
        ensures { seen result ≡ branch_shape (node_branch self.now) }
    {
        match self {
            Node::List(items) => Seen::List(Group::Lent(items.as_slice())),
            Node::Tuple(items) => Seen::Tuple(Group::Lent(items.as_slice())),
            Node::Dict(keys, values) => Seen::Dict(Table::Lent(keys, values.as_slice())),
            Node::Instance(provider, fields) => {
                Seen::Instance(provider.get(), Slots::Lent(fields.as_slice()))
            }
        }
    }
}
