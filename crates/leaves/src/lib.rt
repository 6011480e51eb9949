//! Values without parts that can be visited, and no keys: labels, Files, depsets, functions,
//! providers, rules, and what a target's evaluation has. To a contract a leaf is plain data, held
//! or lent.
#![tactic(auto)]

mod leaf;
mod leaf_ref;

pub use leaf::{
    AttributeKind, AttributeRef, BuiltIn, ExportName, Exported, FunctionRef, Leaf, MadeId, Names,
    Object, Provider, ProviderRef, RuleRef,
};
pub use leaf_ref::LeafRef;
