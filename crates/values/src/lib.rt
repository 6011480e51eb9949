//! Values of the language, cells, and frozen values.
//!
//! A value is a key, a leaf, the number of a cell of a heap, or a frozen value (`value`). Cells are
//! what names share (`cells`): lists, tuples, dicts and provider instances, with a count of the
//! walks that go on. A frozen value is a tree whose parts are shared by a count each, also between
//! threads (`frozen`). What holds values, such as cells and names, holds operands: values of its
//! own, or lent by what lives longer (`operand`, `maybe_lent`). Equality, freezing and texts look
//! at all of them through one view (`sees`).
//!
//! To a contract all of these are plain data: `specs/` says what, and what each call gives.
#![tactic(auto)]

mod cells;
mod extent;
mod frozen;
mod held;
mod iter;
mod maybe_lent;
mod operand;
mod sees;
mod value;

pub use cells::{Cell, Entries, Fields, Items, LARGEST};
pub use depsets::{
    Depset, DepsetError, Element, ElementType, FileRef, Id, ListError, Listing, Order,
};
pub use frozen::{Branch, Frozen, Held, Node};
pub use held::{HeldEntries, HeldItems, Walked};
pub use iter::{GroupIter, TableIter};
pub use keys::Key;
pub use leaves::{
    AttributeKind, AttributeRef, BuiltIn, ExportName, Exported, FunctionRef, Leaf, LeafRef, MadeId,
    Names, Object, Provider, ProviderRef, RuleRef,
};
pub use maybe_lent::MaybeLent;
pub use operand::Operand;
pub use sees::{Group, Item, Seen, Slots, Table};
pub use ticks::{Broken, Extent, Kind, Ticks, VISITED_LEVELS};
pub use value::Value;
