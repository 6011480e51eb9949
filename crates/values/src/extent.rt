//! What a visit of the parts of a frozen value finds, gathered from what was noted of each part.
ghost use Rattle.values.specs.Tree.{slots, trees};
ghost use Rattle.ticks.specs.Extents.{IsExtent};
ghost use Rattle.values.specs.Extents.{slots_measure, trees_measure, values_measure};

use crate::{Extent, Frozen};

/// Of items, beside each other.
pub(crate) fn of_items(items: &[Frozen]) -> Extent
    ensures { IsExtent result (trees_measure (trees items.now)) }
{
    let mut extent = Extent::nothing();
    for item in items.iter().rev() {
        extent = item.extent().beside(extent);
    }
    extent
}

/// Of the entries of a dict, by their values: each has a key beside it.
pub(crate) fn of_entries(values: &[Frozen]) -> Extent
    ensures { IsExtent result (values_measure values.now) }
{
    let mut extent = Extent::nothing();
    for value in values.iter().rev() {
        extent = Extent::one(true).beside(value.extent().beside(extent));
    }
    extent
}

/// Of the fields of an instance that were given.
pub(crate) fn of_fields(fields: &[Option<Frozen>]) -> Extent
    ensures { IsExtent result (slots_measure (slots fields.now)) }
{
    let mut extent = Extent::nothing();
    for field in fields.iter().rev() {
        if let Some(value) = field {
            extent = value.extent().beside(extent);
        }
    }
    extent
}
