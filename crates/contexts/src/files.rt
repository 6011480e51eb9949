//! `files` of a target.
ghost use Rattle.leaves.specs.Lent.{leaf_at};
ghost use Rattle.std.specs.Prelude.{◌≡◌, Some, None, option_map, option_copied, codes};
ghost use Rattle.values.specs.Seeing.{item_value};
ghost use Rattle.operations.specs.Instances.{default_info};
ghost use Rattle.operations.specs.Reading.{leaf_depset};
ghost use Rattle.contexts.specs.Fields.{depset_value};
ghost use Rattle.contexts.specs.Offered.{files_in, instance_of, tree_files, value_depset};

use crate::offered::instance_of;
use depsets::Depset;
use making::field;
use operands::Operand;
use operations::DefaultInfo;
use plain::Text;
use values::{Frozen, Item, LeafRef, Provider, Seen};

/// The depset in `files` of the `DefaultInfo` among instances, if there is one, where it lies.
pub(crate) fn files_in<'a>(instances: &'a [Frozen], info: &DefaultInfo) -> Option<Operand<'a>>
    ensures { result ≡ option_map depset_value (files_in instances.now) }
{
    let provider = info.provider().get();
    match (instance_of(instances, provider), files_name(provider)) {
        (Some(instance), Some(files)) => tree_files(instance, files),
        _ => None,
    }
}

/// The name of the field of `DefaultInfo`.
fn files_name(info: &Provider) -> Option<&Text>
    requires { info.now ≡ default_info }
    ensures { option_copied result ≡ Some (codes "files") }
{
    info.fields.as_slice().first()
}

/// The depset in `files` of an instance, if there is one.
fn tree_files<'a>(instance: &'a Frozen, files: &Text) -> Option<Operand<'a>>
    requires { files.now ≡ codes "files" }
    ensures { result ≡ option_map depset_value (tree_files instance.now) }
{
    match instance.see() {
        Seen::Instance(provider, slots) => match field(provider, slots, files) {
            Some(item) => lent_depset(item),
            None => None,
        },
        _ => None,
    }
}

/// An item, if it is a depset.
#[tactic(auto, using(crate::proofs::Depsets::depset_again))]
fn lent_depset<'a>(item: Item<'a>) -> Option<Operand<'a>>
    ensures { result ≡ option_map depset_value (value_depset (item_value item.entry)) }
{
    match item_depset(item) {
        Some(_) => Some(Operand::lent(item)),
        None => None,
    }
}

/// The depset that an item is, if it is one.
pub(crate) fn item_depset<'a>(item: Item<'a>) -> Option<&'a Depset>
    ensures { option_copied result ≡ value_depset (item_value item.entry) }
{
    match item {
        Item::Leaf(leaf) => leaf_depset(leaf),
        _ => None,
    }
}

fn leaf_depset<'a>(leaf: LeafRef<'a>) -> Option<&'a Depset>
    ensures { option_copied result ≡ leaf_depset (leaf_at leaf.entry) }
{
    match leaf {
        LeafRef::Depset(depset) => Some(depset),
        _ => None,
    }
}
