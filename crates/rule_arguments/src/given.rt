//! What a call of a rule gives.
ghost use Rattle.std.specs.Prelude.{◌≡◌, Some, None, IfOk, length, option_copied, if◌then◌else◌};
ghost use Rattle.values.specs.Seeing.{item_value};
ghost use Rattle.operations.specs.Arguments.{given};
ghost use Rattle.targets.specs.RuleCalls.{given_as, unless_none};

use first_places::FirstPlaces;
use making::value_at;
use operands::Operand;
use operations::Arguments;
use plain::Text;
use std::alloc::{AllocError, Global};
use std::marker::Model;
use values::{Item, LeafRef};

/// What a call of a rule gives, found by name.
#[derive(Drop)]
pub struct ByName<'a, 'v> {
    arguments: Arguments<'a, 'v>,
    places: FirstPlaces<'a>,
}

impl<'a, 'v> Model for ByName<'a, 'v> {
    ghost use Rattle.std.specs.Prelude.{◌≡◌};
    ghost use Rattle.operations.specs.Arguments.{Given, given};

    ghost Value = { Given };

    ghost use Rattle.rule_arguments.specs.GivenCode.{given_code};

    ghost coded = { given_code };

    ghost view = { λ b. given b.arguments };

    ghost invariant = { λ b. b.places ≡ b.arguments.names.now };
}

impl<'a, 'v> ByName<'a, 'v> {
    /// The arguments of a call.
    ///
    /// # Errors
    ///
    /// `AllocError` where memory was refused.
    pub fn new(alloc: Global, arguments: &Arguments<'a, 'v>) -> Result<ByName<'a, 'v>, AllocError>
        ensures { IfOk result (λ b. b ≡ given arguments.now) }
    {
        let places = FirstPlaces::new(alloc, arguments.names)?;
        Ok(ByName {
            arguments: *arguments,
            places,
        })
    }

    /// How many are given by position.
    pub fn position_count(&self) -> usize
        ensures { result ≡ length self.now.items }
    {
        self.arguments.items.len()
    }

    /// The names that are given.
    pub fn names(&self) -> &'a [Text]
        ensures { result.now ≡ self.now.names }
    {
        self.arguments.names
    }

    /// What was given under a name; None counts as not given.
    pub fn given_as(&self, name: &str) -> Option<&'a Operand<'v>>
        ensures { option_copied result ≡ given_as self.now name.now }
    {
        match value_at(self.arguments.values, self.places.get(name)) {
            Some(value) => unless_none(value),
            None => None,
        }
    }
}

/// A value, unless it is None.
fn unless_none<'a, 'v>(value: &'a Operand<'v>) -> Option<&'a Operand<'v>>
    ensures { option_copied result ≡ unless_none (Some value.now) }
{
    if is_none(value.item()) {
        None
    } else {
        Some(value)
    }
}

/// Whether a value is None.
fn is_none(value: Item<'_>) -> bool
    ensures { unless_none (Some (item_value value.entry))
        ≡ (if result then None else Some (item_value value.entry)) }
{
    matches!(value, Item::Leaf(LeafRef::None))
}
