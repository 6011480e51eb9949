//! No linked files, and no place.
ghost use Rattle.std.specs.Prelude.{Err, None, false};
ghost use Rattle.language.specs.Nothing.{no_files, no_place};

use crate::{Link, Place, Whole, Works};
use field_names::FieldName;
use operands::Operand;
use operations::Arguments;
use plain::Text;
use std::alloc::{AllocError, Global};
use values::{Broken, Item, Kind, LeafRef, Value};

/// No files are linked: no name is known, and no load gives anything.
#[derive(Clone, Copy)]
pub struct NoFiles;

impl<'a> Link<'a> for NoFiles {
    ghost linked = { λ _. no_files };

    fn name(&self, _file: usize, _number: usize) -> Option<Item<'a>> {
        None
    }

    fn defaults(&self, _file: usize, _number: usize) -> &'a [Value] {
        &[]
    }

    fn asked(
        &self,
        _file: usize,
        _label: &Text,
        _name: &Text,
    ) -> Result<Option<Item<'a>>, AllocError> {
        Ok(None)
    }
}

/// Outside of modules, `BUILD` files and implementations: calls of `provider`, of `rule` and of
/// rules are `place`, and nothing has a field or a method.
#[derive(Clone, Copy)]
pub struct NoPlace;

impl Works for NoPlace {
    type Work = ();
}

impl<'a> Place<'a> for NoPlace {
    ghost place = { λ _. no_place };

    fn call(
        &self,
        _alloc: Global,
        _whole: &mut Whole<()>,
        _callee: LeafRef<'_>,
        _arguments: &Arguments<'_, '_>,
    ) -> Result<Value, Broken> {
        Err(Broken::Kind(Kind::Place))
    }

    fn has_method(&self, _owner: LeafRef<'_>, _name: &FieldName) -> bool {
        false
    }

    fn method(
        &self,
        _alloc: Global,
        _whole: &mut Whole<()>,
        _owner: LeafRef<'_>,
        _name: &FieldName,
        _arguments: &Arguments<'_, '_>,
    ) -> Result<Value, Broken> {
        Err(Broken::Kind(Kind::Name))
    }

    fn field(
        &self,
        _alloc: Global,
        _whole: &Whole<()>,
        _owner: LeafRef<'_>,
        _name: &FieldName,
    ) -> Result<Operand<'a>, Broken> {
        Err(Broken::Kind(Kind::Name))
    }

    fn item(
        &self,
        _alloc: Global,
        _whole: &Whole<()>,
        _target: usize,
        _provider: Item<'_>,
    ) -> Result<Operand<'a>, Broken> {
        Err(Broken::Kind(Kind::Wrong))
    }

    fn offers(
        &self,
        _whole: &Whole<()>,
        _target: usize,
        _provider: Item<'_>,
    ) -> Result<bool, Broken> {
        Err(Broken::Kind(Kind::Wrong))
    }
}
