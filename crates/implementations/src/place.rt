//! The place of an implementation.
ghost use Rattle.leaves.specs.Lent.{leaf_at};
ghost use Rattle.std.specs.Prelude.{Err, Some};
ghost use Rattle.operations.specs.Arguments.{given};
ghost use Rattle.ticks.specs.Ticking.{Says};
ghost use Rattle.implementations.specs.Implementations.{implementation_place, call_method};
ghost use Rattle.implementations.specs.Implementations.{action_call};

use crate::calling;
use crate::methods::{action_named, attr_refused, has_method, refused};
use crate::mnemonics::Mnemonics;
use contexts::{ActionMethod, FileLists, TargetContext, Work, field, item, offers};
use field_names::FieldName;
use language::{Place, Whole, Works};
use operands::Operand;
use operations::Arguments;
use std::alloc::Global;
use values::{Broken, Item, Kind, LeafRef, Object, Value};
use workspace::Label;

/// What the implementation of the target of a label sees: the target, and its dependencies with
/// their outcomes. What lies in these is lent, and so is what was made of the target's attributes.
/// Its work is the Files that it declares and the actions that it registers.
#[derive(Drop)]
pub struct ImplementationPlace<'a, 'b, I: FileLists> {
    /// The target, its dependencies, and what is made of them once.
    pub context: &'a TargetContext<'b, I>,
    /// The mnemonics of actions for which none is given.
    pub mnemonics: &'a Mnemonics,
}

impl<'a, 'b, I: FileLists> Works for ImplementationPlace<'a, 'b, I> {
    type Work = Work;
}

impl<'a, 'b, I: FileLists> Place<'a> for ImplementationPlace<'a, 'b, I> {
    ghost use Rattle.implementations.specs.Implementations.{implementation_place};

    ghost place = { λ p. implementation_place p.context.now.label.now
        p.context.now.target.now p.context.now.dependencies };

    fn call(
        &self,
        _alloc: Global,
        _whole: &mut Whole<Work>,
        callee: LeafRef<'_>,
        _arguments: &Arguments<'_, '_>,
    ) -> Result<Value, Broken> {
        Err(Broken::Kind(refused(callee)))
    }

    fn has_method(&self, owner: LeafRef<'_>, name: &FieldName) -> bool {
        has_method(owner, name)
    }

    fn method(
        &self,
        alloc: Global,
        whole: &mut Whole<Work>,
        owner: LeafRef<'_>,
        name: &FieldName,
        arguments: &Arguments<'_, '_>,
    ) -> Result<Value, Broken> {
        call_method(
            alloc,
            self.context.label,
            self.mnemonics,
            whole,
            owner,
            name,
            arguments,
        )
    }

    fn field(
        &self,
        alloc: Global,
        _whole: &Whole<Work>,
        owner: LeafRef<'_>,
        name: &FieldName,
    ) -> Result<Operand<'a>, Broken> {
        field(alloc, self.context, owner, name)
    }

    fn item(
        &self,
        _alloc: Global,
        whole: &Whole<Work>,
        target: usize,
        provider: Item<'_>,
    ) -> Result<Operand<'a>, Broken> {
        Ok(item(
            &whole.state.heap,
            &self.context.dependencies,
            target,
            provider,
        )?)
    }

    fn offers(
        &self,
        whole: &Whole<Work>,
        target: usize,
        provider: Item<'_>,
    ) -> Result<bool, Broken> {
        Ok(offers(
            &whole.state.heap,
            &self.context.dependencies,
            target,
            provider,
        )?)
    }
}

/// A call of a method of an object, in the implementation of the target of a label.
fn call_method(
    alloc: Global,
    label: &Label,
    mnemonics: &Mnemonics,
    whole: &mut Whole<Work>,
    owner: LeafRef<'_>,
    name: &FieldName,
    arguments: &Arguments<'_, '_>,
) -> Result<Value, Broken>
    ensures { Says (call_method label.now (leaf_at owner.entry) name.now (given arguments.now)
        whole.old) result whole.new }
{
    match owner {
        LeafRef::Object(Object::Attr) => Err(Broken::Kind(attr_refused(name))),
        LeafRef::Object(Object::ContextActions) => {
            call_action(
                alloc,
                label,
                mnemonics,
                whole,
                action_named(name),
                arguments,
            )
        }
        _ => Err(Broken::Kind(Kind::Name)),
    }
}

/// A call of a method of `ctx.actions`, which adds to the work alone.
fn call_action(
    alloc: Global,
    label: &Label,
    mnemonics: &Mnemonics,
    whole: &mut Whole<Work>,
    method: Option<ActionMethod>,
    arguments: &Arguments<'_, '_>,
) -> Result<Value, Broken>
    ensures { Says (action_call label.now method (given arguments.now) whole.old) result whole.new }
{
    let Some(method) = method else {
        return Err(Broken::Kind(Kind::Name));
    };
    let state = &whole.state;
    calling::call_method(
        alloc,
        label,
        mnemonics,
        method,
        &state.heap,
        arguments,
        &mut whole.work,
    )
}
