//! Calls of implementations.
ghost use Rattle.std.specs.Prelude.{◌≡◌, Ok, Err, IfOk, MatchResult, length};
ghost use Rattle.meaning.specs.Functions.{Files};
ghost use Rattle.meaning.specs.Calls.{function_meaning};
ghost use Rattle.meaning.specs.StatementCode.{code_of};
ghost use Rattle.language.specs.Language.{language, function_id};
ghost use Rattle.call_stack.specs.LinkedView.{codes_of};
ghost use Rattle.call_stack.specs.CallView.{arguments_seen};
ghost use Rattle.evaluation.specs.Runs.{context_alone, state_of_target};
ghost use Rattle.running.specs.Ran.{ran};

use crate::beginning::first_of_target;
use crate::setting::Setting;
use crate::top::run;
use evaluator::function_id;
use frames::Stack;
use language::{Link, Place, Whole};
use loading::Placed;
use machine::{Arguments, Start};
use operands::Operand;
use std::alloc::{AllocError, Global};
use values::{Kind, Leaf, MadeId, Object, Value};
use workspace::Label;

/// `ctx` alone.
fn with_context(alloc: Global) -> Result<Arguments<'static>, AllocError>
    ensures { IfOk result (λ a. arguments_seen a ≡ context_alone) }
{
    let mut items = Stack::new(alloc);
    items.push(Operand::own(Value::Leaf(Leaf::Object(Object::Context))))?;
    Ok(Arguments {
        items,
        names: &[],
        named: Stack::new(alloc),
    })
}

/// Calls a function with `ctx` alone, at the line of its `def`.
fn call<'a, L: Link<'a>, P: Place<'a>>(
    setting: &Setting<'a, L, P>,
    id: MadeId,
    whole: &mut Whole<'a, P::Work>,
) -> Result<Result<Value, Placed<Kind>>, AllocError>
    ensures means { (files : Files) → codes_of setting.now.codes.now ≡ code_of files
        → (let meant = ran setting.now.paths.now (function_meaning
        (language (L.linked setting.now.linked.now) (P.place setting.now.place.now)) files
        (function_id id) context_alone whole.old) in
        IfOk result (λ r. MatchResult r (λ v. meant ≡ Ok (v, whole.new)) (λ p. meant ≡ Err p))) }
    ensures compiled { IfOk result (λ r. ∥ ((files : Files)
        × (codes_of setting.now.codes.now ≡ code_of files)) ∥₁) }
{
    let arguments = with_context(setting.alloc)?;
    run(setting, Start::Function(function_id(id), arguments), whole)
}

/// Calls the function that implements a target's rule, with `ctx` alone, from the beginning of the
/// target: the value that it returned and the state after it, with the work of its place, or its
/// fault. A fault of the call itself stands at the `def`. The codes are those of some files, and
/// the answer is what the call means in them.
///
/// # Errors
///
/// `AllocError` where memory was refused, or where there are more files than a `u32` counts.
pub fn call_implementation<'a, L: Link<'a>, P: Place<'a>>(
    setting: &Setting<'a, L, P>,
    label: &Label,
    id: MadeId,
    work: P::Work,
) -> Result<Result<(Value, Box<Whole<'a, P::Work>>), Placed<Kind>>, AllocError>
where
    P::Work: Drop,
    ensures means { (files : Files) → codes_of setting.now.codes.now ≡ code_of files
        → (let meant = ran setting.now.paths.now (function_meaning
        (language (L.linked setting.now.linked.now) (P.place setting.now.place.now)) files
        (function_id id) context_alone
        (record {
          state = state_of_target setting.now.limit label.now
              (length setting.now.paths.now);
          work = work;
        })) in
        IfOk result (λ r. MatchResult r (λ c. meant ≡ Ok (c.0, c.1.value))
        (λ p. meant ≡ Err p))) }
    ensures compiled { IfOk result (λ r. ∥ ((files : Files)
        × (codes_of setting.now.codes.now ≡ code_of files)) ∥₁) }
{
    let mut whole: Box<Whole<'a, P::Work>> = first_of_target(setting, label, work)?;
    match call(setting, id, &mut whole)? {
        Ok(value) => Ok(Ok((value, whole))),
        Err(placed) => Ok(Err(placed)),
    }
}
