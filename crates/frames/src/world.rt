//! The operations on values, as the machine calls them.

ghost use Rattle.std.specs.Prelude.{◌≡◌, List, [], ◌∷◌, IfOk, MatchOption, option_map};
ghost use Rattle.grammar.specs.TreeView.{operator_seen, sign_seen};
ghost use Rattle.meaning.specs.Operations.{Operations};
ghost use Rattle.values.specs.declared.value.Value as held;
ghost use Rattle.ticks.specs.declared.ticks.Kind as kinds;
ghost use Rattle.values.specs.Seeing.{item_value};
ghost use Rattle.ticks.specs.Ticking.{Says};
ghost use Rattle.frames.specs.Answers.{SaysAs, Unpacks, refusal_seen, id_seen, callee_seen};
ghost use Rattle.frames.specs.Answers.{given};
ghost use Rattle.frames.specs.Kept.{defaults_seen};

use crate::defaults::Defaults;
use crate::frame::{Callee, FunctionId};
use crate::stack::Stack;
use field_names::FieldName;
use grammar::{Operator, Sign};
use keys::TextKey;
use operands::Operand;
use plain::Text;
use program_tree::Predeclared;
use std::alloc::{AllocError, Global};
use values::{Broken, Item, Items, Kind, Value};

/// The faults that evaluation finds itself, whatever the values are.
#[derive(Clone, Copy, PartialEq, Eq, Debug)]
pub enum Refusal {
    /// A name isn't set yet.
    Unset,
    /// A value can't be called.
    WrongType,
    /// Arguments, or the items of a sequence, don't fit in number.
    Arity,
    /// A function is active already.
    Recursion,
    /// Too many functions are active.
    Deep,
}

/// A world with what never changes while code runs: the linked files, and what only the place of an
/// evaluation has. Its methods are the operations of a record on its states: each gives what the
/// operation does, with the state after it, or the fault that the operation has. Where memory was
/// refused nothing is said.
pub trait Operate<'a> {
    /// All that operations change.
    type State;
    /// The items that a walk has left.
    type Walk: Drop;

    ghost operations: { Self → Operations Self.State held.Value kinds.Kind };

    ghost rest: { Self.Walk → List held.Value };

    /// The kind of a fault that evaluation finds.
    fn refusal(&self, refusal: Refusal) -> Kind
        ensures { result ≡ (operations self.now).refusal (refusal_seen refusal) };

    /// A number that a file writes out. One from 2^63 on, which no text that is read has, may be
    /// answered as want of memory.
    fn number(&self, number: u64) -> Result<Value, AllocError>
        ensures { IfOk result (λ v. v ≡ (operations self.now).number number) };

    /// A string that a file writes out, which is lent.
    fn string(&self, text: &'a TextKey) -> Operand<'a>
        ensures { result ≡ (operations self.now).string text.now };

    /// `None`.
    fn none(&self) -> Value
        ensures { result ≡ (operations self.now).none };

    /// What each file finds bound.
    fn predeclared(&self, name: Predeclared) -> Operand<'a>
        ensures { result ≡ (operations self.now).predeclared name };

    /// Whether a value counts as true.
    fn truth(&self, state: &Self::State, value: Item<'_>) -> bool
        ensures { result ≡ (operations self.now).truth state.now (item_value value.entry) };

    /// One tick.
    fn tick(&self, state: &mut Self::State) -> Result<(), Broken>
        ensures { Says ((operations self.now).tick state.old) result state.new };

    /// An operator between two values, but `and` and `or`.
    fn binary(
        &self,
        state: &mut Self::State,
        operator: Operator,
        left: &Operand<'a>,
        right: &Operand<'a>,
    ) -> Result<Value, Broken>
        ensures { Says ((operations self.now).binary (operator_seen operator) left.now right.now
            state.old) result state.new };

    /// `not` or `-`.
    fn sign(&self, state: &mut Self::State, sign: Sign, value: Item<'_>) -> Result<Value, Broken>
        ensures { Says ((operations self.now).sign (sign_seen sign) (item_value value.entry)
            state.old) result state.new };

    /// What `x += y` assigns to `x`.
    fn increase(
        &self,
        state: &mut Self::State,
        old: Operand<'a>,
        more: &Operand<'a>,
    ) -> Result<Value, Broken>
        ensures { Says ((operations self.now).increase old.entry more.now state.old) result
            state.new };

    /// `x.NAME`: of what is lent it may be lent.
    fn field(
        &self,
        state: &mut Self::State,
        value: &Operand<'a>,
        name: &FieldName,
    ) -> Result<Operand<'a>, Broken>
        ensures { Says ((operations self.now).field value.now name.now state.old) result
            state.new };

    /// `x[i]`, of x and i: of what is lent it may be lent.
    fn item(
        &self,
        state: &mut Self::State,
        base: &Operand<'a>,
        index: Item<'_>,
    ) -> Result<Operand<'a>, Broken>
        ensures { Says ((operations self.now).item base.now (item_value index.entry) state.old)
            result state.new };

    /// `x[i] = v`, of x, i and v.
    fn set_item(
        &self,
        state: &mut Self::State,
        base: Item<'_>,
        index: &Operand<'a>,
        value: Operand<'a>,
    ) -> Result<(), Broken>
        ensures { Says ((operations self.now).set_item (item_value base.entry) index.now
            value.entry state.old) result state.new };

    /// A new list of these items.
    fn new_list(&self, state: &mut Self::State, items: Items<'a>) -> Result<Value, Broken>
        ensures { Says ((operations self.now).new_list items.entry state.old) result state.new };

    /// A new tuple of these items.
    fn new_tuple(&self, state: &mut Self::State, items: Items<'a>) -> Result<Value, Broken>
        ensures { Says ((operations self.now).new_tuple items.entry state.old) result state.new };

    /// An item more of a comprehension's list.
    fn collect(
        &self,
        state: &mut Self::State,
        list: Item<'_>,
        item: Operand<'a>,
    ) -> Result<(), Broken>
        ensures { Says ((operations self.now).collect (item_value list.entry) item.entry state.old)
            result state.new };

    /// A new dict, without entries.
    fn new_dict(&self, state: &mut Self::State) -> Result<Value, Broken>
        ensures { Says ((operations self.now).new_dict state.old) result state.new };

    /// An entry more of a display's dict.
    fn enter(
        &self,
        state: &mut Self::State,
        dict: Item<'_>,
        key: &Operand<'a>,
        value: Operand<'a>,
    ) -> Result<(), Broken>
        ensures { Says ((operations self.now).enter (item_value dict.entry) key.now value.entry
            state.old) result state.new };

    /// An entry more of a comprehension's dict, where the later value of a key stays.
    fn keep(
        &self,
        state: &mut Self::State,
        dict: Item<'_>,
        key: &Operand<'a>,
        value: Operand<'a>,
    ) -> Result<(), Broken>
        ensures { Says ((operations self.now).keep (item_value dict.entry) key.now value.entry
            state.old) result state.new };

    /// A walk over a value begins, and gives the items that it goes over.
    fn begin(&self, state: &mut Self::State, walked: &Operand<'a>) -> Result<Self::Walk, Broken>
        ensures { SaysAs rest ((operations self.now).begin walked.now state.old) result
            state.new };

    /// The next item of a walk, None at its end: of what is lent it may be lent.
    fn next(&self, walk: &mut Self::Walk) -> Result<Option<Operand<'a>>, AllocError>
        ensures { IfOk result (λ next. MatchOption next
            ((rest walk.old ≡ []) × (rest walk.new ≡ []))
            (λ v. rest walk.old ≡ v ∷ rest walk.new)) };

    /// A walk has ended.
    fn end(&self, state: &mut Self::State, walked: Item<'_>)
        ensures { state.new ≡ (operations self.now).end (item_value walked.entry) state.old };

    /// The items of a sequence that is unpacked go onto a stack, the first one at the top, where
    /// they are so many; the answer is whether they are. Where they aren't, the stack stays as it
    /// was. Of what is lent they may be lent.
    fn unpack(
        &self,
        state: &mut Self::State,
        sequence: &Operand<'a>,
        count: usize,
        onto: &mut Stack<Operand<'a>>,
    ) -> Result<bool, Broken>
        ensures { Unpacks ((operations self.now).parts sequence.now state.old) count onto.old
            result state.new onto.new };

    /// The value of a name of the top level of a file: of a linked file it is lent.
    fn global(
        &self,
        state: &mut Self::State,
        file: usize,
        number: usize,
    ) -> Result<Operand<'a>, Broken>
        ensures { Says ((operations self.now).global file number state.old) result state.new };

    /// A global of a file gets a value.
    fn set_global(
        &self,
        state: &mut Self::State,
        file: usize,
        number: usize,
        value: Operand<'a>,
    ) -> Result<(), AllocError>
        ensures { IfOk result (λ _. state.new ≡ (operations self.now).set_global file number
            value.entry state.old) };

    /// A name that a load binds gets its value.
    fn set_loaded(
        &self,
        state: &mut Self::State,
        file: usize,
        number: usize,
        value: Operand<'a>,
    ) -> Result<(), AllocError>
        ensures { IfOk result (λ _. state.new ≡ (operations self.now).set_loaded file number
            value.entry state.old) };

    /// What a load of a file asks a module for, which is lent.
    fn loaded(
        &self,
        state: &mut Self::State,
        file: usize,
        from: &Text,
        name: &Text,
    ) -> Result<Operand<'a>, Broken>
        ensures { Says ((operations self.now).loaded file from.now name.now state.old)
            result state.new };

    /// The function that a `def` makes, with the values of its defaults.
    fn define(
        &self,
        state: &mut Self::State,
        function: FunctionId,
        name: &Text,
        defaults: Items<'a>,
    ) -> Result<Value, Broken>
        ensures { Says ((operations self.now).define (id_seen function) name.now
            defaults.entry state.old) result state.new };

    /// The defaults that a function's `def` kept.
    fn defaults<'b>(&self, state: &'b Self::State, function: FunctionId) -> Defaults<'a, 'b>
        ensures { defaults_seen result
            ≡ (operations self.now).defaults (id_seen function) state.now };

    /// Which function written in Starlark a value is, if it is one.
    fn function(&self, value: Item<'_>) -> Option<FunctionId>
        ensures { option_map id_seen result
            ≡ (operations self.now).function (item_value value.entry) };

    /// What `x.NAME` is where it is called.
    fn find(
        &self,
        state: &mut Self::State,
        owner: Operand<'a>,
        name: &'a FieldName,
    ) -> Result<Callee<'a>, Broken>
        ensures { SaysAs callee_seen ((operations self.now).find owner.entry name.now state.old)
            result state.new };

    /// A call of what isn't written in Starlark: its values by position, of which the first is at
    /// the top, and those by name with their names. The memory of the values is left for the next
    /// call.
    fn call(
        &self,
        state: &mut Self::State,
        callee: &Callee<'a>,
        items: &mut Stack<Operand<'a>>,
        names: &[Text],
        named: Stack<Operand<'a>>,
    ) -> Result<Operand<'a>, Broken>
        ensures { Says ((operations self.now).call (callee_seen callee.now)
            (given items.old names.now named.entry) state.old) result state.new };

    /// Where memory comes from.
    fn alloc(&self) -> Global;
}
