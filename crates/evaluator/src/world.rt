//! The world that the machine runs in.
ghost use Rattle.language.specs.Language.{language};
ghost use Rattle.evaluator.specs.Walked.{left_seen};

use crate::left::Left;
use crate::{binding, calling, finding_callees, functions, looks, operating, turns};
use arena::Arena;
use field_names::FieldName;
use frames::{Callee, Defaults, FunctionId, Operate, Refusal, Stack};
use grammar::{Operator, Sign};
use keys::TextKey;
use language::{Link, Place, Whole};
use operands::Operand;
use operations::DefaultInfo;
use plain::Text;
use program_tree::Predeclared;
use std::alloc::{AllocError, Global};
use values::{Broken, Depset, Item, Items, Kind, Leaf, Value};

/// The linked files and the place of an evaluation. Its operations are those of the language.
#[derive(Drop)]
pub struct World<'a, L, P> {
    /// Where memory is taken from.
    pub alloc: Global,
    /// The files that are linked.
    pub linked: &'a L,
    /// The module, `BUILD` file or implementation that is evaluated.
    pub place: &'a P,
    /// The provider `DefaultInfo`.
    pub default_info: &'a DefaultInfo,
    /// The depsets that were listed and aren't lent: they are kept to the end of the evaluation, so
    /// that they lend what their lists hold.
    pub kept: &'a Arena<Depset>,
}

impl<'a, L: Link<'a>, P: Place<'a>> Operate<'a> for World<'a, L, P> {
    type State = Whole<'a, P::Work>;

    type Walk = Left<'a>;

    ghost operations = { λ w. language (L.linked w.linked.now) (P.place w.place.now) };

    ghost rest = { left_seen };

    #[inline(always)]
    fn refusal(&self, refusal: Refusal) -> Kind {
        match refusal {
            Refusal::Unset => Kind::Unset,
            Refusal::WrongType => Kind::Wrong,
            Refusal::Arity => Kind::Arity,
            Refusal::Recursion => Kind::Recursion,
            Refusal::Deep => Kind::Deep,
        }
    }

    #[inline(always)]
    fn number(&self, number: u64) -> Result<Value, AllocError> {
        functions::number_value(number)
    }

    #[inline(always)]
    fn string(&self, text: &'a TextKey) -> Operand<'a> {
        Operand::lent(Item::Key(text.key()))
    }

    #[inline(always)]
    fn none(&self) -> Value {
        Value::Leaf(Leaf::None)
    }

    #[inline(always)]
    fn predeclared(&self, name: Predeclared) -> Operand<'a> {
        language_calls::predeclared(self.default_info, name)
    }

    #[inline(always)]
    fn truth(&self, state: &Whole<'a, P::Work>, value: Item<'_>) -> bool {
        state::truth(&state.state, value)
    }

    #[inline(always)]
    fn tick(&self, state: &mut Whole<'a, P::Work>) -> Result<(), Broken> {
        state::tick(&mut state.state)?;
        Ok(())
    }

    #[inline(always)]
    fn binary(
        &self,
        state: &mut Whole<'a, P::Work>,
        operator: Operator,
        left: &Operand<'a>,
        right: &Operand<'a>,
    ) -> Result<Value, Broken> {
        operating::binary(self, state, operator, left, right)
    }

    #[inline(always)]
    fn sign(
        &self,
        state: &mut Whole<'a, P::Work>,
        sign: Sign,
        value: Item<'_>,
    ) -> Result<Value, Broken> {
        operating::sign(self, state, sign, value)
    }

    fn increase(
        &self,
        state: &mut Whole<'a, P::Work>,
        old: Operand<'a>,
        more: &Operand<'a>,
    ) -> Result<Value, Broken> {
        state::add_in_place(self.alloc, &mut state.state, old, more)
    }

    #[inline(always)]
    fn field(
        &self,
        state: &mut Whole<'a, P::Work>,
        value: &Operand<'a>,
        name: &FieldName,
    ) -> Result<Operand<'a>, Broken> {
        looks::field(self, state, value, name)
    }

    #[inline(always)]
    fn item(
        &self,
        state: &mut Whole<'a, P::Work>,
        base: &Operand<'a>,
        index: Item<'_>,
    ) -> Result<Operand<'a>, Broken> {
        looks::item(self, state, base, index)
    }

    fn set_item(
        &self,
        state: &mut Whole<'a, P::Work>,
        base: Item<'_>,
        index: &Operand<'a>,
        value: Operand<'a>,
    ) -> Result<(), Broken> {
        let base = base.to_value()?;
        state::set_item(&mut state.state, &base, index, value)
    }

    fn new_list(&self, state: &mut Whole<'a, P::Work>, items: Items<'a>) -> Result<Value, Broken> {
        state::new_list(&mut state.state, items)
    }

    fn new_tuple(&self, state: &mut Whole<'a, P::Work>, items: Items<'a>) -> Result<Value, Broken> {
        state::new_tuple(&mut state.state, items)
    }

    fn collect(
        &self,
        state: &mut Whole<'a, P::Work>,
        list: Item<'_>,
        item: Operand<'a>,
    ) -> Result<(), Broken> {
        let list = list.to_value()?;
        state::collect(&mut state.state, &list, item)
    }

    fn new_dict(&self, state: &mut Whole<'a, P::Work>) -> Result<Value, Broken> {
        state::new_dict(self.alloc, &mut state.state)
    }

    fn enter(
        &self,
        state: &mut Whole<'a, P::Work>,
        dict: Item<'_>,
        key: &Operand<'a>,
        value: Operand<'a>,
    ) -> Result<(), Broken> {
        let dict = dict.to_value()?;
        state::enter(&mut state.state, &dict, key, value)
    }

    fn keep(
        &self,
        state: &mut Whole<'a, P::Work>,
        dict: Item<'_>,
        key: &Operand<'a>,
        value: Operand<'a>,
    ) -> Result<(), Broken> {
        let dict = dict.to_value()?;
        state::keep(&mut state.state, &dict, key, value)
    }

    fn begin(
        &self,
        state: &mut Whole<'a, P::Work>,
        walked: &Operand<'a>,
    ) -> Result<Left<'a>, Broken> {
        turns::begin(state, walked)
    }

    #[inline(always)]
    fn next(&self, walk: &mut Left<'a>) -> Result<Option<Operand<'a>>, AllocError> {
        walk.next()
    }

    fn end(&self, state: &mut Whole<'a, P::Work>, walked: Item<'_>) {
        state::end(&mut state.state, walked);
    }

    fn unpack(
        &self,
        state: &mut Whole<'a, P::Work>,
        sequence: &Operand<'a>,
        count: usize,
        onto: &mut Stack<Operand<'a>>,
    ) -> Result<bool, Broken> {
        turns::unpack(state, sequence, count, onto)
    }

    #[inline(always)]
    fn global(
        &self,
        state: &mut Whole<'a, P::Work>,
        file: usize,
        number: usize,
    ) -> Result<Operand<'a>, Broken> {
        binding::global(self.linked, state, file, number)
    }

    fn set_global(
        &self,
        state: &mut Whole<'a, P::Work>,
        file: usize,
        number: usize,
        value: Operand<'a>,
    ) -> Result<(), AllocError> {
        binding::set_global(state, file, number, value)
    }

    fn set_loaded(
        &self,
        state: &mut Whole<'a, P::Work>,
        file: usize,
        number: usize,
        value: Operand<'a>,
    ) -> Result<(), AllocError> {
        binding::set_loaded(state, file, number, value);
        Ok(())
    }

    fn loaded(
        &self,
        state: &mut Whole<'a, P::Work>,
        file: usize,
        from: &Text,
        name: &Text,
    ) -> Result<Operand<'a>, Broken> {
        binding::load(self.linked, state, file, from, name)
    }

    fn define(
        &self,
        state: &mut Whole<'a, P::Work>,
        function: FunctionId,
        name: &Text,
        defaults: Items<'a>,
    ) -> Result<Value, Broken> {
        binding::define(self.alloc, state, function, name, defaults)
    }

    fn defaults<'b>(
        &self,
        state: &'b Whole<'a, P::Work>,
        function: FunctionId,
    ) -> Defaults<'a, 'b> {
        binding::defaults(self.linked, &state.state, function)
    }

    #[inline(always)]
    fn function(&self, value: Item<'_>) -> Option<FunctionId> {
        functions::function_of(value)
    }

    #[inline(always)]
    fn find(
        &self,
        state: &mut Whole<'a, P::Work>,
        owner: Operand<'a>,
        name: &'a FieldName,
    ) -> Result<Callee<'a>, Broken> {
        finding_callees::find(self, state, owner, name)
    }

    #[inline(always)]
    fn call(
        &self,
        state: &mut Whole<'a, P::Work>,
        callee: &Callee<'a>,
        items: &mut Stack<Operand<'a>>,
        names: &[Text],
        named: Stack<Operand<'a>>,
    ) -> Result<Operand<'a>, Broken> {
        calling::call(self, state, callee, items, names, named)
    }

    #[inline(always)]
    fn alloc(&self) -> Global {
        self.alloc
    }
}
