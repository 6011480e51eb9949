//! Frames.

ghost use Rattle.std.specs.Prelude.{◌≡◌, List, []};
ghost use Rattle.values.specs.declared.value.Value as held;
ghost use Rattle.meaning.specs.Machine.{frame_of};
ghost use Rattle.frames.specs.Answers.{id_seen};
ghost use Rattle.frames.specs.Seen.{seen};

use crate::slots::Slots;
use crate::stack::Stack;
use field_names::FieldName;
use operands::Operand;
use std::alloc::Global;

/// A function written in Starlark: the number of its file among those that are linked, and its own
/// number there.
#[derive(Clone, Copy, PartialEq, Eq, Debug)]
pub struct FunctionId {
    /// The number of its file among those that are linked.
    pub file: usize,
    /// Its own number there, from 1 on in the order of the text; 0 is the file's top level.
    pub number: usize,
}

/// What a call calls: a value, or a method of a value.
#[derive(Drop)]
pub enum Callee<'a> {
    Plain(Operand<'a>),
    Method(Operand<'a>, &'a FieldName),
}

/// A walk that is open: what is walked, the items that are left, where its next turn begins, and
/// where it goes on at its end.
#[derive(Drop)]
pub struct Walk<'a, T> {
    /// What is walked.
    pub of: Operand<'a>,
    /// The items that are left.
    pub items: T,
    /// The place of the instruction where its next turn begins.
    pub head: usize,
    /// The place of the instruction where it goes on at its end.
    pub end: usize,
}

/// A function that runs: the place of its next instruction, its slots, its operands, what it will
/// call, and its open walks, the innermost of which stands apart.
#[derive(Drop)]
pub struct Frame<'a, T> {
    /// The function that runs.
    pub function: FunctionId,
    /// The place of its next instruction.
    pub place: usize,
    /// Its slots, by number.
    pub slots: Slots<'a>,
    /// Its operands.
    pub values: Stack<Operand<'a>>,
    /// What it will call.
    pub callees: Stack<Callee<'a>>,
    /// The innermost open walk, if there is one.
    pub walk: Option<Walk<'a, T>>,
    /// The open walks around that one.
    pub outer: Stack<Walk<'a, T>>,
}

impl<'a, T: Drop> Frame<'a, T> {
    /// A frame in which nothing is, and which takes no memory yet.
    pub fn new(alloc: Global) -> Frame<'a, T>
        ensures { (rest : T → List held.Value) → seen rest result
            ≡ frame_of (id_seen result.function) [] }
    {
        Frame::with_slots(alloc, Slots::new(alloc))
    }

    /// A frame with these slots, in which nothing else is, and which takes no other memory yet.
    pub fn with_slots(alloc: Global, slots: Slots<'a>) -> Frame<'a, T>
        ensures whole { (rest : T → List held.Value) → seen rest result
            ≡ frame_of (id_seen result.function) slots.entry }
        ensures slots { result.slots ≡ slots.entry }
    {
        Frame {
            function: FunctionId { file: 0, number: 0 },
            place: 0,
            slots,
            values: Stack::new(alloc),
            callees: Stack::new(alloc),
            walk: None,
            outer: Stack::new(alloc),
        }
    }

    /// The frame stands at the first instruction of a function, with the slots that it has, and
    /// nothing else is in it.
    #[inline(always)]
    pub fn start(&mut self, function: FunctionId)
        ensures { (rest : T → List held.Value) → seen rest self.new
            ≡ frame_of (id_seen function) self.old.slots }
    {
        self.function = function;
        self.place = 0;
        self.values.clear();
        self.callees.clear();
        if self.walk.is_some() {
            self.walk = None;
        }
        self.outer.clear();
    }

    /// Lets go all that is in the frame; its memory is kept for another function, up to 1,024 items
    /// of each list.
    pub fn let_go(&mut self)
        ensures { (rest : T → List held.Value) → seen rest self.new
            ≡ record (seen rest self.old) { slots = []; values = []; callees = []; walks = [] } }
    {
        self.slots.let_go();
        self.values.clear();
        self.callees.clear();
        if self.walk.is_some() {
            self.walk = None;
        }
        self.outer.clear();
    }
}
