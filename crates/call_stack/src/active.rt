//! The functions that are active.

ghost use Rattle.std.specs.Prelude.{◌≡◌, [], ◌∷◌, length, IfOk};
ghost use Rattle.std.specs.List.{list_any};
ghost use Rattle.meaning.specs.Entry.{same_function};
ghost use Rattle.meaning.specs.Machine.{outer};
ghost use Rattle.frames.specs.Answers.{id_seen};
ghost use Rattle.call_stack.specs.ActiveView.{ids_seen};

use frames::{Frame, FunctionId, Stack};
use operands::Operand;
use plain::push_last;
use std::alloc::{AllocError, Global};
use std::marker::Model;
use std::mem::replace;

/// The functions that are active; the list that a clause sees has the innermost first. The frames
/// of those that have ended stand beside them, and a stack for arguments, so that the next call
/// takes their memory.
#[derive(Drop)]
pub struct Active<'a, T> {
    functions: Vec<FunctionId>,
    ended: Stack<Box<Frame<'a, T>>>,
    arguments: Stack<Operand<'a>>,
}

impl<'a, T> Model for Active<'a, T> {
    ghost use Rattle.std.specs.Prelude.{List, reverse};
    ghost use Rattle.frames.specs.declared.frame.FunctionId.{FunctionId};

    ghost Value = { List FunctionId };

    ghost view = { λ a. reverse a.functions.items };
}

/// Whether a function is one of these.
#[inline(always)]
fn is_among(function: FunctionId, functions: &[FunctionId]) -> bool
    ensures { result ≡ list_any (λ g. same_function (id_seen function) (id_seen g)) functions.now }
{
    functions.iter().any(|other| function == *other)
}

/// A frame in which nothing is. It is wide, and most calls find one that has ended, so it isn't
/// made where they stand.
#[inline(never)]
fn new_frame<'a, T: Drop>(alloc: Global) -> Result<Box<Frame<'a, T>>, AllocError> {
    Ok(Box::new(alloc, Frame::new(alloc))?)
}

impl<'a, T: Drop> Active<'a, T> {
    /// None is active.
    pub fn new(alloc: Global) -> Active<'a, T>
        ensures { result ≡ [] }
    {
        Active {
            functions: Vec::new(alloc),
            ended: Stack::new(alloc),
            arguments: Stack::new(alloc),
        }
    }

    /// How many are active.
    #[inline(always)]
    pub(crate) fn len(&self) -> usize
        ensures { result ≡ length (ids_seen self.now) }
    {
        self.functions.len()
    }

    /// Whether a function is active.
    #[inline(always)]
    pub(crate) fn contains(&self, function: FunctionId) -> bool
        ensures { result ≡ list_any (same_function (id_seen function)) (ids_seen self.now) }
    {
        is_among(function, self.functions.as_slice())
    }

    /// A function is active inside of the others.
    #[inline(always)]
    pub(crate) fn enter(&mut self, function: FunctionId) -> Result<(), AllocError>
        ensures { IfOk result (λ _. self.new ≡ function ∷ self.old) }
    {
        push_last(&mut self.functions, function)
    }

    /// The innermost one is left.
    #[inline(always)]
    pub(crate) fn leave(&mut self)
        ensures { ids_seen self.new ≡ outer (ids_seen self.old) }
    {
        let _left = self.functions.pop();
    }

    /// A frame for the next call: one that has ended, or a new one.
    #[inline(always)]
    pub(crate) fn spare(&mut self, alloc: Global) -> Result<Box<Frame<'a, T>>, AllocError>
        ensures { self.new ≡ self.old }
    {
        match self.ended.pop() {
            Some(frame) => Ok(frame),
            None => new_frame(alloc),
        }
    }

    /// A stack without items for the arguments of the next call. That the kept one has none isn't
    /// known here, so it is emptied.
    #[inline(always)]
    pub(crate) fn spare_arguments(&mut self, alloc: Global) -> Stack<Operand<'a>>
        ensures none { result ≡ [] }
        ensures same { self.new ≡ self.old }
    {
        let mut arguments = replace(&mut self.arguments, Stack::new(alloc));
        arguments.clear();
        arguments
    }

    /// The memory of the arguments of a call is kept for the next one.
    #[inline(always)]
    pub(crate) fn keep_arguments(&mut self, arguments: Stack<Operand<'a>>)
        ensures { self.new ≡ self.old }
    {
        let mut arguments = arguments;
        arguments.clear();
        let _taken = replace(&mut self.arguments, arguments);
    }

    /// What is in the frame of a function that has ended is let go, and its memory is kept for the
    /// next call, unless memory for that is refused.
    #[inline(always)]
    pub(crate) fn keep(&mut self, frame: Box<Frame<'a, T>>)
        ensures { self.new ≡ self.old }
    {
        let mut frame = frame;
        frame.let_go();
        let _kept = self.ended.push(frame);
    }
}
