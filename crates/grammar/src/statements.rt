//! The lines of a file, as the program keeps them: what only their writing has is gone, and a
//! statement on the line of its head is the one line of a block.

use crate::Name;
use crate::tree::Expr;
use plain::Text;

/// A parameter of a function.
pub enum Param<'t> {
    Required(Name<'t>),
    /// With its default.
    Optional(Name<'t>, Box<Expr<'t>>),
}

// By hand, so that letting one go is a call and isn't written out wherever one may be let go.
impl<'t> Drop for Param<'t> {
    fn drop(self) {
        match self {
            Param::Required(_) => {}
            Param::Optional(_, _) => {}
        }
    }
}

/// What a `load` asks for: the name that it binds, and the one in the module.
#[derive(Drop)]
pub struct Item<'t> {
    pub binds: Name<'t>,
    /// The name in the module.
    pub asked: Text,
}

/// A line, without the lines of its block. Where names are bound, the first stands before the
/// others. Expressions stand behind a `Box`, as they were read.
pub enum Form<'t> {
    /// `load(MODULE, ..)`.
    Load(Text, Vec<Item<'t>>),
    /// `def NAME(..):`.
    Def(Name<'t>, Vec<Param<'t>>),
    If(Box<Expr<'t>>),
    Elif(Box<Expr<'t>>),
    Else,
    /// `for FIRST, OTHERS in OPERAND:`.
    For(Name<'t>, Vec<Name<'t>>, Box<Expr<'t>>),
    /// `FIRST, OTHERS = VALUE`.
    Assign(Name<'t>, Vec<Name<'t>>, Box<Expr<'t>>),
    /// `BASE[INDEX] = VALUE`.
    AssignAt(Box<Expr<'t>>, Box<Expr<'t>>, Box<Expr<'t>>),
    /// `NAME += VALUE`.
    Add(Name<'t>, Box<Expr<'t>>),
    /// `BASE[INDEX] += VALUE`.
    AddAt(Box<Expr<'t>>, Box<Expr<'t>>, Box<Expr<'t>>),
    /// An expression alone.
    Evaluate(Box<Expr<'t>>),
    Pass,
    Break,
    Continue,
    /// `return`, with its value where it has one.
    Return(Option<Box<Expr<'t>>>),
}

// By hand, as of `Param`.
impl<'t> Drop for Form<'t> {
    fn drop(self) {
        match self {
            Form::Load(_, _) => {}
            Form::Def(_, _) => {}
            Form::If(_) => {}
            Form::Elif(_) => {}
            Form::Else => {}
            Form::For(_, _, _) => {}
            Form::Assign(_, _, _) => {}
            Form::AssignAt(_, _, _) => {}
            Form::Add(_, _) => {}
            Form::AddAt(_, _, _) => {}
            Form::Evaluate(_) => {}
            Form::Pass => {}
            Form::Break => {}
            Form::Continue => {}
            Form::Return(_) => {}
        }
    }
}

/// A line, with the number of its first line in the file, counted from 1, and the lines of its
/// block.
#[cycle(lines)]
#[derive(Drop)]
pub struct Line<'t> {
    pub number: usize,
    pub form: Box<Form<'t>>,
    pub block: Vec<Line<'t>>,
}
