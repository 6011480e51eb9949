//! The trees of expressions, as the program keeps them: what only their writing has, as brackets
//! alone and commas at the end, is gone.

ghost use Rattle.std.specs.Prelude.{◌≡◌};
ghost use Rattle.std.specs.Option.{option_map};
ghost use Rattle.grammar.specs.Descent.{target_in};
ghost use Rattle.grammar.specs.Descended.{target_of};
ghost use Rattle.grammar.specs.Levels.{operator_level};
ghost use Rattle.grammar.specs.TreeView.{operator_seen, tree_of};

use crate::Name;
use plain::Text;

/// How deep an expression may be. A name or a literal is 1 deep, each other form one more than the
/// deepest of its parts; brackets alone add nothing.
pub const MAX_DEPTH: usize = 200;

/// An operator between two parts.
#[derive(Clone, Copy, PartialEq, Eq, Debug)]
pub enum Operator {
    Or,
    And,
    Equal,
    NotEqual,
    Less,
    Greater,
    LessEqual,
    GreaterEqual,
    In,
    NotIn,
    Add,
    Subtract,
    Multiply,
    FloorDivide,
    Remainder,
}

impl Operator {
    /// How tightly it binds: 2 is the loosest level of operators between two parts, 7 the tightest.
    pub(crate) fn level(self) -> usize
        ensures { result ≡ operator_level (operator_seen self) }
    {
        match self {
            Operator::Or => 2,
            Operator::And => 3,
            Operator::Equal
            | Operator::NotEqual
            | Operator::Less
            | Operator::Greater
            | Operator::LessEqual
            | Operator::GreaterEqual
            | Operator::In
            | Operator::NotIn => 5,
            Operator::Add | Operator::Subtract => 6,
            Operator::Multiply | Operator::FloorDivide | Operator::Remainder => 7,
        }
    }
}

/// An operator before a part.
#[derive(Clone, Copy, PartialEq, Eq, Debug)]
pub enum Sign {
    Not,
    Minus,
}

/// An expression. It is at most 200 deep in a text that was read.
#[cycle(tree)]
pub enum Expr<'t> {
    /// A name; `None`, `True` and `False` are names.
    Name(Name<'t>),
    Number(u64),
    /// A string, with its escapes read.
    Str(Text),
    Tuple(Vec<Expr<'t>>),
    ListOf(Vec<Expr<'t>>),
    DictOf(Vec<Entry<'t>>),
    /// `THEN if TEST else OTHER`, in the order of the text.
    Choice(Box<Expr<'t>>, Box<Expr<'t>>, Box<Expr<'t>>),
    Binary(Operator, Box<Expr<'t>>, Box<Expr<'t>>),
    Unary(Sign, Box<Expr<'t>>),
    /// `BASE.NAME`.
    Attribute(Box<Expr<'t>>, Name<'t>),
    /// `BASE[INDEX]`.
    Index(Box<Expr<'t>>, Box<Expr<'t>>),
    /// A call, with its positional arguments and then those with names.
    Call(Box<Expr<'t>>, Vec<Expr<'t>>, Vec<Keyword<'t>>),
    /// `[ELEMENT for ..]`, with all its clauses; the first one is a `for`.
    ListEach(Box<Expr<'t>>, Vec<Clause<'t>>),
    /// `{KEY: VALUE for ..}`.
    DictEach(Box<Expr<'t>>, Box<Expr<'t>>, Vec<Clause<'t>>),
}

// By hand, so that letting one go is a call and isn't written out wherever one may be let go.
impl<'t> Drop for Expr<'t> {
    #[cycle(tree)]
    fn drop(self) {
        match self {
            Expr::Name(_) => {}
            Expr::Number(_) => {}
            Expr::Str(_) => {}
            Expr::Tuple(_) => {}
            Expr::ListOf(_) => {}
            Expr::DictOf(_) => {}
            Expr::Choice(_, _, _) => {}
            Expr::Binary(_, _, _) => {}
            Expr::Unary(_, _) => {}
            Expr::Attribute(_, _) => {}
            Expr::Index(_, _) => {}
            Expr::Call(_, _, _) => {}
            Expr::ListEach(_, _) => {}
            Expr::DictEach(_, _, _) => {}
        }
    }
}

/// What can be assigned to.
#[derive(Drop)]
pub enum Target<'t> {
    Name(Name<'t>),
    /// `BASE[INDEX]`.
    At(Box<Expr<'t>>, Box<Expr<'t>>),
}

impl<'t> Expr<'t> {
    /// The expression as what is assigned to; None where it is neither a name nor an index.
    pub fn into_target(self) -> Option<Target<'t>>
        ensures { option_map target_of result ≡ target_in (tree_of self.entry) }
    {
        match self {
            Expr::Name(name) => Some(Target::Name(name)),
            Expr::Index(base, at) => Some(Target::At(base, at)),
            Expr::Number(_) => None,
            Expr::Str(_) => None,
            Expr::Tuple(_) => None,
            Expr::ListOf(_) => None,
            Expr::DictOf(_) => None,
            Expr::Choice(_, _, _) => None,
            Expr::Binary(_, _, _) => None,
            Expr::Unary(_, _) => None,
            Expr::Attribute(_, _) => None,
            Expr::Call(_, _, _) => None,
            Expr::ListEach(_, _) => None,
            Expr::DictEach(_, _, _) => None,
        }
    }
}

/// An entry of a dict.
#[cycle(tree)]
#[derive(Drop)]
pub struct Entry<'t> {
    pub key: Expr<'t>,
    pub value: Expr<'t>,
}

/// An argument with its name.
#[cycle(tree)]
#[derive(Drop)]
pub struct Keyword<'t> {
    pub name: Name<'t>,
    pub value: Expr<'t>,
}

/// A clause of a comprehension.
#[cycle(tree)]
#[derive(Drop)]
pub enum Clause<'t> {
    /// `for FIRST, OTHERS in OPERAND`.
    For(Name<'t>, Vec<Name<'t>>, Expr<'t>),
    If(Expr<'t>),
}
