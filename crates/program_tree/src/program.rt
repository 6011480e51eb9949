//! A file whose names are resolved: what a program that runs it reads.

ghost use Rattle.std.specs.Prelude.{◌≡◌};
ghost use Rattle.program_tree.specs.ProgramView as view;
ghost use Rattle.program_tree.specs.Resolved as resolved;
ghost use Rattle.grammar.specs.TreeView.{operator_seen, sign_seen};

use crate::names::Binding;
use grammar::{Operator, Sign};
use plain::Text;

/// The slots of a comprehension's own names: from the first up to the end, which isn't one of them.
/// They are made unset when its first operand has its value, before its first turn: what stands in
/// that operand may have used the same ones.
#[derive(Clone, Copy, PartialEq, Eq, Debug)]
pub struct OwnSlots {
    pub first: usize,
    pub end: usize,
}

/// An expression. It is at most 200 deep in a file that was read.
#[cycle(terms)]
pub enum Term {
    /// A name, with what it stands for.
    Name(Binding),
    /// A number, which has no sign of its own.
    Number(u64),
    /// A string, with its escapes read.
    Str(Text),
    Tuple(Vec<Term>),
    ListOf(Vec<Term>),
    DictOf(Vec<Pair>),
    /// `THEN if TEST else OTHER`, in the order of the text.
    Choice(Box<Term>, Box<Term>, Box<Term>),
    Binary(Operator, Box<Term>, Box<Term>),
    Unary(Sign, Box<Term>),
    /// `BASE.NAME`.
    Attribute(Box<Term>, Text),
    /// `BASE[INDEX]`.
    Index(Box<Term>, Box<Term>),
    /// A call, with its positional arguments and then those with names.
    Call(Box<Term>, Vec<Term>, Vec<Argument>),
    /// `[ELEMENT for ..]`, with the slots of its names, and all its clauses; the first one is a
    /// `for`.
    ListEach(OwnSlots, Box<Term>, Vec<Round>),
    /// `{KEY: VALUE for ..}`.
    DictEach(OwnSlots, Box<Term>, Box<Term>, Vec<Round>),
}

// By hand, so that letting one go is a call and isn't written out wherever one may be let go.
impl Drop for Term {
    #[cycle(terms)]
    fn drop(self) {
        match self {
            Term::Name(_) => {}
            Term::Number(_) => {}
            Term::Str(_) => {}
            Term::Tuple(_) => {}
            Term::ListOf(_) => {}
            Term::DictOf(_) => {}
            Term::Choice(_, _, _) => {}
            Term::Binary(_, _, _) => {}
            Term::Unary(_, _) => {}
            Term::Attribute(_, _) => {}
            Term::Index(_, _) => {}
            Term::Call(_, _, _) => {}
            Term::ListEach(_, _, _) => {}
            Term::DictEach(_, _, _, _) => {}
        }
    }
}

/// An entry of a dict.
#[cycle(terms)]
#[derive(Drop)]
pub struct Pair {
    pub key: Term,
    pub value: Term,
}

/// An argument with its name.
#[cycle(terms)]
#[derive(Drop)]
pub struct Argument {
    pub name: Text,
    pub value: Term,
}

/// A clause of a comprehension.
#[cycle(terms)]
#[derive(Drop)]
pub enum Round {
    /// `for`, with what its names stand for, and its operand.
    For(Vec<Binding>, Term),
    /// `if`, with its test.
    If(Term),
}

/// What a `load` binds: the name in the module, and the number of the name in this file.
#[derive(Drop)]
pub struct Loaded {
    pub asked: Text,
    pub binds: usize,
}

/// A statement. Where several names are bound, the items of a sequence go to them.
#[cycle(steps)]
pub enum Statement {
    /// `load(MODULE, ..)`.
    Load(Text, Vec<Loaded>),
    Define(Function),
    /// The branches of an `if` and of its `elif`s, of which there is one at least, and the
    /// statements of its `else`.
    If(Vec<Branch>, Vec<Step>),
    /// `for NAMES in OPERAND`, with the statements of its block.
    For(Vec<Binding>, Term, Vec<Step>),
    /// `NAMES = VALUE`.
    Assign(Vec<Binding>, Term),
    /// `BASE[INDEX] = VALUE`.
    AssignAt(Box<Term>, Box<Term>, Term),
    /// `NAME += VALUE`.
    Add(Binding, Term),
    /// `BASE[INDEX] += VALUE`.
    AddAt(Box<Term>, Box<Term>, Term),
    /// An expression whose value is dropped.
    Evaluate(Term),
    Pass,
    Break,
    Continue,
    /// `return`, with its operand if it has one.
    Return(Option<Term>),
}

// By hand, so that letting one go is a call and isn't written out wherever one may be let go.
impl Drop for Statement {
    #[cycle(steps)]
    fn drop(self) {
        match self {
            Statement::Load(_, _) => {}
            Statement::Define(_) => {}
            Statement::If(_, _) => {}
            Statement::For(_, _, _) => {}
            Statement::Assign(_, _) => {}
            Statement::AssignAt(_, _, _) => {}
            Statement::Add(_, _) => {}
            Statement::AddAt(_, _, _) => {}
            Statement::Evaluate(_) => {}
            Statement::Pass => {}
            Statement::Break => {}
            Statement::Continue => {}
            Statement::Return(_) => {}
        }
    }
}

/// A test of a condition, with the number of its first line in the file, and the statements that
/// run where it is the first that holds.
#[cycle(steps)]
#[derive(Drop)]
pub struct Branch {
    pub line: usize,
    pub test: Term,
    pub steps: Vec<Step>,
}

/// A function.
#[cycle(steps)]
#[derive(Drop)]
pub struct Function {
    /// Functions count from 1 on, in the order of the text; 0 is the top level.
    pub number: usize,
    /// The number of the name that it binds at the top level.
    pub binds: usize,
    /// The names of its parameters.
    pub params: Vec<Text>,
    /// The defaults of the last parameters.
    pub defaults: Vec<Term>,
    /// How many slots it has: its parameters have the first ones, then the names that its lines
    /// bind, and behind them the comprehensions in it, of which two that aren't in each other may
    /// share some.
    pub slots: usize,
    pub steps: Vec<Step>,
}

/// A statement, with the number of its first line in the file, counted from 1.
#[cycle(steps)]
#[derive(Drop)]
pub struct Step {
    pub line: usize,
    pub statement: Statement,
}

/// An operator between two expressions.
pub fn binary(operator: Operator, left: Box<Term>, right: Box<Term>) -> Term
    ensures { view.term result ≡ resolved.operates (operator_seen operator) (view.term left.value)
        (view.term right.value) }
{
    Term::Binary(operator, left, right)
}

/// An expression with an operator before it.
pub fn unary(sign: Sign, operand: Box<Term>) -> Term
    ensures { view.term result ≡ resolved.turned (sign_seen sign) (view.term operand.value) }
{
    Term::Unary(sign, operand)
}

/// `THEN if TEST else OTHER`, in the order of the text.
pub fn choice(then: Box<Term>, test: Box<Term>, other: Box<Term>) -> Term
    ensures { view.term result ≡ resolved.choice (view.term then.value) (view.term test.value)
        (view.term other.value) }
{
    Term::Choice(then, test, other)
}

/// A field of an expression.
pub fn attribute(of: Box<Term>, name: Text) -> Term
    ensures { view.term result ≡ resolved.selects (view.term of.value) name }
{
    Term::Attribute(of, name)
}

/// `OF[AT]`.
pub fn index(of: Box<Term>, at: Box<Term>) -> Term
    ensures { view.term result ≡ resolved.subscript (view.term of.value) (view.term at.value) }
{
    Term::Index(of, at)
}

/// A call, with its positional arguments and then those with names.
pub fn call(callee: Box<Term>, items: Vec<Term>, named: Vec<Argument>) -> Term
    ensures { view.term result ≡ resolved.invokes (view.term callee.value) (view.terms items.items)
        (view.keywords named.items) }
{
    Term::Call(callee, items, named)
}

/// A comprehension of a list, with the slots of its names.
pub fn list_each(own: OwnSlots, element: Box<Term>, clauses: Vec<Round>) -> Term
    ensures { view.term result ≡ resolved.each own (view.term element.value)
        (view.rounds clauses.items) }
{
    Term::ListEach(own, element, clauses)
}

/// A comprehension of a dict, with the slots of its names.
pub fn dict_each(own: OwnSlots, key: Box<Term>, value: Box<Term>, clauses: Vec<Round>) -> Term
    ensures { view.term result ≡ resolved.each_pair own (view.term key.value)
        (view.term value.value) (view.rounds clauses.items) }
{
    Term::DictEach(own, key, value, clauses)
}

/// A tuple of these items.
pub fn tuple(items: Vec<Term>) -> Term
    ensures { view.term result ≡ resolved.tuple (view.terms items.items) }
{
    Term::Tuple(items)
}

/// A list of these items.
pub fn list_of(items: Vec<Term>) -> Term
    ensures { view.term result ≡ resolved.listing (view.terms items.items) }
{
    Term::ListOf(items)
}

/// A dict of these entries.
pub fn dict_of(found: Vec<Pair>) -> Term
    ensures { view.term result ≡ resolved.dict (view.pairs found.items) }
{
    Term::DictOf(found)
}

/// What a name stands for.
pub fn name(binding: Binding) -> Term
    ensures { view.term result ≡ resolved.named binding }
{
    Term::Name(binding)
}

/// A number.
pub fn number(value: u64) -> Term
    ensures { view.term result ≡ resolved.numeral value }
{
    Term::Number(value)
}

/// A string, with its escapes read.
pub fn string(text: Text) -> Term
    ensures { view.term result ≡ resolved.quoted text }
{
    Term::Str(text)
}

/// An entry of a dict.
pub fn entry(key: Term, value: Term) -> Pair
    ensures { view.pair result ≡ (view.term key, view.term value) }
{
    Pair { key, value }
}

/// An argument with its name.
pub fn keyword(name: Text, value: Term) -> Argument
    ensures { view.argument result ≡ (name, view.term value) }
{
    Argument { name, value }
}
