//! Parts of an expression, each with its depth, and what is made of them.
//!
//! Each function that makes a part is given room: how deep it may be. It answers [`Stop::NoForm`]
//! where the part would be deeper, and [`Stop::NoMemory`] where memory was refused.

ghost use Rattle.std.specs.Prelude.{◌≡◌, ◌∷◌, ◌++◌, [], IfOk, OnOk, true, false};
ghost use Rattle.grammar.specs.Ahead.{Makes};
ghost use Rattle.grammar.specs.Bare as bare;
ghost use Rattle.grammar.specs.Descent as spec;
ghost use Rattle.grammar.specs.Descended.{part_seen, pair_seen, several_seen, pairs_seen};
ghost use Rattle.grammar.specs.Descended.{arguments_seen, conditions_seen};
ghost use Rattle.grammar.specs.TreeView.{operator_seen, sign_seen, tree_of};

use crate::Name;
use crate::ahead::Stop;
use crate::tree::{Clause, Entry, Expr, Keyword, Operator, Sign};
use plain::Text;
use std::alloc::{AllocError, Global};

/// Which expressions may stand inside of a form.
#[derive(Clone, Copy)]
pub enum Row {
    /// Any.
    Whole,
    /// Any but a conditional.
    Operand,
    /// What may stand behind `not`.
    Negated,
    /// What may stand behind `-`.
    Opposed,
}

/// An expression, how deep it is, and whether it is a name or an index as it is written, to which
/// can be assigned. It is kept behind a `Box`, so that those who read one inside of another take
/// little of the stack.
#[derive(Drop)]
pub struct Part<'t> {
    pub expr: Box<Expr<'t>>,
    pub depth: usize,
    pub is_target: bool,
}

/// Several expressions, and the depth of the deepest.
#[derive(Drop)]
pub struct Several<'t> {
    pub items: Vec<Expr<'t>>,
    pub depth: usize,
}

/// Entries of a dict, and the depth of the deepest key or value.
#[derive(Drop)]
pub struct Pairs<'t> {
    pub entries: Vec<Entry<'t>>,
    pub depth: usize,
}

/// The arguments of a call, and whether those with names come last.
#[derive(Drop)]
pub struct Arguments<'t> {
    /// The positional arguments.
    pub items: Vec<Expr<'t>>,
    /// The arguments with names.
    pub named: Vec<Keyword<'t>>,
    /// The depth of the deepest of all of them, or 0.
    pub depth: usize,
    /// Whether no positional argument came behind one with a name.
    pub in_order: bool,
}

/// The clauses of a comprehension.
#[derive(Drop)]
pub struct Conditions<'t> {
    pub clauses: Vec<Clause<'t>>,
    /// The depth of the deepest expression in them, or 0.
    pub depth: usize,
}

/// A tree over parts of this depth, where the depth leaves room for one more.
fn over<'t>(
    alloc: Global,
    expr: Expr<'t>,
    depth: usize,
    is_target: bool,
    room: usize,
) -> Result<Part<'t>, Stop>
    ensures { Makes part_seen (spec.over room is_target (tree_of expr.entry) depth) result }
{
    if depth < room {
        Ok(Part {
            expr: Box::new(alloc, expr)?,
            depth: depth + 1,
            is_target,
        })
    } else {
        Err(Stop::NoForm)
    }
}

/// A name, where there is room.
///
/// # Errors
///
/// [`Stop::NoForm`] where it would be deeper than `room`; [`Stop::NoMemory`] where memory was
/// refused.
#[inline(never)]
pub fn name<'t>(alloc: Global, name: &'t str, room: usize) -> Result<Part<'t>, Stop>
    ensures { Makes part_seen (spec.over room true (bare.named name.now) 0) result }
{
    over(alloc, Expr::Name(Name::new(name)), 0, true, room)
}

/// A number.
///
/// # Errors
///
/// [`Stop::NoForm`] where it would be deeper than `room`; [`Stop::NoMemory`] where memory was
/// refused.
#[inline(never)]
pub fn number<'t>(alloc: Global, value: u64, room: usize) -> Result<Part<'t>, Stop>
    ensures { Makes part_seen (spec.over room false (bare.numeral value) 0) result }
{
    over(alloc, Expr::Number(value), 0, false, room)
}

/// A string.
///
/// # Errors
///
/// [`Stop::NoForm`] where it would be deeper than `room`; [`Stop::NoMemory`] where memory was
/// refused.
#[inline(never)]
pub fn string<'t>(alloc: Global, text: Text, room: usize) -> Result<Part<'t>, Stop>
    ensures { Makes part_seen (spec.over room false (bare.quoted text) 0) result }
{
    over(alloc, Expr::Str(text), 0, false, room)
}

/// An operator between two parts.
///
/// # Errors
///
/// [`Stop::NoForm`] where it would be deeper than `room`; [`Stop::NoMemory`] where memory was
/// refused.
#[inline(never)]
pub fn operated<'t>(
    alloc: Global,
    operator: Operator,
    left: Part<'t>,
    right: Part<'t>,
    room: usize,
) -> Result<Part<'t>, Stop>
    ensures { Makes part_seen (spec.operated room (operator_seen operator) (part_seen left.entry)
        (part_seen right.entry)) result }
{
    let Part {
        expr: first,
        depth: a,
        ..
    } = left;
    let Part {
        expr: second,
        depth: b,
        ..
    } = right;
    let expr = Expr::Binary(operator, first, second);
    over(alloc, expr, a.max(b), false, room)
}

/// A part with an operator before it.
///
/// # Errors
///
/// [`Stop::NoForm`] where it would be deeper than `room`; [`Stop::NoMemory`] where memory was
/// refused.
#[inline(never)]
pub fn signed<'t>(
    alloc: Global,
    sign: Sign,
    operand: Part<'t>,
    room: usize,
) -> Result<Part<'t>, Stop>
    ensures { Makes part_seen (spec.signed_part room (sign_seen sign) (part_seen operand.entry))
        result }
{
    let Part { expr, depth, .. } = operand;
    over(alloc, Expr::Unary(sign, expr), depth, false, room)
}

/// A conditional, with its parts in the order of the text.
///
/// # Errors
///
/// [`Stop::NoForm`] where it would be deeper than `room`; [`Stop::NoMemory`] where memory was
/// refused.
#[inline(never)]
pub fn chosen<'t>(
    alloc: Global,
    then: Part<'t>,
    test: Part<'t>,
    other: Part<'t>,
    room: usize,
) -> Result<Part<'t>, Stop>
    ensures { Makes part_seen (spec.chosen room (part_seen then.entry) (part_seen test.entry)
        (part_seen other.entry)) result }
{
    let Part {
        expr: first,
        depth: a,
        ..
    } = then;
    let Part {
        expr: second,
        depth: b,
        ..
    } = test;
    let Part {
        expr: third,
        depth: c,
        ..
    } = other;
    let expr = Expr::Choice(first, second, third);
    over(alloc, expr, a.max(b.max(c)), false, room)
}

/// A field.
///
/// # Errors
///
/// [`Stop::NoForm`] where it would be deeper than `room`; [`Stop::NoMemory`] where memory was
/// refused.
#[inline(never)]
pub fn selected<'t>(
    alloc: Global,
    of: Part<'t>,
    name: &'t str,
    room: usize,
) -> Result<Part<'t>, Stop>
    ensures { Makes part_seen (spec.selected room (part_seen of.entry) name.now) result }
{
    let Part { expr, depth, .. } = of;
    let expr = Expr::Attribute(expr, Name::new(name));
    over(alloc, expr, depth, false, room)
}

/// An index.
///
/// # Errors
///
/// [`Stop::NoForm`] where it would be deeper than `room`; [`Stop::NoMemory`] where memory was
/// refused.
#[inline(never)]
pub fn subscripted<'t>(
    alloc: Global,
    of: Part<'t>,
    at: Part<'t>,
    room: usize,
) -> Result<Part<'t>, Stop>
    ensures { Makes part_seen (spec.subscripted room (part_seen of.entry) (part_seen at.entry))
        result }
{
    let Part {
        expr: first,
        depth: a,
        ..
    } = of;
    let Part {
        expr: second,
        depth: b,
        ..
    } = at;
    over(alloc, Expr::Index(first, second), a.max(b), true, room)
}

/// A call.
///
/// # Errors
///
/// [`Stop::NoForm`] where it would be deeper than `room`; [`Stop::NoMemory`] where memory was
/// refused.
#[inline(never)]
pub fn called<'t>(
    alloc: Global,
    callee: Part<'t>,
    arguments: Arguments<'t>,
    room: usize,
) -> Result<Part<'t>, Stop>
    ensures { Makes part_seen (spec.called room (part_seen callee.entry)
        (arguments_seen arguments.entry)) result }
{
    let Part { expr, depth: a, .. } = callee;
    let Arguments {
        items,
        named,
        depth: b,
        ..
    } = arguments;
    over(alloc, Expr::Call(expr, items, named), a.max(b), false, room)
}

/// A tuple.
///
/// # Errors
///
/// [`Stop::NoForm`] where it would be deeper than `room`; [`Stop::NoMemory`] where memory was
/// refused.
#[inline(never)]
pub fn tuple<'t>(alloc: Global, several: Several<'t>, room: usize) -> Result<Part<'t>, Stop>
    ensures { Makes part_seen (spec.tuple_part room (several_seen several.entry)) result }
{
    let Several { items, depth } = several;
    over(alloc, Expr::Tuple(items), depth, false, room)
}

/// A list.
///
/// # Errors
///
/// [`Stop::NoForm`] where it would be deeper than `room`; [`Stop::NoMemory`] where memory was
/// refused.
#[inline(never)]
pub fn list<'t>(alloc: Global, several: Several<'t>, room: usize) -> Result<Part<'t>, Stop>
    ensures { Makes part_seen (spec.list_part room (several_seen several.entry)) result }
{
    let Several { items, depth } = several;
    over(alloc, Expr::ListOf(items), depth, false, room)
}

/// A dict.
///
/// # Errors
///
/// [`Stop::NoForm`] where it would be deeper than `room`; [`Stop::NoMemory`] where memory was
/// refused.
#[inline(never)]
pub fn dict<'t>(alloc: Global, found: Pairs<'t>, room: usize) -> Result<Part<'t>, Stop>
    ensures { Makes part_seen (spec.dict_part room (pairs_seen found.entry)) result }
{
    let Pairs { entries, depth } = found;
    over(alloc, Expr::DictOf(entries), depth, false, room)
}

/// A list comprehension.
///
/// # Errors
///
/// [`Stop::NoForm`] where it would be deeper than `room`; [`Stop::NoMemory`] where memory was
/// refused.
#[inline(never)]
pub fn list_each<'t>(
    alloc: Global,
    element: Part<'t>,
    conditions: Conditions<'t>,
    room: usize,
) -> Result<Part<'t>, Stop>
    ensures { Makes part_seen (spec.list_each_part room (part_seen element.entry)
        (conditions_seen conditions.entry)) result }
{
    let Part { expr, depth: a, .. } = element;
    let Conditions { clauses, depth: b } = conditions;
    over(alloc, Expr::ListEach(expr, clauses), a.max(b), false, room)
}

/// A dict comprehension.
///
/// # Errors
///
/// [`Stop::NoForm`] where it would be deeper than `room`; [`Stop::NoMemory`] where memory was
/// refused.
#[inline(never)]
pub fn dict_each<'t>(
    alloc: Global,
    entry: (Part<'t>, Part<'t>),
    conditions: Conditions<'t>,
    room: usize,
) -> Result<Part<'t>, Stop>
    ensures { Makes part_seen (spec.dict_each_part room (pair_seen entry.entry)
        (conditions_seen conditions.entry)) result }
{
    let (key, value) = entry;
    let Part {
        expr: first,
        depth: a,
        ..
    } = key;
    let Part {
        expr: second,
        depth: b,
        ..
    } = value;
    let Conditions { clauses, depth: c } = conditions;
    let expr = Expr::DictEach(first, second, clauses);
    over(alloc, expr, a.max(b).max(c), false, room)
}

/// What stands alone in brackets: it is no target.
pub fn bracketed<'t>(part: Part<'t>) -> Part<'t>
    ensures { part_seen result ≡ spec.bracketed (part_seen part.entry) }
{
    Part {
        expr: part.expr,
        depth: part.depth,
        is_target: false,
    }
}

/// No expressions yet.
pub fn no_items<'t>(alloc: Global) -> Several<'t>
    ensures { several_seen result ≡ spec.no_items }
{
    Several {
        items: Vec::new(alloc),
        depth: 0,
    }
}

/// Adds an item. A list of at most `few` items takes no more memory than for these.
fn add_one<T: Drop>(items: &mut Vec<T>, item: T, few: usize) -> Result<(), AllocError>
    ensures { OnOk result (items.new.items ≡ items.old.items ++ item ∷ []) }
{
    if items.len() < few {
        items.reserve_exact(1)?;
    }
    items.push(item)?;
    Ok(())
}

/// One expression more.
///
/// # Errors
///
/// `AllocError` where memory was refused.
#[inline(never)]
pub fn with_item<'t>(several: Several<'t>, part: Part<'t>) -> Result<Several<'t>, AllocError>
    ensures { IfOk result (λ s. several_seen s
        ≡ spec.with_item (several_seen several.entry) (part_seen part.entry)) }
{
    let Several {
        mut items,
        depth: a,
    } = several;
    let Part { expr, depth: b, .. } = part;
    add_one(&mut items, Box::into_inner(expr), 2)?;
    Ok(Several {
        items,
        depth: a.max(b),
    })
}

/// No entries yet.
pub fn no_pairs<'t>(alloc: Global) -> Pairs<'t>
    ensures { pairs_seen result ≡ spec.no_pairs }
{
    Pairs {
        entries: Vec::new(alloc),
        depth: 0,
    }
}

/// One entry more.
///
/// # Errors
///
/// `AllocError` where memory was refused.
#[inline(never)]
pub fn with_pair<'t>(found: Pairs<'t>, pair: (Part<'t>, Part<'t>)) -> Result<Pairs<'t>, AllocError>
    ensures { IfOk result (λ s. pairs_seen s
        ≡ spec.with_pair (pairs_seen found.entry) (pair_seen pair.entry)) }
{
    let (key, value) = pair;
    let Part {
        expr: first,
        depth: a,
        ..
    } = key;
    let Part {
        expr: second,
        depth: b,
        ..
    } = value;
    let Pairs { mut entries, depth } = found;
    let entry = Entry {
        key: Box::into_inner(first),
        value: Box::into_inner(second),
    };
    add_one(&mut entries, entry, 1)?;
    Ok(Pairs {
        entries,
        depth: depth.max(a.max(b)),
    })
}

/// No arguments yet.
pub fn no_arguments<'t>(alloc: Global) -> Arguments<'t>
    ensures { arguments_seen result ≡ spec.no_arguments }
{
    Arguments {
        items: Vec::new(alloc),
        named: Vec::new(alloc),
        depth: 0,
        in_order: true,
    }
}

/// One positional argument more.
///
/// # Errors
///
/// `AllocError` where memory was refused.
#[inline(never)]
pub fn with_positional<'t>(
    arguments: Arguments<'t>,
    part: Part<'t>,
) -> Result<Arguments<'t>, AllocError>
    ensures { IfOk result (λ s. arguments_seen s
        ≡ spec.with_argument (arguments_seen arguments.entry)
        (spec.positional (part_seen part.entry))) }
{
    let Arguments {
        mut items,
        named,
        depth: a,
        in_order,
    } = arguments;
    let Part { expr, depth: b, .. } = part;
    add_one(&mut items, Box::into_inner(expr), 2)?;
    let in_order = in_order && named.is_empty();
    Ok(Arguments {
        items,
        named,
        depth: a.max(b),
        in_order,
    })
}

/// One argument with a name more.
///
/// # Errors
///
/// `AllocError` where memory was refused.
#[inline(never)]
pub fn with_keyword<'t>(
    arguments: Arguments<'t>,
    name: Name<'t>,
    part: Part<'t>,
) -> Result<Arguments<'t>, AllocError>
    ensures { IfOk result (λ s. arguments_seen s
        ≡ spec.with_argument (arguments_seen arguments.entry)
        (spec.keyword name.entry (part_seen part.entry))) }
{
    let Arguments {
        items,
        mut named,
        depth: a,
        in_order,
    } = arguments;
    let Part { expr, depth: b, .. } = part;
    let value = Box::into_inner(expr);
    add_one(&mut named, Keyword { name, value }, 1)?;
    Ok(Arguments {
        items,
        named,
        depth: a.max(b),
        in_order,
    })
}

/// No clauses yet.
pub fn no_conditions<'t>(alloc: Global) -> Conditions<'t>
    ensures { conditions_seen result ≡ spec.no_conditions }
{
    Conditions {
        clauses: Vec::new(alloc),
        depth: 0,
    }
}

/// A `for` clause more, with its first name and its others.
///
/// # Errors
///
/// `AllocError` where memory was refused.
#[inline(never)]
pub fn with_for<'t>(
    found: Conditions<'t>,
    first: Name<'t>,
    others: Vec<Name<'t>>,
    part: Part<'t>,
) -> Result<Conditions<'t>, AllocError>
    ensures { IfOk result (λ s. conditions_seen s
        ≡ spec.with_for (conditions_seen found.entry) first.entry others.entry.items
        (part_seen part.entry)) }
{
    let Conditions {
        mut clauses,
        depth: a,
    } = found;
    let Part { expr, depth: b, .. } = part;
    let clause = Clause::For(first, others, Box::into_inner(expr));
    add_one(&mut clauses, clause, 1)?;
    Ok(Conditions {
        clauses,
        depth: a.max(b),
    })
}

/// An `if` clause more.
///
/// # Errors
///
/// `AllocError` where memory was refused.
#[inline(never)]
pub fn with_if<'t>(found: Conditions<'t>, part: Part<'t>) -> Result<Conditions<'t>, AllocError>
    ensures { IfOk result (λ s. conditions_seen s
        ≡ spec.with_if (conditions_seen found.entry) (part_seen part.entry)) }
{
    let Conditions {
        mut clauses,
        depth: a,
    } = found;
    let Part { expr, depth: b, .. } = part;
    clauses.push(Clause::If(Box::into_inner(expr)))?;
    Ok(Conditions {
        clauses,
        depth: a.max(b),
    })
}
