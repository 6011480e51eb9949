//! What turns of loops do to values, without a machine.
//!
//! Each row does as often what a turn of the loop of that name in `serve_check` does to values:
//! operations on a state, with one tick a turn. Membership is a look into the dict, a field is
//! looked for by its name, and a call is one of a plain function. There is no code, no frame and no
//! stack, so what a turn takes longer there is the machine's own share.

use crate::providers::provider;
use crate::rows::{begin, report};
use heap::Heap;
use numbers::Comparison;
use operands::{Bindings, Operand};
use plain::Text;
use state::{
    Arithmetic, Defaults, State, append, calculate, compare, equals, item, key_of, new_dict,
    new_list, new_tuple, plus, set_item, tick,
};
use std::alloc::{AllocError, Global};
use std::io;
use std::rt::Clock;
use values::{Broken, Fields, Items, Key, Kind, Leaf, Seen, Ticks, Value};

/// How often each is done.
const TURNS: i64 = 1_000_000;

/// How many keys the dict has.
const KEYS: i64 = 64;

/// The field of the instance.
const FIELD: &str = "x";

/// What a turn does.
#[derive(Clone, Copy)]
enum Turn {
    /// `pass`
    Nothing,
    /// `i * 3 + 1`
    Arithmetic,
    /// `i < 5 or i == 7`
    Comparison,
    /// `l[i % 3] = i`
    List,
    /// `d[i % 64] = i`
    Dict,
    /// `i in d`
    Membership,
    /// `p.x`
    Field,
    /// `l[i % 3]`
    Index,
    /// `l.append(i)`
    Append,
    /// `(i, i)`
    Tuple,
    /// A call of a function that gives `i + 1`.
    Call,
}

impl Turn {
    const ALL: [Turn; 11] = [
        Turn::Nothing,
        Turn::Arithmetic,
        Turn::Comparison,
        Turn::List,
        Turn::Dict,
        Turn::Membership,
        Turn::Field,
        Turn::Index,
        Turn::Append,
        Turn::Tuple,
        Turn::Call,
    ];

    fn name(self) -> &'static str {
        match self {
            Turn::Nothing => "turns of nothing",
            Turn::Arithmetic => "turns of arithmetic",
            Turn::Comparison => "turns of comparison",
            Turn::List => "turns of list",
            Turn::Dict => "turns of dict",
            Turn::Membership => "turns of membership",
            Turn::Field => "turns of field",
            Turn::Index => "turns of index",
            Turn::Append => "turns of append",
            Turn::Tuple => "turns of tuple",
            Turn::Call => "turns of call",
        }
    }
}

fn number(number: i64) -> Value {
    Value::Key(Key::Number(number))
}

fn truth(truth: bool) -> Value {
    Value::Key(Key::Truth(truth))
}

fn none() -> Value {
    Value::Leaf(Leaf::None)
}

/// A state without cells.
fn empty<'a>(alloc: Global) -> Result<State<'a>, AllocError> {
    let owner = Text::new(alloc, "a/f.bzl")?;
    let globals = Fields::with_capacity(alloc, 0)?;
    let loaded = Bindings::unbound(alloc, 0)?;
    Ok(State {
        heap: Heap::new(alloc),
        ticks: Ticks::new(u64::MAX),
        owner,
        depsets: 0,
        file: 0,
        globals,
        loaded,
        defaults: Defaults::new(alloc),
    })
}

/// The list `[1, 2, 3]`.
fn small_list(alloc: Global, state: &mut State) -> Result<Value, Broken> {
    let mut items = Items::new(alloc);
    for n in 1..4 {
        items.push(Operand::own(number(n)))?;
    }
    new_list(state, items)
}

/// Gives a dict the entry `n: n`.
fn put(state: &mut State, dict: &Value, n: i64) -> Result<(), Broken> {
    set_item(
        state,
        dict,
        &Operand::own(number(n)),
        Operand::own(number(n)),
    )
}

/// The dict `{k: k for k in range(64)}`.
fn small_dict(alloc: Global, state: &mut State) -> Result<Value, Broken> {
    let dict = new_dict(alloc, state)?;
    for n in 0..KEYS {
        put(state, &dict, n)?;
    }
    Ok(dict)
}

/// The instance `P(x = 1)`.
fn small_instance(alloc: Global, state: &mut State) -> Result<Value, Broken> {
    let mut fields = Fields::with_capacity(alloc, 1)?;
    fields.push(Some(Operand::own(number(1))))?;
    let provider = provider(alloc, &[FIELD])?;
    state.heap.new_instance(provider, fields)
}

/// The value to which turns do something, in a state.
fn made(alloc: Global, state: &mut State, what: Turn) -> Result<Value, Broken> {
    match what {
        Turn::List | Turn::Index | Turn::Append => small_list(alloc, state),
        Turn::Dict | Turn::Membership => small_dict(alloc, state),
        Turn::Field => small_instance(alloc, state),
        Turn::Nothing | Turn::Arithmetic | Turn::Comparison | Turn::Tuple | Turn::Call => {
            Ok(none())
        }
    }
}

fn modulo(state: &State, a: &Value, b: i64) -> Result<Value, Broken> {
    let b = number(b);
    let rest = calculate(state, Arithmetic::Modulo, a.item(), b.item())?;
    Ok(rest)
}

fn product_and_sum(alloc: Global, state: &mut State, i: &Value) -> Result<Value, Broken> {
    let (three, one) = (number(3), number(1));
    let product = calculate(state, Arithmetic::Times, i.item(), three.item())?;
    plus(alloc, state, &Operand::own(product), &Operand::own(one))
}

fn below_or_equal(state: &mut State, i: &Value) -> Result<Value, Broken> {
    let (five, seven) = (number(5), number(7));
    if compare(state, Comparison::Below, i.item(), five.item())? {
        return Ok(truth(true));
    }
    let same = equals(state, i.item(), seven.item())?;
    Ok(truth(same))
}

/// Sets an item of a list or of a dict.
fn set(state: &mut State, base: &Value, i: Value, modulus: i64) -> Result<Value, Broken> {
    let index = modulo(state, &i, modulus)?;
    set_item(state, base, &Operand::own(index), Operand::own(i))?;
    Ok(none())
}

fn is_in(state: &State, i: &Value, dict: &Value) -> Result<Value, Broken> {
    let Seen::Dict(entries) = state.heap.see_item(dict.item()) else {
        return Err(Broken::Kind(Kind::Wrong));
    };
    let key = state.heap.see_item(i.item());
    match key_of(&key) {
        Some(key) => Ok(truth(entries.get(key).is_some())),
        None => Err(Broken::Kind(Kind::Wrong)),
    }
}

fn field(state: &State, instance: &Value, name: &str) -> Result<Value, Broken> {
    let Seen::Instance(provider, slots) = state.heap.see_item(instance.item()) else {
        return Err(Broken::Kind(Kind::Name));
    };
    let fields = provider.fields.as_slice();
    let Some(place) = fields.iter().position(|field| field.as_str() == name) else {
        return Err(Broken::Kind(Kind::Name));
    };
    if place >= slots.len() {
        return Err(Broken::Kind(Kind::Name));
    }
    match slots.slot(place) {
        Some(value) => Ok(value.to_value()?),
        None => Err(Broken::Kind(Kind::Name)),
    }
}

fn indexed(alloc: Global, state: &State, list: &Value, i: &Value) -> Result<Value, Broken> {
    let index = modulo(state, i, 3)?;
    let base = Operand::own(list.share()?);
    let found = item(alloc, state, &base, index.item())?;
    Ok(found.into_value()?)
}

fn pair(alloc: Global, state: &mut State, i: Value) -> Result<Value, Broken> {
    let mut items = Items::with_capacity(alloc, 2)?;
    items.push(Operand::own(i.share()?))?;
    items.push(Operand::own(i))?;
    new_tuple(state, items)
}

#[inline(never)]
fn successor(alloc: Global, state: &mut State, i: &Value) -> Result<Value, Broken> {
    let one = number(1);
    plus(alloc, state, &Operand::own(i.share()?), &Operand::own(one))
}

/// Does what a turn does to a value, and gives what it makes. It isn't inlined, so that nothing is
/// worked out before the loop.
#[inline(never)]
fn take_turn(
    alloc: Global,
    state: &mut State,
    base: &Value,
    what: Turn,
    i: i64,
) -> Result<Value, Broken> {
    let i = number(i);
    match what {
        Turn::Nothing => Ok(none()),
        Turn::Arithmetic => product_and_sum(alloc, state, &i),
        Turn::Comparison => below_or_equal(state, &i),
        Turn::List => set(state, base, i, 3),
        Turn::Dict => set(state, base, i, KEYS),
        Turn::Membership => is_in(state, &i, base),
        Turn::Field => field(state, base, FIELD),
        Turn::Index => indexed(alloc, state, base, &i),
        Turn::Append => append(state, base, Operand::own(i)),
        Turn::Tuple => pair(alloc, state, i),
        Turn::Call => successor(alloc, state, &i),
    }
}

/// Does it again and again, and gives how often.
fn repeat(alloc: Global, state: &mut State, base: &Value, what: Turn) -> u64 {
    let mut done = 0u64;
    for i in 0..TURNS {
        if tick(state).is_err() || take_turn(alloc, state, base, what, i).is_err() {
            return done;
        }
        done = done.saturating_add(1);
    }
    done
}

/// Turns in a state, timed.
fn time_repeats<R: Print + Clock>(
    rt: &R,
    alloc: Global,
    state: &mut State,
    base: &Value,
    (what, timed): (Turn, bool),
) -> io::Result<()> {
    let start = begin(rt, timed);
    let done = repeat(alloc, state, base, what);
    report(rt, what.name(), done, start)
}

/// Turns of one kind, in a state of their own.
fn time_turns<R: Print + Clock>(rt: &R, alloc: Global, what: Turn, timed: bool) -> io::Result<()> {
    let mut state = empty(alloc)?;
    match made(alloc, &mut state, what) {
        Ok(base) => time_repeats(rt, alloc, &mut state, &base, (what, timed)),
        Err(_) => println!(rt; "no values"),
    }
}

/// All turns, each in a state of its own.
pub fn turns<R: Print + Clock>(rt: &R, alloc: Global, timed: bool) -> io::Result<()> {
    for what in Turn::ALL {
        time_turns(rt, alloc, what, timed)?;
    }
    Ok(())
}
