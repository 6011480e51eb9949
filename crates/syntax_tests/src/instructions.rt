//! Files that are read and compiled: their instructions are those that the definitions of the code
//! give for them.
use code::{Code, Instruction, Lined, Source, compile};
use keys::TextKey;
use std::alloc::{AllocError, Global};
use syntax::{FileKind, Parsed, parse};
use values::Key;

/// The line of an instruction, what it is, and its numbers.
type Row = (usize, &'static str, usize, usize);

/// The number of an operand.
fn number(source: Source) -> usize {
    match source {
        Source::Slot(slot) => slot,
        Source::Number(number) => number as usize,
    }
}

/// How many bytes a string has.
fn text_len(constant: &TextKey) -> usize {
    match constant.key() {
        Key::Text(text) => text.len(),
        Key::Number(_) | Key::Truth(_) => 0,
    }
}

/// Names, values and operators.
fn value(instruction: &Instruction) -> Option<(&'static str, usize, usize)> {
    match instruction {
        Instruction::PushNumber(number) => Some(("number", *number as usize, 0)),
        Instruction::PushText(text) => Some(("text", text_len(text), 0)),
        Instruction::PushNone => Some(("none", 0, 0)),
        Instruction::PushBuiltin(_) => Some(("builtin", 0, 0)),
        Instruction::LoadSlot(slot) => Some(("load", *slot, 0)),
        Instruction::StoreSlot(slot) => Some(("store", *slot, 0)),
        Instruction::StoreGlobal(number) => Some(("global", *number, 0)),
        Instruction::StoreLoaded(number) => Some(("loaded", *number, 0)),
        Instruction::ClearSlots(own) => Some(("clear", own.first, own.end)),
        Instruction::Operate(_) => Some(("operate", 0, 0)),
        Instruction::OperateOnSlot(_, slot) => Some(("on slot", *slot, 0)),
        Instruction::OperateBoth(both) => Some(("both", number(both.left), number(both.right))),
        Instruction::Increase => Some(("increase", 0, 0)),
        _ => None,
    }
}

/// Jumps, walks, displays and calls.
fn step(instruction: &Instruction) -> Option<(&'static str, usize, usize)> {
    match instruction {
        Instruction::Skip(passed) => Some(("skip", *passed, 0)),
        Instruction::SkipUnless(passed) => Some(("skip unless", *passed, 0)),
        Instruction::KeepUnless(passed) => Some(("keep unless", *passed, 0)),
        Instruction::KeepIf(passed) => Some(("keep if", *passed, 0)),
        Instruction::MakeList(items) => Some(("list", *items, 0)),
        Instruction::Collect => Some(("collect", 0, 0)),
        Instruction::TakeCallee => Some(("callee", 0, 0)),
        Instruction::CalleeGlobal(number) => Some(("callee global", *number, 0)),
        Instruction::Find(name) => Some(("find", name.text().len(), 0)),
        Instruction::Call(items) => Some(("call", *items, 0)),
        Instruction::CallNamed(call) => Some(("call named", call.items, call.names.len())),
        Instruction::BeginWalk(passed) => Some(("walk", *passed, 0)),
        Instruction::NextTurn => Some(("turn", 0, 0)),
        Instruction::NextInto(slot) => Some(("next", *slot, 0)),
        Instruction::Unpack(items) => Some(("unpack", *items, 0)),
        Instruction::Again => Some(("again", 0, 0)),
        Instruction::AgainInto(slot) => Some(("again into", *slot, 0)),
        Instruction::StopWalk => Some(("stop", 0, 0)),
        Instruction::Import(import) => Some(("import", import.module.len(), import.name.len())),
        Instruction::Define(defined) => Some(("define", defined.function, defined.defaults)),
        Instruction::GiveBack => Some(("back", 0, 0)),
        Instruction::GiveBackSlot(slot) => Some(("back slot", *slot, 0)),
        Instruction::GiveBackNumber(number) => Some(("back number", *number as usize, 0)),
        _ => None,
    }
}

/// What an instruction is, where a row can say so.
fn told(instruction: &Instruction) -> Option<(&'static str, usize, usize)> {
    match value(instruction) {
        Some(told) => Some(told),
        None => step(instruction),
    }
}

/// Whether an instruction is what a row says.
fn is_row(lined: &Lined, row: &Row) -> bool {
    let (line, name, first, second) = *row;
    lined.line == line && told(&lined.instruction) == Some((name, first, second))
}

/// Whether the first of the instructions are the rows.
fn are_rows(lines: &[Lined], rows: &[Row]) -> bool {
    for (lined, row) in lines.iter().zip(rows) {
        if !is_row(lined, row) {
            return false;
        }
    }
    true
}

/// Whether the rows are the instructions of a function, but for the two at its end.
fn has_rows(code: &Code, function: usize, rows: &[Row]) -> bool {
    match code.instructions(function) {
        Some(lines) => { lines.len() == rows.len().saturating_add(2) && are_rows(lines, rows) }
        None => false,
    }
}

/// The same of a file that was read.
fn compiles_to(alloc: Global, parsed: &Parsed, function: usize, rows: &[Row]) -> bool {
    match compile(alloc, parsed) {
        Ok(code) => has_rows(&code, function, rows),
        Err(_) => false,
    }
}

/// The same of a text.
fn is_code(alloc: Global, text: &str, function: usize, rows: &[Row]) -> bool {
    match parse(alloc, text, FileKind::Module) {
        Ok(parsed) => compiles_to(alloc, &parsed, function, rows),
        Err(_) => false,
    }
}

#[test]
fn assignments_and_loads_are_compiled(rt: HostRuntime) {
    let alloc = rt.alloc();
    assert!(rt;
        is_code(
            alloc,
            "x = 1\n",
            0,
            &[(1, "number", 1, 0), (1, "global", 0, 0)]
        )
    );
    let rows = [
        (1, "import", 6, 1),
        (1, "loaded", 0, 0),
        (1, "import", 6, 2),
        (1, "loaded", 1, 0),
    ];
    assert!(rt; is_code(alloc, "load(\":a.bzl\", \"p\", q = \"rs\")\n", 0, &rows));
}

#[test]
fn and_and_or_keep_their_operands(rt: HostRuntime) {
    let alloc = rt.alloc();
    let rows = [
        (2, "load", 0, 0),
        (2, "keep unless", 1, 0),
        (2, "number", 7, 0),
        (2, "back", 0, 0),
    ];
    assert!(rt; is_code(alloc, "def f(x):\n    return x and 7\n", 1, &rows));
    let rows = [
        (2, "load", 0, 0),
        (2, "keep if", 1, 0),
        (2, "both", 0, 7),
        (2, "back", 0, 0),
    ];
    assert!(rt; is_code(alloc, "def f(x):\n    return x or x + 7\n", 1, &rows));
}

#[test]
fn operators_take_slots_and_numbers(rt: HostRuntime) {
    let alloc = rt.alloc();
    let rows = [
        (2, "both", 0, 7),
        (2, "on slot", 0, 0),
        (2, "list", 0, 0),
        (2, "operate", 0, 0),
        (2, "back", 0, 0),
    ];
    assert!(rt; is_code(alloc, "def f(x):\n    return x + 7 - x == []\n", 1, &rows));
}

#[test]
fn conditions_jump_over_what_is_not_done(rt: HostRuntime) {
    let alloc = rt.alloc();
    let text = "def f(x):\n    if x:\n        return 1\n    else:\n        return 2\n";
    let rows = [
        (2, "load", 0, 0),
        (2, "skip unless", 2, 0),
        (3, "back number", 1, 0),
        (2, "skip", 1, 0),
        (5, "back number", 2, 0),
    ];
    assert!(rt; is_code(alloc, text, 1, &rows));
    let text = "def f(x):\n    if x:\n        return 1\n    else:\n        pass\n";
    let rows = [
        (2, "load", 0, 0),
        (2, "skip unless", 1, 0),
        (3, "back number", 1, 0),
    ];
    assert!(rt; is_code(alloc, text, 1, &rows));
}

#[test]
fn loops_walk_over_their_operand(rt: HostRuntime) {
    let alloc = rt.alloc();
    let text = "def f(l, n = 3):\n    for x in l:\n        n += x\n        break\n";
    let rows = [
        (2, "load", 0, 0),
        (2, "walk", 7, 0),
        (2, "next", 2, 0),
        (3, "load", 1, 0),
        (3, "load", 2, 0),
        (3, "increase", 0, 0),
        (3, "store", 1, 0),
        (4, "stop", 0, 0),
        (2, "again into", 2, 0),
    ];
    assert!(rt; is_code(alloc, text, 1, &rows));
    let rows = [
        (1, "number", 3, 0),
        (1, "define", 1, 1),
        (1, "global", 0, 0),
    ];
    assert!(rt; is_code(alloc, text, 0, &rows));
}

#[test]
fn loops_over_several_names_and_continue_go_back_alone(rt: HostRuntime) {
    let alloc = rt.alloc();
    let text = "def f(l):\n    for x, y in l:\n        continue\n";
    let rows = [
        (2, "load", 0, 0),
        (2, "walk", 6, 0),
        (2, "turn", 0, 0),
        (2, "unpack", 2, 0),
        (2, "store", 1, 0),
        (2, "store", 2, 0),
        (3, "again", 0, 0),
        (2, "again", 0, 0),
    ];
    assert!(rt; is_code(alloc, text, 1, &rows));
}

#[test]
fn comprehensions_empty_their_slots_behind_the_first_operand(rt: HostRuntime) {
    let alloc = rt.alloc();
    let rows = [
        (1, "list", 0, 0),
        (1, "number", 5, 0),
        (1, "list", 1, 0),
        (1, "clear", 0, 2),
        (1, "walk", 10, 0),
        (1, "next", 0, 0),
        (1, "load", 0, 0),
        (1, "skip unless", 6, 0),
        (1, "load", 0, 0),
        (1, "walk", 4, 0),
        (1, "next", 1, 0),
        (1, "load", 1, 0),
        (1, "collect", 0, 0),
        (1, "again", 0, 0),
        (1, "again", 0, 0),
        (1, "global", 0, 0),
    ];
    assert!(rt; is_code(alloc, "x = [z for y in [5] if y for z in y]\n", 0, &rows));
}

#[test]
fn calls_find_their_callee_first(rt: HostRuntime) {
    let alloc = rt.alloc();
    let rows = [
        (1, "builtin", 0, 0),
        (1, "callee", 0, 0),
        (1, "number", 1, 0),
        (1, "text", 2, 0),
        (1, "call named", 1, 1),
        (1, "global", 0, 0),
    ];
    assert!(rt; is_code(alloc, "x = len(1, k = \"no\")\n", 0, &rows));
    let rows = [
        (1, "number", 1, 0),
        (1, "list", 1, 0),
        (1, "find", 6, 0),
        (1, "number", 2, 0),
        (1, "call", 1, 0),
        (1, "global", 0, 0),
    ];
    assert!(rt; is_code(alloc, "x = [1].append(2)\n", 0, &rows));
}

#[test]
fn calls_of_global_names_and_returns_of_slots_need_one_instruction(rt: HostRuntime) {
    let alloc = rt.alloc();
    let text = "def f(x):\n    return x\n\ny = f(7)\n";
    let rows = [
        (1, "define", 1, 0),
        (1, "global", 0, 0),
        (4, "callee global", 0, 0),
        (4, "number", 7, 0),
        (4, "call", 1, 0),
        (4, "global", 1, 0),
    ];
    assert!(rt; is_code(alloc, text, 0, &rows));
    assert!(rt; is_code(alloc, text, 1, &[(2, "back slot", 0, 0)]));
}

/// A number with so many signs before it.
fn signed(alloc: Global, signs: usize) -> Result<String, AllocError> {
    let signs = "-".repeat(alloc, signs)?;
    format!(in alloc; "x = {signs}1\n")
}

/// How many instructions the top level of a text has; 0 where it isn't compiled.
fn count_of(alloc: Global, parsed: &Parsed) -> usize {
    match compile(alloc, parsed) {
        Ok(code) => match code.instructions(0) {
            Some(lines) => lines.len(),
            None => 0,
        },
        Err(_) => 0,
    }
}

/// The same of a number with so many signs before it.
fn count_of_signed(alloc: Global, signs: usize) -> usize {
    let Ok(text) = signed(alloc, signs) else {
        return 0;
    };
    match parse(alloc, text.as_str(), FileKind::Module) {
        Ok(parsed) => count_of(alloc, &parsed),
        Err(_) => 0,
    }
}

#[test]
fn deep_expressions_are_compiled(rt: HostRuntime) {
    assert!(rt; count_of_signed(rt.alloc(), 199) == 203);
}
