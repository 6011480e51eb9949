//! One use of each call with ample memory, and that texts cross threads.
use plain::{Stack, Text};
use std::alloc::{AllocError, Global};
use std::cmp::Ordering;
use std::collections::HashSet;

fn crosses_threads<T: Send + Sync>(_value: &T) {}

/// Whether a text tells its bytes, and how many they are.
fn is_of(text: &Text, bytes: &str) -> bool {
    crosses_threads(text);
    text.as_str() == bytes && text.len() == bytes.len() && text.is_empty() == bytes.is_empty()
}

/// Whether one more text is made, is equal to a text and tells its bytes.
fn is_same(more: Result<Text, AllocError>, text: &Text) -> bool {
    match more {
        Ok(more) => more == *text && is_of(&more, text.as_str()),
        Err(_) => false,
    }
}

/// The text of a `String` of these bytes, which is built of two.
fn built(alloc: Global, bytes: &str) -> Result<Text, AllocError> {
    let (first, second) = bytes.split_at_checked(1).unwrap_or(("", bytes));
    Text::from_string(format!(in alloc; "{first}{second}")?)
}

/// Whether a text of these bytes is kept as they are, however it is made and named.
fn is_kept(alloc: Global, bytes: &str) -> bool {
    match Text::new(alloc, bytes) {
        Ok(text) => {
            is_of(&text, bytes)
                && is_same(text.share(), &text)
                && is_same(built(alloc, bytes), &text)
        }
        Err(_) => false,
    }
}

/// Texts, a line each. Short ones lie beside their count, and longer ones don't.
const TEXTS: &str = "
x
a/x.txt
0123456789abcdef0123456789abcde
0123456789abcdef0123456789abcdef
0123456789abcdef0123456789abcdefé";

#[test]
fn texts_of_any_length_are_kept(rt: HostRuntime) {
    for bytes in TEXTS.lines() {
        assert!(rt; is_kept(rt.alloc(), bytes), "{bytes}");
    }
}

/// How texts of these bytes stand in order.
fn order_of(alloc: Global, a: &str, b: &str) -> Result<Ordering, AllocError> {
    let a = Text::new(alloc, a)?;
    let b = Text::new(alloc, b)?;
    Ok(a.cmp(&b))
}

/// Whether texts stand in the order of their bytes.
fn are_ordered(alloc: Global) -> bool {
    matches!(order_of(alloc, "a", "b"), Ok(Ordering::Less))
        && matches!(order_of(alloc, "B", "a"), Ok(Ordering::Less))
        && matches!(order_of(alloc, "a/b", "a"), Ok(Ordering::Greater))
        && matches!(order_of(alloc, "", ""), Ok(Ordering::Equal))
}

/// Whether a set that has one text has the other.
fn has_too(alloc: Global, one: &str, other: &str) -> Result<bool, AllocError> {
    let mut seen = HashSet::new(alloc);
    seen.insert(Text::new(alloc, one)?)?;
    Ok(seen.contains(&Text::new(alloc, other)?))
}

/// Whether equal texts are one in a set, and others are not.
fn are_one(alloc: Global) -> bool {
    matches!(has_too(alloc, "x", "x"), Ok(true)) && matches!(has_too(alloc, "x", "y"), Ok(false))
}

#[test]
fn texts_are_compared_by_bytes(rt: HostRuntime) {
    assert!(rt; are_ordered(rt.alloc()) && are_one(rt.alloc()));
}

/// What a stack of 1 and 2 gives back, one after the other, and what is at its top before and
/// after.
fn given_back(alloc: Global) -> Result<[Option<usize>; 4], AllocError> {
    let mut stack = Stack::new(alloc);
    stack.push(1_usize)?;
    stack.push(2)?;
    let top = stack.top();
    let first = stack.pop();
    let second = stack.pop();
    Ok([top, first, second, stack.pop()])
}

#[test]
fn stacks_give_back_from_the_top(rt: HostRuntime) {
    let is_so = match given_back(rt.alloc()) {
        Ok(given) => given == [Some(2), Some(2), Some(1), None],
        Err(_) => false,
    };
    assert!(rt; is_so);
}
