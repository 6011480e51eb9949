//! Workspaces of one module that makes many values.

use std::alloc::{AllocError, Global};

/// A module whose top level goes round a loop so many times. In the loop stands a statement of one
/// line, which may use the number of the turn `i`, a list `l`, a dict `d` of 64 keys, a string `s`,
/// a function `f` of one argument, a provider's instance `p` and a depset `e` of 64 elements. As
/// JSON spells it, the statement has no `"` and no backslash.
///
/// # Errors
///
/// `AllocError` where memory was refused.
pub fn looping_module(alloc: Global, turns: usize, statement: &str) -> Result<String, AllocError> {
    format!(in alloc;
        "[[\"top/r.bzl\", \"P = provider(fields = ['x'])\\ndef f(x):\\n    return x\\ndef _turns(l, d, s, p, e):\\n    for i in range({turns}):\\n        {statement}\\n_turns([1, 2, 3], {{k: k for k in range(64)}}, 'text', P(x = 1), depset(range(64)))\\ndef _r(ctx):\\n    return None\\nr = rule(implementation = _r)\\n\"], [\"top/BUILD\", \"load(':r.bzl', 'r')\\nr(name = 'all')\\n\"]]"
    )
}

/// A module with a list of so many tuples, which is frozen at its end.
///
/// # Errors
///
/// `AllocError` where memory was refused.
pub fn listing_module(alloc: Global, count: usize) -> Result<String, AllocError> {
    format!(in alloc;
        "[[\"top/r.bzl\", \"l = [(i, i) for i in range({count})]\\ndef _r(ctx):\\n    return None\\nr = rule(implementation = _r)\\n\"], [\"top/BUILD\", \"load(':r.bzl', 'r')\\nr(name = 'all')\\n\"]]"
    )
}
