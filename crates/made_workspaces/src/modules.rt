//! Workspaces of many modules that declare no target but one.

ghost use Rattle.std.specs.Prelude.{◌<◌};

use std::alloc::{AllocError, Global};

/// A target that reads no module, so that there is a label to ask for, as JSON spells it.
const ALONE: &str =
    "[\"top/r.bzl\", \"def _r(ctx):\\n    return None\\nr = rule(implementation = _r)\\n\"], [\"top/BUILD\", \"load(':r.bzl', 'r')\\nr(name = 'all')\\n\"]";

/// Modules in layers of so many. Each loads a name from up to `degree` modules of the layer before
/// it: the one in its own place there, and those behind that.
///
/// # Errors
///
/// `AllocError` where memory was refused.
pub fn layered_modules(
    alloc: Global,
    layers: usize,
    width: usize,
    degree: usize,
) -> Result<String, AllocError> {
    let mut text = format!(in alloc; "[{ALONE}")?;
    for layer in 0..layers {
        for place in 0..width {
            put_module(&mut text, layer, place, width, degree)?;
        }
    }
    text.push(']')?;
    Ok(text)
}

/// Puts a module of a layer.
fn put_module(
    text: &mut String,
    layer: usize,
    place: usize,
    width: usize,
    degree: usize,
) -> Result<(), AllocError>
    requires { 0 < width }
{
    let before = layer.saturating_sub(1);
    let degree = if layer == 0 { 0 } else { degree };
    write!(text, ", [\"l{layer}/m{place}.bzl\", \"")?;
    for turn in 0..degree {
        let other = place.wrapping_add(turn) % width;
        write!(text, "load('//l{before}:m{other}.bzl', y{turn} = 'x')\\n")?;
    }
    text.push_str("x = 1\\n\"]")
}

/// So many modules, each of which loads a name from the next. Where it `closes`, the last loads one
/// from the first, so that all are on one cycle.
///
/// # Errors
///
/// `AllocError` where memory was refused.
pub fn chained_modules(alloc: Global, count: usize, closes: bool) -> Result<String, AllocError> {
    let mut text = format!(in alloc; "[{ALONE}")?;
    for place in 0..count {
        write!(text, ", [\"m/m{place}.bzl\", \"")?;
        let next = place.wrapping_add(1);
        if next < count {
            write!(text, "load(':m{next}.bzl', y = 'x')\\n")?;
        } else if closes {
            text.push_str("load(':m0.bzl', y = 'x')\\n")?;
        }
        text.push_str("x = 1\\n\"]")?;
    }
    text.push(']')?;
    Ok(text)
}
