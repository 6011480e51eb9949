//! Large workspaces of one rule.

use std::alloc::{AllocError, Global};

/// A rule whose targets write one file each, as JSON spells it.
const WRITING: &str =
    "def _w(ctx):\\n    o = ctx.actions.declare_file(ctx.label.name + '.txt')\\n    ctx.actions.write(o, ctx.attr.text)\\n    return [DefaultInfo(files = depset([o]))]\\nw = rule(implementation = _w, attrs = {'text': attr.string(), 'deps': attr.label_list()})\\n";

/// A rule whose targets compile the files of all targets below them, as JSON spells it.
const COMPILING: &str =
    "Info = provider(fields = ['files'])\\ndef _w(ctx):\\n    o = ctx.actions.declare_file(ctx.label.name + '.o')\\n    below = depset(transitive = [d[Info].files for d in ctx.attr.deps])\\n    ctx.actions.run(outputs = [o], executable = 'cc', inputs = below, arguments = ['-o', o.path], mnemonic = 'Compile')\\n    return [DefaultInfo(files = depset([o])), Info(files = depset([o], transitive = [below]))]\\nw = rule(implementation = _w, attrs = {'deps': attr.label_list(providers = [Info])})\\n";

/// So many targets that depend on nothing, and one that depends on all of them.
///
/// # Errors
///
/// `AllocError` where memory was refused.
pub fn plain_targets(alloc: Global, count: usize) -> Result<String, AllocError> {
    format!(in alloc;
        "[[\"top/w.bzl\", \"{WRITING}\"], [\"top/BUILD\", \"load(':w.bzl', 'w')\\n[w(name = 't' + str(i)) for i in range({count})]\\nw(name = 'all', deps = ['t' + str(i) for i in range({count})])\\n\"]]"
    )
}

/// Puts the targets of a layer, each of which depends on some of the layer before it.
fn put_layer(
    text: &mut String,
    layer: usize,
    width: usize,
    degree: usize,
) -> Result<(), AllocError> {
    let before = layer.saturating_sub(1);
    let degree = if layer == 0 { 0 } else { degree };
    write!(text, ", [\"l{layer}/BUILD\", \"load('//top:w.bzl', 'w')\\n")?;
    for place in 0..width {
        write!(text, "w(name = 't{place}', deps = [")?;
        let first = place - place % degree.max(1);
        for other in first..first.wrapping_add(degree).min(width) {
            write!(text, "'//l{before}:t{other}', ")?;
        }
        text.push_str("])\\n")?;
    }
    text.push_str("\"]")
}

/// Targets in layers of so many, in groups of `degree`. Each depends on the targets of its own
/// group in the layer before it, so that it reaches these groups alone; with a degree of 0 on none.
/// A last target depends on the whole last layer.
///
/// # Errors
///
/// `AllocError` where memory was refused.
pub fn layered_targets(
    alloc: Global,
    layers: usize,
    width: usize,
    degree: usize,
) -> Result<String, AllocError> {
    let mut text = format!(in alloc; "[[\"top/w.bzl\", \"{COMPILING}\"]")?;
    for layer in 0..layers {
        put_layer(&mut text, layer, width, degree)?;
    }
    let last = layers.saturating_sub(1);
    write!(
        text,
        ", [\"top/BUILD\", \"load(':w.bzl', 'w')\\nw(name = 'all', deps = ['//l{last}:t' + str(i) for i in range({width})])\\n\"]]"
    )?;
    Ok(text)
}
