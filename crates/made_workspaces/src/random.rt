//! Small workspaces that look random: those of one seed are always the same.

ghost use Rattle.std.specs.Prelude.{◌<◌};

use rand_core::Rng;
use rand_pcg::Pcg32;
use std::alloc::{AllocError, Global};

/// How many packages a workspace has, besides that of the label that reaches all.
const PACKAGES: u32 = 4;

/// How many targets a package declares at most.
const TARGETS: u32 = 6;

/// Two rules, as JSON spells them. The first hands on the files of what it depends on, in an order,
/// and runs an action for each of its outputs; the second offers nothing that the first asks for.
const RULES: &str =
    "Info = provider(fields = ['files', 'name'])\\ndef _r(ctx):\\n    if ctx.attr.fails:\\n        fail(ctx.label.name)\\n    outs = [ctx.actions.declare_file(n) for n in ctx.attr.outs]\\n    below = depset(ctx.files.srcs, order = ctx.attr.order, transitive = [d[Info].files for d in ctx.attr.deps])\\n    for o in outs:\\n        ctx.actions.run(outputs = [o], executable = 'make', inputs = below, arguments = [d[Info].name for d in ctx.attr.deps])\\n    return [Info(files = depset(outs, order = ctx.attr.order, transitive = [below, below]), name = ctx.label.name)]\\nr = rule(implementation = _r, attrs = {'fails': attr.bool(), 'outs': attr.string_list(), 'order': attr.string(default = 'default'), 'deps': attr.label_list(providers = [Info]), 'srcs': attr.label_list(allow_files = ['.txt'])})\\ndef _p(ctx):\\n    return None\\np = rule(implementation = _p, attrs = {'deps': attr.label_list()})\\n";

/// The orders of depsets. Two of them may not meet.
const ORDERS: [&str; 4] = ["default", "default", "postorder", "preorder"];

/// A number below another.
fn below(dice: &mut Pcg32, bound: u32) -> u32
    requires { 0 < bound }
    ensures { result < bound }
{
    dice.next_u32() % bound
}

/// Whether what happens once in so many times does.
fn one_in(dice: &mut Pcg32, times: u32) -> bool
    requires { 0 < times }
{
    below(dice, times) == 0
}

/// Puts labels of targets, of which some may be missing and some may lead back.
fn put_labels(text: &mut String, dice: &mut Pcg32) -> Result<(), AllocError> {
    let first = below(dice, PACKAGES);
    for turn in 0..below(dice, 4) {
        let package = first.wrapping_add(turn) % PACKAGES;
        let target = below(dice, TARGETS);
        write!(text, "'//p{package}:t{target}', ")?;
    }
    Ok(())
}

/// Puts a target.
fn put_target(text: &mut String, dice: &mut Pcg32, number: u32) -> Result<(), AllocError> {
    if one_in(dice, 12) {
        return write!(text, "p(name = 't{number}')\\n");
    }
    let order = ORDERS[below(dice, 4) as usize];
    let fails = if one_in(dice, 16) { "True" } else { "False" };
    let out = below(dice, 8);
    write!(
        text,
        "r(name = 't{number}', order = '{order}', fails = {fails}, outs = ['t{number}', 'o{out}'], srcs = ['s.txt'], deps = ["
    )?;
    put_labels(text, dice)?;
    text.push_str("])\\n")
}

/// Puts the files of a package.
fn put_package(text: &mut String, dice: &mut Pcg32, number: u32) -> Result<(), AllocError> {
    write!(
        text,
        "[\"p{number}/s.txt\", \"\"], [\"p{number}/BUILD\", \"load('//top:r.bzl', 'r', 'p')\\n"
    )?;
    for target in 0..below(dice, TARGETS) {
        put_target(text, dice, target)?;
    }
    if one_in(dice, 24) {
        text.push_str("x = 1 // 0\\n")?;
    }
    text.push_str("\"], ")
}

/// A workspace of a few packages. Among its targets are such as fail, such as depend on missing
/// ones, on themselves or on what doesn't offer what they ask for, and such as declare one output.
///
/// # Errors
///
/// `AllocError` where memory was refused.
pub fn random_workspace(alloc: Global, seed: u64) -> Result<String, AllocError> {
    let mut dice = Pcg32::new(seed, 1);
    let mut text = String::new(alloc);
    text.push('[')?;
    for number in 0..PACKAGES {
        put_package(&mut text, &mut dice, number)?;
    }
    write!(
        text,
        "[\"top/r.bzl\", \"{RULES}\"], [\"top/BUILD\", \"load(':r.bzl', 'p')\\np(name = 'all', deps = ['//p' + str(i) + ':t' + str(j) for i in range({PACKAGES}) for j in range({TARGETS})])\\n\"]]"
    )?;
    Ok(text)
}
