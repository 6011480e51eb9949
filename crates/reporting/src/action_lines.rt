//! The lines of actions.
ghost use Rattle.std.specs.Prelude.{◌≡◌, ◌++◌, string_bytes, OnOk};
ghost use Rattle.depsets.specs.Listed.{walked};
ghost use Rattle.claims.specs.Same.{input_paths};
ghost use Rattle.reporting.specs.Lines.{action_line, action_text, content_text};
ghost use Rattle.reporting.specs.Lines.{given_words, line, outputs_text, owners_text, strings_text};
ghost use Rattle.reporting.specs.Seen.{action_lines, telling_at};

use crate::conflict_lines::put_spaced;
use crate::strings_in::{put_element_list, put_file_list, put_text_list};
use actions::{Action, Inputs, Words};
use claims::Telling;
use leaf_texts::put_quoted;
use plain::Text;
use std::alloc::{AllocError, Global};

/// Appends the mnemonic of an action and its outputs.
fn put_outputs(out: &mut String, action: &Action) -> Result<(), AllocError>
    ensures { OnOk result (string_bytes out.new ≡ string_bytes out.old ++ outputs_text action.now) }
{
    out.push_str("  action ")?;
    out.push_str(action.mnemonic.as_str())?;
    out.push_str(" outputs ")?;
    put_file_list(out, action.outputs.as_slice())
}

/// Appends the list of an action's inputs, those of a depset by its listing.
fn put_inputs(alloc: Global, out: &mut String, inputs: &Inputs) -> Result<(), AllocError>
    ensures { OnOk result (string_bytes out.new
        ≡ string_bytes out.old ++ strings_text (input_paths walked inputs.now)) }
{
    match inputs {
        Inputs::Files(files) => put_file_list(out, files.as_slice()),
        Inputs::Depset(depset) => {
            let listing = depset.list_whole(alloc)?;
            put_element_list(out, &listing.items)
        }
    }
}

/// Appends what is written, if an action writes a text.
fn put_content(out: &mut String, content: &Option<Text>) -> Result<(), AllocError>
    ensures { OnOk result
        (string_bytes out.new ≡ string_bytes out.old ++ content_text content.now) }
{
    let Some(text) = content else {
        return Ok(());
    };
    out.push_str(" content ")?;
    put_quoted(out, text.as_str())
}

/// Appends the words of an action and its content.
fn put_words(out: &mut String, action: &Action) -> Result<(), AllocError>
    ensures { OnOk result (string_bytes out.new ≡ string_bytes out.old ++ given_words action.now) }
{
    out.push_str(" words ")?;
    put_text_list(out, action.words.as_slice())?;
    put_content(out, &action.content)
}

/// Appends the text of an action.
fn put_action(alloc: Global, out: &mut String, action: &Action) -> Result<(), AllocError>
    ensures { OnOk result (string_bytes out.new
        ≡ string_bytes out.old ++ action_text walked action.now) }
{
    put_outputs(out, action)?;
    out.push_str(" inputs ")?;
    put_inputs(alloc, out, &action.inputs)?;
    put_words(out, action)
}

/// Appends the line of an action that isn't shared.
fn put_alone(alloc: Global, out: &mut String, action: &Action) -> Result<(), AllocError>
    ensures { OnOk result (string_bytes out.new
        ≡ string_bytes out.old ++ line (action_text walked action.now)) }
{
    put_action(alloc, out, action)?;
    out.push_str("\n")
}

/// Appends the labels of an action's owners.
fn put_owners(out: &mut String, owners: &Words) -> Result<(), AllocError>
    ensures { OnOk result (string_bytes out.new ≡ string_bytes out.old ++ owners_text owners.now) }
{
    out.push_str(" owners")?;
    put_spaced(out, owners.as_slice())
}

/// Appends the line of an action that is told for all its owners.
fn put_shared(
    alloc: Global,
    out: &mut String,
    action: &Action,
    owners: &Words,
) -> Result<(), AllocError>
    ensures { OnOk result (string_bytes out.new ≡ string_bytes out.old
        ++ line (action_text walked action.now ++ owners_text owners.now)) }
{
    put_action(alloc, out, action)?;
    put_owners(out, owners)?;
    out.push_str("\n")
}

/// Appends the line of an action that is told so, if it has one.
fn put_told(
    alloc: Global,
    out: &mut String,
    action: &Action,
    telling: &Telling,
) -> Result<(), AllocError>
    ensures { OnOk result (string_bytes out.new
        ≡ string_bytes out.old ++ action_line walked telling.now action.now) }
{
    match telling {
        Telling::Alone => put_alone(alloc, out, action),
        Telling::Owners(owners) => put_shared(alloc, out, action, owners),
        Telling::Elsewhere => Ok(()),
    }
}

/// Appends the line of the action at a place, if it has one.
fn put_at_place(
    alloc: Global,
    out: &mut String,
    action: &Action,
    tellings: &[Telling],
    place: usize,
) -> Result<(), AllocError>
    ensures { OnOk result (string_bytes out.new
        ≡ string_bytes out.old ++ action_line walked (telling_at tellings.now place) action.now) }
{
    match tellings.get(place) {
        Some(telling) => put_told(alloc, out, action, telling),
        None => put_alone(alloc, out, action),
    }
}

/// Appends the lines of actions, in order, by how they are told.
pub(crate) fn put_actions(
    alloc: Global,
    out: &mut String,
    actions: &[Action],
    tellings: &[Telling],
) -> Result<(), AllocError>
    ensures { OnOk result (string_bytes out.new
        ≡ string_bytes out.old ++ action_lines walked tellings.now actions.now) }
{
    for (i, action) in actions.iter().enumerate() {
        put_at_place(alloc, out, action, tellings, i)?;
    }
    Ok(())
}
