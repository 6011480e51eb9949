//! Lists of strings.
ghost use Rattle.std.specs.Prelude.{◌≡◌, ◌++◌, map, string_bytes, OnOk};
ghost use Rattle.std.specs.List.{flat_map};
ghost use Rattle.leaf_texts.specs.Texts.{joined, quoted, separator};
ghost use Rattle.claims.specs.Same.{element_paths, path_of};
ghost use Rattle.reporting.specs.Lines.{strings_text};

use depsets::{Element, Elements, FileRef};
use leaf_texts::{put_quoted, put_separator};
use plain::{Shared, Text};
use std::alloc::AllocError;

/// Appends the string at a place of a list.
fn put_string_at(out: &mut String, place: usize, text: &str) -> Result<(), AllocError>
    ensures { OnOk result (string_bytes out.new
        ≡ string_bytes out.old ++ (separator place ++ quoted text.now)) }
{
    put_separator(out, place)?;
    put_quoted(out, text)
}

/// Appends texts as strings, with commas between them.
fn put_texts(out: &mut String, texts: &[Text]) -> Result<(), AllocError>
    ensures { OnOk result (string_bytes out.new
        ≡ string_bytes out.old ++ joined (map quoted texts.now)) }
{
    for (i, text) in texts.iter().enumerate() {
        put_string_at(out, i, text.as_str())?;
    }
    Ok(())
}

/// Appends the paths of Files as strings, with commas between them.
fn put_paths(out: &mut String, files: &[Shared<FileRef>]) -> Result<(), AllocError>
    ensures { OnOk result (string_bytes out.new
        ≡ string_bytes out.old ++ joined (map quoted (map path_of files.now))) }
{
    for (i, file) in files.iter().enumerate() {
        put_string_at(out, i, file.get().path.as_str())?;
    }
    Ok(())
}

/// Appends the list of texts.
pub(crate) fn put_text_list(out: &mut String, texts: &[Text]) -> Result<(), AllocError>
    ensures { OnOk result (string_bytes out.new ≡ string_bytes out.old ++ strings_text texts.now) }
{
    out.push_str("[")?;
    put_texts(out, texts)?;
    out.push_str("]")
}

/// Appends the list of the paths of Files.
pub(crate) fn put_file_list(out: &mut String, files: &[Shared<FileRef>]) -> Result<(), AllocError>
    ensures { OnOk result (string_bytes out.new
        ≡ string_bytes out.old ++ strings_text (map path_of files.now)) }
{
    out.push_str("[")?;
    put_paths(out, files)?;
    out.push_str("]")
}

/// Appends the paths of the Files among elements as strings, with commas between them.
fn put_element_paths(out: &mut String, elements: &Elements<'_>) -> Result<(), AllocError>
    ensures { OnOk result (string_bytes out.new ≡ string_bytes out.old
        ++ joined (map quoted (flat_map element_paths elements.now))) }
{
    let mut place = 0;
    for i in 0..elements.len() {
        if let Element::File(file) = elements.at(i) {
            put_string_at(out, place, file.get().path.as_str())?;
            place += 1;
        }
    }
    Ok(())
}

/// Appends the list of the paths of the Files among elements.
pub(crate) fn put_element_list(out: &mut String, elements: &Elements<'_>) -> Result<(), AllocError>
    ensures { OnOk result (string_bytes out.new
        ≡ string_bytes out.old ++ strings_text (flat_map element_paths elements.now)) }
{
    out.push_str("[")?;
    put_element_paths(out, elements)?;
    out.push_str("]")
}
