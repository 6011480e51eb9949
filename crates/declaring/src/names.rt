//! Names that a module gives, and `doc`.
ghost use Rattle.std.specs.Prelude.{◌≡◌, option_copied};
ghost use Rattle.lexer.specs.Names.{spells_name};
ghost use Rattle.values.specs.Seeing.{seen};
ghost use Rattle.declaring.specs.NewNames.{name_in, is_doc, may_be_doc};

use heap::Heap;
use operands::Operand;
use plain::Text;
use state::text_of;
use values::{Key, LeafRef, Seen};

/// The name that a value is, if it is one.
pub(crate) fn name_of<'a>(value: &Seen<'a, '_>) -> Option<&'a Text>
    ensures { option_copied result ≡ name_in (seen value.now) }
{
    let Some(text) = text_of(value) else {
        return None;
    };
    if !is_name(text.as_str()) {
        return None;
    }
    Some(text)
}

/// Whether a text is a name.
fn is_name(text: &str) -> bool
    ensures { result ≡ spells_name text.now }
{
    lexer::is_name(text)
}

/// Whether `doc` is a string or None, or isn't given.
pub(crate) fn may_be_doc(heap: &Heap, value: Option<&Operand<'_>>) -> bool
    ensures { result ≡ may_be_doc heap.now (option_copied value.entry) }
{
    match value {
        Some(value) => is_doc(&heap.see_item(value.item())),
        None => true,
    }
}

/// Whether a value is a string or None.
fn is_doc(value: &Seen<'_, '_>) -> bool
    ensures { result ≡ is_doc (seen value.now) }
{
    match value {
        Seen::Key(Key::Text(_)) => true,
        Seen::Leaf(LeafRef::None) => true,
        _ => false,
    }
}
