//! The defaults of attributes.
ghost use Rattle.std.specs.Prelude.{◌≡◌, [], IfOk};
ghost use Rattle.targets.specs.Attributes.{default_of, default_of_kind};

use crate::{Attribute, AttributeValue, Sequence, TextDict, TextList};
use plain::{Shared, Text};
use std::alloc::{AllocError, Global};
use values::{AttributeKind, Key};

/// What a target has for an attribute where nothing is given.
pub(crate) fn default_of(alloc: Global, attribute: &Attribute) -> Result<AttributeValue, AllocError>
    ensures { IfOk result (λ v. v ≡ default_of attribute.now) }
{
    match &attribute.default {
        Some(value) => value.share(),
        None => default_of_kind(alloc, attribute.kind),
    }
}

/// The default of a kind.
fn default_of_kind(alloc: Global, kind: AttributeKind) -> Result<AttributeValue, AllocError>
    ensures { IfOk result (λ v. v ≡ default_of_kind kind) }
{
    match kind {
        AttributeKind::String => Ok(AttributeValue::Key(Key::Text(no_text(alloc)?))),
        AttributeKind::Int => Ok(AttributeValue::Key(Key::Number(0))),
        AttributeKind::Bool => Ok(AttributeValue::Key(Key::Truth(false))),
        AttributeKind::StringList => no_strings(alloc),
        AttributeKind::StringDict => no_entries(alloc),
        AttributeKind::Label => Ok(AttributeValue::Label(None)),
        AttributeKind::LabelList => no_labels(alloc),
    }
}

/// The empty string.
fn no_text(alloc: Global) -> Result<Text, AllocError>
    ensures { IfOk result (λ t. t ≡ []) }
{
    Text::new(alloc, "")
}

/// No strings.
fn no_strings(alloc: Global) -> Result<AttributeValue, AllocError>
    ensures { IfOk result (λ v. v ≡ AttributeValue.Strings []) }
{
    let strings = Shared::new(alloc, TextList::new(alloc)?)?;
    Ok(AttributeValue::Strings(strings))
}

/// No entries.
fn no_entries(alloc: Global) -> Result<AttributeValue, AllocError>
    ensures { IfOk result (λ v. v ≡ AttributeValue.StringDict []) }
{
    let dict = Shared::new(alloc, TextDict::new(alloc)?)?;
    Ok(AttributeValue::StringDict(dict))
}

/// No labels.
fn no_labels(alloc: Global) -> Result<AttributeValue, AllocError>
    ensures { IfOk result (λ v. v ≡ AttributeValue.Labels []) }
{
    let labels = Shared::new(alloc, Sequence::new(alloc))?;
    Ok(AttributeValue::Labels(labels))
}
