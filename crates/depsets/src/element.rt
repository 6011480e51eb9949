//! What a depset may hold: strings, whole numbers, bools, labels and Files, all plain data.
ghost use Rattle.std.specs.Prelude.{◌≡◌, IfOk};
ghost use Rattle.depsets.specs.Elements.{type_of};

use keys::TextKey;
use plain::{Shared, Text};
use std::alloc::AllocError;

/// A file: its path, and the label of the target or of the source file that it belongs to.
///
/// Two are equal where path and owner are. The path is kept as a key, since it is lent wherever it
/// is read.
#[derive(PartialEq, Eq, Hash, Drop)]
pub struct FileRef {
    /// Where the file lies.
    pub path: TextKey,
    /// The label of the target or of the source file that it belongs to.
    pub owner: Text,
}

impl FileRef {
    /// The File of a path and an owner.
    pub fn new(path: Text, owner: Text) -> FileRef
        ensures { result ≡ record { path = path; owner = owner } }
    {
        FileRef {
            path: TextKey::new(path),
            owner,
        }
    }
}

/// An element of a depset. A label is its text.
///
/// A string is kept as a key, so that a listing can lend it as a value.
#[derive(PartialEq, Eq, Hash, Drop)]
pub enum Element {
    /// A string.
    Text(TextKey),
    /// A whole number of 64 bits, signed.
    Number(i64),
    /// A bool.
    Truth(bool),
    /// A label, by its text.
    Label(Text),
    /// A File.
    File(Shared<FileRef>),
}

/// The type of an element: all elements of a depset and of those below it have one.
#[derive(Clone, Copy, PartialEq, Eq, Debug)]
pub enum ElementType {
    Text,
    Number,
    Truth,
    Label,
    File,
}

impl Element {
    /// Another name of the same element. Its texts are shared and not copied.
    ///
    /// # Errors
    ///
    /// `AllocError` where the count of the names of its text or of its File is at its greatest.
    pub fn share(&self) -> Result<Element, AllocError>
        ensures { IfOk result (λ e. e ≡ self.now) }
    {
        match self {
            Element::Text(key) => Ok(Element::Text(TextKey::new(key.text().share()?))),
            Element::Number(number) => Ok(Element::Number(*number)),
            Element::Truth(truth) => Ok(Element::Truth(*truth)),
            Element::Label(text) => Ok(Element::Label(text.share()?)),
            Element::File(file) => Ok(Element::File(file.share()?)),
        }
    }

    /// Its type.
    pub fn element_type(&self) -> ElementType
        ensures { result ≡ type_of self.now }
    {
        match self {
            Element::Text(_) => ElementType::Text,
            Element::Number(_) => ElementType::Number,
            Element::Truth(_) => ElementType::Truth,
            Element::Label(_) => ElementType::Label,
            Element::File(_) => ElementType::File,
        }
    }
}
