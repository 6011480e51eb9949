//! The files that are linked with the one that is evaluated.
ghost use Rattle.std.specs.Prelude.{◌≡◌, IfOk};
ghost use Rattle.values.specs.Seeing.{option_value};
ghost use Rattle.operations.specs.Names.{Linked};

use plain::Text;
use std::alloc::AllocError;
use values::{Item, Value};

/// What is known of the files that are linked, which live longer than the evaluation: what lies in
/// them is lent. Files and functions are numbers; a number that no file has is none.
pub trait Link<'a> {
    ghost linked: { Self → Linked };

    /// The value of a name of a file's top level, by the number of the file and that of the name.
    fn name(&self, file: usize, number: usize) -> Option<Item<'a>>
        ensures { option_value result ≡ (linked self.now).names file number };

    /// The defaults that a function's `def` kept, by the number of its file and its own.
    fn defaults(&self, file: usize, number: usize) -> &'a [Value]
        ensures { result.now ≡ (linked self.now).defaults
            (record { «module» = file; number = number }) };

    /// What a load of a file asks for, by the text of the label and the name.
    ///
    /// # Errors
    ///
    /// `AllocError` where memory for the path that the label spells was refused.
    fn asked(&self, file: usize, label: &Text, name: &Text) -> Result<Option<Item<'a>>, AllocError>
        ensures { IfOk result
            (λ v. option_value v ≡ (linked self.now).asked file label.now name.now) };
}
