//! Mnemonics of actions for which none is given.
ghost use Rattle.std.specs.Prelude.{◌≡◌, IfOk, codes};

use plain::Text;
use std::alloc::{AllocError, Global};

/// The mnemonics of actions for which none is given, made once and shared.
#[derive(Drop)]
pub struct Mnemonics {
    write: Text,
    run: Text,
    ghost spelt: { (write ≡ codes "FileWrite") × (run ≡ codes "Action") },
}

impl Mnemonics {
    /// Makes them.
    ///
    /// # Errors
    ///
    /// `AllocError` where memory was refused.
    pub fn new(alloc: Global) -> Result<Mnemonics, AllocError>
        ensures { IfOk result (λ m. (m.write ≡ codes "FileWrite") × (m.run ≡ codes "Action")) }
    {
        let write = Text::new(alloc, "FileWrite")?;
        let run = Text::new(alloc, "Action")?;
        Ok(Mnemonics { write, run })
    }

    /// That of an action that writes a text.
    pub(crate) fn of_write(&self) -> Result<Text, AllocError>
        ensures { IfOk result (λ t. t ≡ codes "FileWrite") }
    {
        self.write.share()
    }

    /// That of any other action.
    pub(crate) fn of_run(&self) -> Result<Text, AllocError>
        ensures { IfOk result (λ t. t ≡ codes "Action") }
    {
        self.run.share()
    }
}
