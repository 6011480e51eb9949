//! A folder with one file in it, of which all is known.

ghost use Rattle.std.specs.Prelude.{◌≡◌, ◌≢◌, ◌≤◌, ◌<◌, [], ◌∷◌, false, Err, IfErr, IfOk, length};
ghost use Rattle.std.specs.Prelude.{vec_len};
ghost use Rattle.packing.specs.Folders.{passes_over};
ghost use Rattle.packing.specs.Inputs.{input_text};
ghost use Rattle.request.specs.Input.{Spells};
ghost use Rattle.input_tests.specs.Singles.{single, workspace_of};

use devices::Sink;
use packing::{Folder, Kind, Names, PackStop, Packed, Unread, pack};
use plain::Text;
use std::alloc::{AllocError, Global};

/// A folder with one file in it.
#[derive(Clone, Copy)]
pub struct Single<'a> {
    /// The file's name.
    pub name: &'a str,
    /// Its bytes.
    pub bytes: &'a [u8],
}

/// Bytes of one's own, if there aren't too many.
pub fn given(alloc: Global, bytes: &[u8], limit: usize) -> Result<Vec<u8>, Unread>
    ensures items { IfOk result (λ b. b.items ≡ bytes.now) }
    ensures limit { IfOk result (λ b. vec_len b ≤ limit) }
    ensures long { result ≡ Err Unread.TooLong → limit < length bytes.now }
    ensures read { IfErr result (λ e. e ≢ Unread.NoMemory → e ≢ Unread.TooLong → ⊥) }
{
    if bytes.len() > limit {
        return Err(Unread::TooLong);
    }
    match Vec::from_slice(alloc, bytes) {
        Ok(bytes) => Ok(bytes),
        Err(_) => Err(Unread::NoMemory),
    }
}

/// A list of one name.
fn one_name(alloc: Global, name: &str) -> Result<Vec<Text>, AllocError>
    ensures { IfOk result (λ v. v.items ≡ name.now ∷ []) }
{
    let mut names = Vec::new(alloc);
    names.push(Text::new(alloc, name)?)?;
    Ok(names)
}

impl<'a> Folder for Single<'a> {
    ghost at = { λ s. single s.name.now s.bytes.now };

    fn names(&self, alloc: Global, path: &str) -> Result<Names, Unread> {
        if !path.is_empty() {
            return Err(Unread::Denied);
        }
        match one_name(alloc, self.name) {
            Ok(names) => Ok(Names {
                names,
                others: false,
            }),
            Err(_) => Err(Unread::NoMemory),
        }
    }

    fn kind(&self, _alloc: Global, path: &str) -> Result<Kind, Unread> {
        if path.is_empty() {
            Ok(Kind::Folder)
        } else if path == self.name {
            Ok(Kind::File)
        } else {
            Err(Unread::Gone)
        }
    }

    fn bytes(&self, alloc: Global, path: &str, limit: usize) -> Result<Vec<u8>, Unread> {
        if path.is_empty() || path != self.name {
            return Err(Unread::Gone);
        }
        given(alloc, self.bytes, limit)
    }
}

/// Packs such a folder with nothing left out. What `pack` says of every folder comes here to the
/// very bytes of the input: that file's pair, and no other. And `Root` is never the refusal.
pub fn pack_single<K: Sink>(
    folder: &Single<'_>,
    alloc: Global,
    sink: &mut K,
) -> Result<Packed, PackStop>
    ensures input { IfOk result (λ p. passes_over [] folder.now.name.now ≡ false → p.input.items
        ≡ input_text (workspace_of folder.now.name.now folder.now.bytes.now)) }
    ensures spells { IfOk result (λ p. passes_over [] folder.now.name.now ≡ false
        → Spells p.input.items (workspace_of folder.now.name.now folder.now.bytes.now)) }
    ensures read { (unread : Unread) → result ≡ Err (PackStop.Root unread) → ⊥ }
{
    pack(folder, alloc, true, sink)
}
