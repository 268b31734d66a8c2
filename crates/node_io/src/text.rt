//! Names as texts.
ghost use Rattle.std.specs.Prelude.{◌≡◌, ◌++◌, ◌∷◌, [], IfOk, OnOk, OnErr};
ghost use Rattle.std.specs.Str.{bytes_eq};

use plan_base::{NoMemory, Text, Texts};
use std::alloc::{AllocError, Global};

/// A text of the bytes of `bytes`.
pub(crate) fn text_of(alloc: Global, bytes: &[u8]) -> Result<Text, AllocError>
    ensures { IfOk result (λ text. text ≡ bytes.now) }
{
    Ok(Text::of(Vec::from_slice(alloc, bytes)?))
}

/// Whether `text` has the bytes of `bytes`.
pub(crate) fn is_text(text: &Text, bytes: &[u8]) -> bool
    ensures { result ≡ bytes_eq text.now bytes.now }
{
    text.as_slice() == bytes
}

/// Adds `name` at the end of `names`. Where an allocation fails, the names stay.
pub(crate) fn add_name(alloc: Global, names: &mut Texts, name: &[u8]) -> Result<(), NoMemory>
    ensures ok { OnOk result (names.new ≡ names.old ++ name.now ∷ []) }
    ensures err { OnErr result (names.new ≡ names.old) }
{
    let text = text_of(alloc, name)?;
    names.add(text)?;
    Ok(())
}
