//! The names of a made model.

ghost use Rattle.std.specs.Prelude.{◌≡◌, ◌++◌, IfOk, decimal};

use sig_base::{Name, NoMemory, put_number};
use std::alloc::Global;

/// The name of these letters.
pub(crate) fn copied_name(alloc: Global, letters: &[u8]) -> Result<Name, NoMemory>
    ensures { IfOk result (λ name. name ≡ letters.now) }
{
    Ok(Name::from_vec(Vec::from_slice(alloc, letters)?))
}

/// The name of these letters and a number after them.
pub(crate) fn numbered_name(alloc: Global, letters: &[u8], number: usize) -> Result<Name, NoMemory>
    ensures { IfOk result (λ name. name ≡ letters.now ++ decimal number) }
{
    let mut bytes = Vec::from_slice(alloc, letters)?;
    put_number(&mut bytes, number as u64)?;
    Ok(Name::from_vec(bytes))
}
