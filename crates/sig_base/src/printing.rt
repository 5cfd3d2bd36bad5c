//! Adding bytes and numbers to a text that grows in memory.

ghost use Rattle.std.specs.Prelude.{◌≡◌, ◌++◌, OnOk, decimal};
ghost use Rattle.std.specs.List.{flat_map};
ghost use Rattle.std.specs.Fmt.{signed_decimal};

use crate::no_memory::NoMemory;
use itoa::Buffer;

/// Adds bytes.
pub fn put_bytes(out: &mut Vec<u8>, bytes: &[u8]) -> Result<(), NoMemory>
    ensures { OnOk result (out.new.items ≡ out.old.items ++ bytes.now) }
{
    out.extend_from_slice(bytes)?;
    Ok(())
}

/// Adds texts one after the other.
pub fn put_texts(out: &mut Vec<u8>, texts: &[&[u8]]) -> Result<(), NoMemory>
    ensures { OnOk result (out.new.items ≡ out.old.items ++ flat_map (λ text. text.now) texts.now) }
{
    for text in texts {
        put_bytes(out, text)?;
    }
    Ok(())
}

/// Adds a number in decimal, without leading zeros.
pub fn put_number(out: &mut Vec<u8>, number: u64) -> Result<(), NoMemory>
    ensures { OnOk result (out.new.items ≡ out.old.items ++ decimal number) }
{
    let mut buffer = Buffer::new();
    put_bytes(out, buffer.format(number).as_bytes())
}

/// Adds a word, and then a number in decimal.
pub fn put_counted(out: &mut Vec<u8>, word: &[u8], number: u64) -> Result<(), NoMemory>
    ensures { OnOk result (out.new.items ≡ out.old.items ++ word.now ++ decimal number) }
{
    put_bytes(out, word)?;
    put_number(out, number)
}

/// Adds a number in decimal, with a `-` where it is below 0.
pub fn put_signed(out: &mut Vec<u8>, number: i64) -> Result<(), NoMemory>
    ensures { OnOk result (out.new.items ≡ out.old.items ++ signed_decimal number) }
{
    let mut buffer = Buffer::new();
    put_bytes(out, buffer.format(number).as_bytes())
}
