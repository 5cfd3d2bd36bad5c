//! Pieces that each line of a history has, added to its bytes at once: room is asked for once, and not for each byte.

ghost use Rattle.std.specs.Prelude.{◌≡◌, ◌+◌, ◌≤◌, ◌∷◌, ◌++◌, length, OnOk, OnErr, codes, decimal, vec_len, vec_capacity};
ghost use Rattle.std.specs.Fmt.{signed_decimal};

use itoa::Buffer;
use sig_base::NoMemory;

/// Adds bytes for which there is room.
#[inline(always)]
fn add_bytes(bytes: &mut Vec<u8>, others: &[u8])
    requires { vec_len bytes.old + length others.now ≤ vec_capacity bytes.old }
    ensures items { bytes.new.items ≡ bytes.old.items ++ others.now }
    ensures len { vec_len bytes.new ≡ vec_len bytes.old + length others.now }
    ensures capacity { vec_capacity bytes.old ≤ vec_capacity bytes.new }
{
    bytes.extend_from_slice(others).unwrap();
}

/// Adds a number of any length in decimal, for which there is room.
#[inline(always)]
fn add_digits(bytes: &mut Vec<u8>, number: u64)
    requires { vec_len bytes.old + 20 ≤ vec_capacity bytes.old }
    ensures { bytes.new.items ≡ bytes.old.items ++ decimal number }
{
    let mut buffer = Buffer::new();
    add_bytes(bytes, buffer.format(number).as_bytes());
}

/// Adds a number as `add_digits` does. Not inlined, since most values have one digit.
#[inline(never)]
fn add_long(bytes: &mut Vec<u8>, number: u64)
    requires { vec_len bytes.old + 20 ≤ vec_capacity bytes.old }
    ensures { bytes.new.items ≡ bytes.old.items ++ decimal number }
{
    add_digits(bytes, number);
}

/// Adds a number in decimal, for which there is room.
#[inline(always)]
fn add_number(bytes: &mut Vec<u8>, number: u64)
    requires { vec_len bytes.old + 20 ≤ vec_capacity bytes.old }
    ensures { bytes.new.items ≡ bytes.old.items ++ decimal number }
{
    if number < 10 {
        bytes.push_reserved(b'0' + number as u8);
        return;
    }
    add_long(bytes, number);
}

/// Adds a number in decimal with a `-` where it is below 0, for which there is room. Not inlined, since few are.
#[inline(never)]
fn add_negative(bytes: &mut Vec<u8>, number: i64)
    requires { vec_len bytes.old + 20 ≤ vec_capacity bytes.old }
    ensures { bytes.new.items ≡ bytes.old.items ++ signed_decimal number }
{
    let mut buffer = Buffer::new();
    add_bytes(bytes, buffer.format(number).as_bytes());
}

/// Adds a number in decimal with a `-` where it is below 0, for which there is room.
#[inline(always)]
fn add_signed(bytes: &mut Vec<u8>, number: i64)
    requires { vec_len bytes.old + 20 ≤ vec_capacity bytes.old }
    ensures { bytes.new.items ≡ bytes.old.items ++ signed_decimal number }
{
    if number >= 0 {
        add_number(bytes, number as u64);
        return;
    }
    add_negative(bytes, number);
}

/// Adds a word of two letters, a space and a number. Adds nothing where memory for them is refused.
#[inline(always)]
pub fn add_head(bytes: &mut Vec<u8>, first: u8, second: u8, number: u64) -> Result<(), NoMemory>
    ensures ok { OnOk result
        (bytes.new.items ≡ bytes.old.items ++ ((first ∷ second ∷ codes " ") ++ decimal number)) }
    ensures err { OnErr result (bytes.new.items ≡ bytes.old.items) }
{
    bytes.reserve(23)?;
    bytes.push_reserved(first);
    bytes.push_reserved(second);
    bytes.push_reserved(b' ');
    add_digits(bytes, number);
    Ok(())
}

/// Adds a name and a value, after a space. Adds nothing where memory for them is refused.
#[inline(always)]
pub fn add_cell(bytes: &mut Vec<u8>, name: &[u8], value: i64) -> Result<(), NoMemory>
    ensures ok { OnOk result
        (bytes.new.items
        ≡ bytes.old.items ++ (codes " " ++ name.now ++ codes "=" ++ signed_decimal value)) }
    ensures err { OnErr result (bytes.new.items ≡ bytes.old.items) }
{
    bytes.reserve(name.len() + 22)?;
    bytes.push_reserved(b' ');
    add_bytes(bytes, name);
    bytes.push_reserved(b'=');
    add_signed(bytes, value);
    Ok(())
}
