//! Reading the value of an option: numbers, and lists of starting values.

ghost use Rattle.std.specs.Prelude.{◌≡◌, ◌==◌, ◌≤◌, ◌^◌, map, IfOk, IfSome, None};
ghost use Rattle.std.specs.List.{AllPass, list_all, slice_split};
ghost use Rattle.std.specs.Char.{is_ascii_digit};
ghost use Rattle.command_words.specs.ArgumentValues.{is_digits, number_written, number_within, whole_number, whole_numbers, starting_values};
ghost use Rattle.command_words.specs.Inner.Asking.{Asked};

use crate::words_error::WordsError;
use sig_base::List;
use std::alloc::{AllocError, Global};

/// Whether each byte is a digit.
fn all_digits(text: &[u8]) -> bool
    ensures { result ≡ list_all is_ascii_digit text.now }
{
    text.iter().all(|c| c.is_ascii_digit())
}

/// Whether the text is one or more digits.
fn is_digits(text: &[u8]) -> bool
    ensures { result ≡ is_digits text.now }
{
    !text.is_empty() && all_digits(text)
}

/// The number that the digits write in decimal, or `None` above 2^64 - 1.
fn number_of(digits: &[u8]) -> Option<u64>
    requires { AllPass is_ascii_digit digits.now }
    ensures some { IfSome result (λ value. value ≡ number_written digits.now) }
    ensures none { result ≡ None → 2 ^ 64 ≤ number_written digits.now }
{
    let mut value: u64 = 0;
    for digit in digits {
        value = value
            .checked_mul(10)?
            .checked_add(u64::from(*digit - b'0'))?;
    }
    Some(value)
}

/// The number that the text writes by digits alone, where it is neither below the lowest nor above the highest.
pub(crate) fn number_within(lowest: u64, highest: u64, text: &[u8]) -> Option<u64>
    ensures { result ≡ number_within lowest highest text.now }
{
    if !is_digits(text) {
        return None;
    }
    let value = number_of(text)?;
    if lowest <= value && value <= highest {
        Some(value)
    } else {
        None
    }
}

/// The whole number that the text writes by an optional `-` and digits.
fn whole_number(text: &[u8]) -> Option<i64>
    ensures { result ≡ whole_number text.now }
{
    match text.strip_prefix(b"-") {
        Some(digits) => {
            let magnitude = number_within(0, 1 << 63, digits)?;
            0i64.checked_sub_unsigned(magnitude)
        }
        None => {
            let magnitude = number_within(0, i64::MAX as u64, text)?;
            Some(magnitude as i64)
        }
    }
}

/// The whole numbers that the texts write.
fn whole_numbers(alloc: Global, texts: &[&[u8]]) -> Result<List<i64>, WordsError>
    ensures { Asked (whole_numbers (map (λ text. text.now) texts.now)) result }
{
    let mut values = List::new(alloc);
    for text in texts {
        match whole_number(text) {
            Some(value) => values.push(value)?,
            None => return Err(WordsError::BadWords),
        }
    }
    Ok(values)
}

/// The texts between the commas.
fn between_commas(alloc: Global, text: &[u8]) -> Result<Vec<&[u8]>, AllocError>
    ensures { IfOk result
        (λ texts. map (λ part. part.now) texts.items ≡ slice_split (λ c. c == 44) text.now) }
{
    text.split(|c| *c == b',').collect(alloc)
}

/// The starting values that the text writes, with commas between them.
pub(crate) fn starting_values(alloc: Global, text: &[u8]) -> Result<List<i64>, WordsError>
    ensures { Asked (starting_values text.now) result }
{
    let texts = between_commas(alloc, text)?;
    whole_numbers(alloc, texts.as_slice())
}
