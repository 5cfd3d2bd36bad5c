//! The first place at which the lines of two texts differ.

ghost use Rattle.std.specs.Prelude.{◌≡◌, ◌<◌, ◌∷◌, ◌++◌, length, IfOk, Some};
ghost use Rattle.model_pairs.specs.LinesOfTexts.{lines_of, first_lines_apart};

use sig_base::{NoMemory, Text};
use std::alloc::Global;

/// Two lines that differ, at one place of two texts.
#[derive(Drop)]
pub struct LinesApart {
    /// The place of the lines, from 1.
    pub line: u64,
    /// The line of the first text, with its line feed.
    pub first: Text,
    /// The line of the second text, with its line feed.
    pub second: Text,
}

/// The first line of a text that has bytes, with its line feed, and what comes after it.
fn split_line(text: &[u8]) -> (&[u8], &[u8])
    requires { 0 < length text.now }
    ensures lines { lines_of text.now ≡ result.0.now ∷ lines_of result.1.now }
    ensures shorter { length result.1.now < length text.now }
{
    for (place, byte) in text.iter().enumerate() {
        if *byte == b'\n' {
            return text.split_at(place + 1);
        }
    }
    text.split_at(text.len())
}

/// Two lines at a place, in memory of their own.
fn kept_lines(alloc: Global, line: u64, first: &[u8], second: &[u8]) -> Result<LinesApart, NoMemory>
    ensures { IfOk result
        (λ a. a ≡ record { line = line; first = first.now; second = second.now }) }
{
    let first = Vec::from_slice(alloc, first)?;
    let second = Vec::from_slice(alloc, second)?;
    Ok(LinesApart {
        line,
        first: Text::from_vec(first),
        second: Text::from_vec(second),
    })
}

/// The first two lines that differ, at one place of two texts. There are none where one text begins with all lines of the
/// other.
pub(crate) fn first_lines_apart(
    alloc: Global,
    first: &[u8],
    second: &[u8],
) -> Result<Option<LinesApart>, NoMemory>
    ensures { IfOk result
        (λ found. found ≡ first_lines_apart 1 (lines_of first.now) (lines_of second.now)) }
{
    let all = first.len();
    let mut left = first;
    let mut right = second;
    let mut line: u64 = 1;
    while !left.is_empty() && !right.is_empty() {
        let (one, left_behind) = split_line(left);
        let (other, right_behind) = split_line(right);
        if one != other {
            return Ok(Some(kept_lines(alloc, line, one, other)?));
        }
        prove!(line <= all as u64);
        line += 1;
        left = left_behind;
        right = right_behind;
    }
    Ok(None)
}
