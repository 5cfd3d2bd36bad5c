//! The byte at which a text that is cut off goes wrong.

use crate::calls::{SOUND, called, front, refusal};
use crate::models::{BANK, CLOCK_SAVED, ONE_DOCUMENT};
use sig_base::{NoMemory, put_bytes, put_number};
use sigma_top::Status;
use std::alloc::Global;
use std::test::*;

const BAD_BYTE: &[u8] = b": bad byte\n";

const UNEXPECTED: &[u8] = b": unexpected\n";

/// Whether the byte may be in a word or a number.
fn is_of_word(byte: u8) -> bool {
    byte.is_ascii_alphanumeric() || byte == b'_'
}

/// The byte at which the word or number begins that is the text's last one; the text's length where
/// it ends in none.
fn last_word(text: &[u8]) -> usize {
    let mut from = 0;
    for (at, byte) in text.iter().enumerate() {
        if !is_of_word(*byte) {
            from = at + 1;
        }
    }
    from
}

/// The byte and the message of the complaint where the text is cut off at this length. A reserved
/// word that is cut short is a name. In these texts, whose names are in capitals, no name can be
/// where a reserved word is, but for `false`. One point begins no token, and no colon may precede
/// an equals sign. Any other front can go on, so that it goes wrong at its end.
fn cut_off(text: &[u8], length: usize) -> (usize, &'static [u8]) {
    let left = front(text, length);
    let word = last_word(left);
    match (left, text.get(length)) {
        ([.., b'.'], Some(b'.')) => (length.saturating_sub(1), BAD_BYTE),
        ([.., b':'], Some(b'=')) => (length.saturating_sub(1), UNEXPECTED),
        (_, Some(next)) if is_of_word(*next) => match text.get(word..) {
            Some([b'f', b'a', b'l', b's', b'e', ..]) => (length, UNEXPECTED),
            Some([b'a'..=b'z', ..]) => (word, UNEXPECTED),
            _ => (length, UNEXPECTED),
        },
        _ => (length, UNEXPECTED),
    }
}

/// Whether the text is refused so where it is cut off at this length.
fn is_refused_there(
    alloc: Global,
    words: &str,
    text: &[u8],
    length: usize,
) -> Result<bool, NoMemory> {
    let (at, what) = cut_off(text, length);
    let mut line = Vec::from_slice(alloc, b"sigma: byte ")?;
    put_number(&mut line, at as u64)?;
    put_bytes(&mut line, what)?;
    let refused = refusal(Status::Refused, line.as_slice());
    Ok(called(alloc, words, front(text, length), SOUND, refused)?.is_wanted)
}

/// Words, and a text that they read, which is whole with its last word, before its last byte.
const WHOLE: [(&str, &[u8]); 3] = [
    ("check", BANK),
    ("certify", ONE_DOCUMENT),
    ("resume --until 12 --events 9", CLOCK_SAVED),
];

#[test]
fn each_text_that_is_cut_off_is_refused_at_its_place(rt: HostRuntime) -> Result<(), Fail> {
    for version in [b"".as_slice(), b"version 2;\n"] {
        for (words, whole) in WHOLE {
            let mut text = Vec::from_slice(rt.alloc(), version)?;
            put_bytes(&mut text, whole)?;
            for length in 0..text.len().saturating_sub(1) {
                assert!(rt; is_refused_there(rt.alloc(), words, text.as_slice(), length)?);
            }
        }
    }
    Ok(())
}
