//! How far a run of bytes of one kind goes.

ghost use Rattle.std.specs.Prelude.{◌≡◌, true, map, slice_index};
ghost use Rattle.std.specs.List.{prefix_len, range_with_len};
ghost use Rattle.std.specs.Char.{is_ascii_digit};
ghost use Rattle.model_core.specs.Text.Lexing.{is_word_byte, is_comment_byte};

const YES: bool = true;

const NO: bool = false;

/// For each byte whether a word goes on with it. A table, since it is asked of each byte of a word.
fn word_bytes() -> &'static [bool; 256]
    ensures { result.now ≡ map is_word_byte (range_with_len 0 256) }
{
    &[
        NO, NO, NO, NO, NO, NO, NO, NO, NO, NO, NO, NO, NO, NO, NO, NO, NO, NO, NO, NO, NO, NO, NO,
        NO, NO, NO, NO, NO, NO, NO, NO, NO, NO, NO, NO, NO, NO, NO, NO, NO, NO, NO, NO, NO, NO, NO,
        NO, NO, YES, YES, YES, YES, YES, YES, YES, YES, YES, YES, NO, NO, NO, NO, NO, NO, NO, YES,
        YES, YES, YES, YES, YES, YES, YES, YES, YES, YES, YES, YES, YES, YES, YES, YES, YES, YES,
        YES, YES, YES, YES, YES, YES, YES, NO, NO, NO, NO, YES, NO, YES, YES, YES, YES, YES, YES,
        YES, YES, YES, YES, YES, YES, YES, YES, YES, YES, YES, YES, YES, YES, YES, YES, YES, YES,
        YES, YES, NO, NO, NO, NO, NO, NO, NO, NO, NO, NO, NO, NO, NO, NO, NO, NO, NO, NO, NO, NO,
        NO, NO, NO, NO, NO, NO, NO, NO, NO, NO, NO, NO, NO, NO, NO, NO, NO, NO, NO, NO, NO, NO, NO,
        NO, NO, NO, NO, NO, NO, NO, NO, NO, NO, NO, NO, NO, NO, NO, NO, NO, NO, NO, NO, NO, NO, NO,
        NO, NO, NO, NO, NO, NO, NO, NO, NO, NO, NO, NO, NO, NO, NO, NO, NO, NO, NO, NO, NO, NO, NO,
        NO, NO, NO, NO, NO, NO, NO, NO, NO, NO, NO, NO, NO, NO, NO, NO, NO, NO, NO, NO, NO, NO, NO,
        NO, NO, NO, NO, NO, NO, NO, NO, NO, NO, NO, NO, NO, NO, NO, NO, NO, NO, NO, NO, NO,
    ]
}

/// Whether a word goes on with the byte.
pub(crate) fn is_word_byte(byte: u8) -> bool
    ensures { result ≡ is_word_byte byte }
{
    word_bytes()[usize::from(byte)]
}

/// How many bytes of a word the bytes begin with, where it is known of the first that it is one: it isn't looked at.
pub(crate) fn word_length(bytes: &[u8]) -> usize
    requires { is_word_byte (slice_index bytes.now 0) ≡ true }
    ensures { result ≡ prefix_len is_word_byte bytes.now }
{
    for place in 1..bytes.len() {
        if !is_word_byte(bytes[place]) {
            return place;
        }
    }
    bytes.len()
}

/// How many digits the bytes begin with, where it is known of the first byte that it is one: it isn't looked at.
pub(crate) fn digits_length(bytes: &[u8]) -> usize
    requires { is_ascii_digit (slice_index bytes.now 0) ≡ true }
    ensures { result ≡ prefix_len is_ascii_digit bytes.now }
{
    for place in 1..bytes.len() {
        if !bytes[place].is_ascii_digit() {
            return place;
        }
    }
    bytes.len()
}

/// How many bytes there are before the first line feed, or in all where there is none.
pub(crate) fn comment_length(bytes: &[u8]) -> usize
    ensures { result ≡ prefix_len is_comment_byte bytes.now }
{
    for (place, byte) in bytes.iter().enumerate() {
        if *byte == b'\n' {
            return place;
        }
    }
    bytes.len()
}
