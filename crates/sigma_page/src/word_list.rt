//! The words of a call, from bytes.

ghost use Rattle.std.specs.Prelude.{◌≡◌, ◌<◌, ◌∷◌, ◌⊎◌, length, map, vec_items, All, IsUtf8, IfOk, IfErr};
ghost use Rattle.std.specs.String.{string_bytes};
ghost use Rattle.answer_delivery.specs.declared.status.Failure.TheVariants as failures;
ghost use Rattle.sigma_page.specs.PageWords.{ended_words};

use answer_delivery::Failure;
use memchr::memchr;
use std::alloc::Global;

/// The first word of the bytes, and the bytes past its end.
fn first_word(bytes: &[u8]) -> (&[u8], &[u8])
    requires { 0 < length bytes.now }
    ensures words { ended_words bytes.now ≡ result.0.now ∷ ended_words result.1.now }
    ensures shorter { length result.1.now < length bytes.now }
{
    match memchr(0, bytes) {
        Some(end) => (&bytes[..end], &bytes[end + 1..]),
        None => (bytes, &bytes[bytes.len()..]),
    }
}

/// The bytes as a word.
fn word_of(alloc: Global, bytes: &[u8]) -> Result<String, Failure>
    ensures word { IfOk result (λ word. string_bytes word ≡ bytes.now) }
    ensures missing { IfErr result (λ why. (why ≡ failures.NoMemory)
        ⊎ ((why ≡ failures.Usage) × (IsUtf8 bytes.now → ⊥))) }
{
    let Ok(copy) = Vec::from_slice(alloc, bytes) else {
        return Err(Failure::NoMemory);
    };
    match String::from_utf8(copy) {
        Ok(word) => Ok(word),
        Err(_) => Err(Failure::Usage),
    }
}

/// The words of the bytes, in which each word is ended by a byte of 0. The error is `NoMemory`, or `Usage` where a word
/// isn't UTF-8.
pub fn words_of(alloc: Global, bytes: &[u8]) -> Result<Vec<String>, Failure>
    ensures words { IfOk result
        (λ words. map string_bytes (vec_items words) ≡ ended_words bytes.now) }
    ensures missing { IfErr result (λ why. (why ≡ failures.NoMemory)
        ⊎ ((why ≡ failures.Usage) × (All IsUtf8 (ended_words bytes.now) → ⊥))) }
{
    let mut words = Vec::new(alloc);
    let mut rest = bytes;
    while !rest.is_empty() {
        let (first, others) = first_word(rest);
        let word = word_of(alloc, first)?;
        if words.push(word).is_err() {
            return Err(Failure::NoMemory);
        }
        rest = others;
    }
    Ok(words)
}
