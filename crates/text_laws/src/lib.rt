//! Laws of texts: tokens spell one text at most, and where they spell none there is one first wrong place. The functions have
//! empty bodies: what they ensure holds of all tokens and texts. The reader that a grammar gives, and the proof that it computes what the
//! grammar derives, are in `specs/` and `proofs/`, once for all grammars.
#![tactic(auto)]

mod reading_laws;

pub use reading_laws::{
    certificates_have_one_reading, openings_have_a_limit, texts_end_with_their_word,
    texts_have_one_reading, texts_read_as_one_model, what_reads_is_within_its_limit,
};
