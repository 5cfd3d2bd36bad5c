//! The reserved words, and whether a word is one.

ghost use Rattle.std.specs.Prelude.{◌≡◌, ◌<◌, length, map};
ghost use Rattle.model_lex.specs.PieceViews.{piece_kind};
ghost use Rattle.model_core.specs.Text.Lexing.{reserved_words, same_bytes, word_among};
ghost use Rattle.model_lex.specs.Inner.Fronts.{words_with_first};

use crate::piece::PieceKind;
use model_core::Word;

/// The kind of a word: a reserved word or a name.
#[inline(always)]
pub(crate) fn word_kind(word: &[u8]) -> PieceKind
    requires { 0 < length word.now }
    ensures { piece_kind word.now result ≡ word_among reserved_words word.now }
{
    kind_with(word[0], word)
}

/// The kind of a word that begins with the letter. It is compared with the reserved words that do, of which there are at
/// most four. Each comparison is inlined, so that it looks at no byte of these words: they are in the code.
#[inline(always)]
fn kind_with(letter: u8, word: &[u8]) -> PieceKind
    ensures { piece_kind word.now result ≡ word_among (words_with_first letter) word.now }
{
    match letter {
        b'a' => kind_among(
            &[
                (b"all", Word::All),
                (b"after", Word::After),
                (b"and", Word::And),
            ],
            word,
        ),
        b'b' => kind_among(&[(b"bool", Word::Bool), (b"by", Word::By)], word),
        b'c' => kind_among(
            &[
                (b"clip", Word::Clip),
                (b"cancel", Word::Cancel),
                (b"clk", Word::Clk),
                (b"certificate", Word::Certificate),
            ],
            word,
        ),
        b'd' => kind_among(&[(b"draw", Word::Draw), (b"drop", Word::Drop)], word),
        b'e' => kind_among(&[(b"end", Word::End), (b"else", Word::Else)], word),
        b'f' => kind_among(&[(b"from", Word::From), (b"false", Word::False)], word),
        b'i' => kind_among(&[(b"in", Word::In), (b"if", Word::If)], word),
        b'm' => kind_among(
            &[
                (b"model", Word::Model),
                (b"min", Word::Min),
                (b"max", Word::Max),
                (b"merge", Word::Merge),
            ],
            word,
        ),
        b'n' => kind_among(&[(b"not", Word::Not)], word),
        b'o' => kind_among(&[(b"or", Word::Or)], word),
        b'p' => kind_among(
            &[(b"priority", Word::Priority), (b"prune", Word::Prune)],
            word,
        ),
        b's' => kind_among(
            &[
                (b"set", Word::Set),
                (b"schedule", Word::Schedule),
                (b"settle", Word::Settle),
                (b"slice", Word::Slice),
            ],
            word,
        ),
        b't' => kind_among(
            &[
                (b"table", Word::Table),
                (b"then", Word::Then),
                (b"true", Word::True),
            ],
            word,
        ),
        b'u' => kind_among(&[(b"urgent", Word::Urgent)], word),
        b'v' => kind_among(
            &[
                (b"var", Word::Var),
                (b"vertex", Word::Vertex),
                (b"version", Word::Version),
            ],
            word,
        ),
        b'w' => kind_among(&[(b"watch", Word::Watch), (b"when", Word::When)], word),
        _ => PieceKind::Name,
    }
}

/// The kind of a word, where these are the reserved words.
#[inline(always)]
fn kind_among(words: &[(&[u8], Word)], word: &[u8]) -> PieceKind
    ensures { piece_kind word.now result
        ≡ word_among (map (λ w. (w.0.now, w.1)) words.now) word.now }
{
    for (spelling, reserved) in words {
        if is_spelled(word, spelling) {
            return PieceKind::Word(*reserved);
        }
    }
    PieceKind::Name
}

/// Whether a word is spelled so. A loop in place of `==`, whose loop isn't unrolled.
#[inline(always)]
fn is_spelled(word: &[u8], spelling: &[u8]) -> bool
    ensures { result ≡ same_bytes word.now spelling.now }
{
    if word.len() != spelling.len() {
        return false;
    }
    for (place, byte) in spelling.iter().enumerate() {
        if word[place] != *byte {
            return false;
        }
    }
    true
}
