//! What a byte can begin, by the byte alone.

ghost use Rattle.std.specs.Prelude.{◌≡◌, map};
ghost use Rattle.std.specs.List.{range_with_len};
ghost use Rattle.model_lex.specs.Inner.Classes.{class_of};

use model_core::Symbol;

/// What a byte can begin.
#[derive(Clone, Copy)]
pub(crate) enum Class {
    /// A blank.
    Blank,
    /// A comment.
    Comment,
    /// A name, and no reserved word.
    Name,
    /// A name or a reserved word.
    Word,
    /// A number.
    Digit,
    /// A symbol of two bytes, or perhaps one of one.
    Pair,
    /// A symbol of one byte, and none of two.
    Alone(Symbol),
    /// No token.
    Nothing,
}

// Each class in one short word, so that the table keeps to few lines.
const NO: Class = Class::Nothing;

const BLANK: Class = Class::Blank;

const COMMENT: Class = Class::Comment;

const NAME: Class = Class::Name;

const WORD: Class = Class::Word;

const DIGIT: Class = Class::Digit;

const PAIR: Class = Class::Pair;

const PERCENT: Class = Class::Alone(Symbol::Percent);

const OPEN_GROUP: Class = Class::Alone(Symbol::OpenParenthesis);

const END_GROUP: Class = Class::Alone(Symbol::CloseParenthesis);

const TIMES: Class = Class::Alone(Symbol::Times);

const PLUS: Class = Class::Alone(Symbol::Plus);

const COMMA: Class = Class::Alone(Symbol::Comma);

const MINUS: Class = Class::Alone(Symbol::Minus);

const OVER: Class = Class::Alone(Symbol::Over);

const SEMICOLON: Class = Class::Alone(Symbol::Semicolon);

const EQUAL: Class = Class::Alone(Symbol::Equal);

const OPEN_INDEX: Class = Class::Alone(Symbol::OpenBracket);

const END_INDEX: Class = Class::Alone(Symbol::CloseBracket);

const OPEN_BODY: Class = Class::Alone(Symbol::OpenBrace);

const END_BODY: Class = Class::Alone(Symbol::CloseBrace);

/// For each byte what it can begin. A table, since each token asks it, and each blank that is no space.
fn classes() -> &'static [Class; 256]
    ensures { result.now ≡ map class_of (range_with_len 0 256) }
{
    &[
        NO, NO, NO, NO, NO, NO, NO, NO, NO, BLANK, BLANK, NO, NO, BLANK, NO, NO, NO, NO, NO, NO,
        NO, NO, NO, NO, NO, NO, NO, NO, NO, NO, NO, NO, BLANK, NO, NO, COMMENT, NO, PERCENT, NO,
        NO, OPEN_GROUP, END_GROUP, TIMES, PLUS, COMMA, MINUS, PAIR, OVER, DIGIT, DIGIT, DIGIT,
        DIGIT, DIGIT, DIGIT, DIGIT, DIGIT, DIGIT, DIGIT, PAIR, SEMICOLON, PAIR, EQUAL, PAIR, NO,
        NO, NAME, NAME, NAME, NAME, NAME, NAME, NAME, NAME, NAME, NAME, NAME, NAME, NAME, NAME,
        NAME, NAME, NAME, NAME, NAME, NAME, NAME, NAME, NAME, NAME, NAME, NAME, OPEN_INDEX, NO,
        END_INDEX, NO, NO, NO, WORD, WORD, WORD, WORD, WORD, WORD, NAME, NAME, WORD, NAME, NAME,
        NAME, WORD, WORD, WORD, WORD, NAME, NAME, WORD, WORD, WORD, WORD, WORD, NAME, NAME, NAME,
        OPEN_BODY, NO, END_BODY, NO, NO, NO, NO, NO, NO, NO, NO, NO, NO, NO, NO, NO, NO, NO, NO,
        NO, NO, NO, NO, NO, NO, NO, NO, NO, NO, NO, NO, NO, NO, NO, NO, NO, NO, NO, NO, NO, NO, NO,
        NO, NO, NO, NO, NO, NO, NO, NO, NO, NO, NO, NO, NO, NO, NO, NO, NO, NO, NO, NO, NO, NO, NO,
        NO, NO, NO, NO, NO, NO, NO, NO, NO, NO, NO, NO, NO, NO, NO, NO, NO, NO, NO, NO, NO, NO, NO,
        NO, NO, NO, NO, NO, NO, NO, NO, NO, NO, NO, NO, NO, NO, NO, NO, NO, NO, NO, NO, NO, NO, NO,
        NO, NO, NO, NO, NO, NO, NO, NO, NO, NO, NO, NO, NO, NO, NO, NO, NO, NO, NO, NO, NO, NO,
    ]
}

/// What the byte can begin.
#[inline(always)]
pub(crate) fn class_of(byte: u8) -> Class
    ensures { result ≡ class_of byte }
{
    classes()[usize::from(byte)]
}
