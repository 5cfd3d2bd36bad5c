//! The symbols of one byte and of two.

ghost use Rattle.std.specs.Prelude.{◌≡◌, [], ◌∷◌};
ghost use Rattle.model_core.specs.Text.Lexing.{symbol_among, Neither};
ghost use Rattle.model_lex.specs.Inner.Fronts.{symbol_front, symbols_of_length};

use model_core::Symbol;

/// The symbol that these two bytes are, if any.
pub(crate) fn symbol_of_two(first: u8, second: u8) -> Option<Symbol>
    ensures { symbol_front 2 result Neither
        ≡ symbol_among (symbols_of_length 2) (first ∷ second ∷ []) }
{
    match (first, second) {
        (b':', b'=') => Some(Symbol::Becomes),
        (b'.', b'.') => Some(Symbol::To),
        (b'<', b'>') => Some(Symbol::NotEqual),
        (b'<', b'=') => Some(Symbol::AtMost),
        (b'>', b'=') => Some(Symbol::AtLeast),
        _ => None,
    }
}

/// The symbol that this byte is, if any.
pub(crate) fn symbol_of_one(byte: u8) -> Option<Symbol>
    ensures { symbol_front 1 result Neither ≡ symbol_among (symbols_of_length 1) (byte ∷ []) }
{
    match byte {
        b';' => Some(Symbol::Semicolon),
        b',' => Some(Symbol::Comma),
        b':' => Some(Symbol::Colon),
        b'=' => Some(Symbol::Equal),
        b'<' => Some(Symbol::Below),
        b'>' => Some(Symbol::Above),
        b'+' => Some(Symbol::Plus),
        b'-' => Some(Symbol::Minus),
        b'*' => Some(Symbol::Times),
        b'/' => Some(Symbol::Over),
        b'%' => Some(Symbol::Percent),
        b'(' => Some(Symbol::OpenParenthesis),
        b')' => Some(Symbol::CloseParenthesis),
        b'[' => Some(Symbol::OpenBracket),
        b']' => Some(Symbol::CloseBracket),
        b'{' => Some(Symbol::OpenBrace),
        b'}' => Some(Symbol::CloseBrace),
        _ => None,
    }
}
