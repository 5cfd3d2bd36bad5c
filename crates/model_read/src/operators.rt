//! The operators between two operands, and their levels.

ghost use Rattle.std.specs.Prelude.{◌≡◌, ℕ, List, Some};
ghost use Rattle.std.specs.Option.{option_map};
ghost use Rattle.model_lex.specs.PieceViews.{piece_kind};
ghost use Rattle.model_core.specs.Code.Views.{operator_of};
ghost use Rattle.model_core.specs.Text.Lexing.{Reserved, Mark};
ghost use Rattle.text_laws.specs.Ladder.{infix_of_kind, next_level};
ghost use Rattle.model_read.specs.Infixes.{infix_of};

use model_core::{Op, Symbol, Word};
use model_lex::PieceKind;

/// An operator between two operands. A level that is higher binds more loosely: 0 for products, 1 for sums, 2 for
/// comparisons, 3 for `and`, 4 for `or`.
#[derive(Clone, Copy)]
pub struct Infix {
    pub op: Op,
    pub level: usize,
}

/// The levels are those below this number.
pub const LEVELS: usize = 5;

/// The level of comparisons, which don't chain.
const COMPARISONS: usize = 2;

/// The level of `and`, the first whose operands may begin with `not`.
pub const CONJUNCTIONS: usize = 3;

/// The least level of an operator that may come after one of the level and its operands.
pub fn next_level(level: usize) -> usize
    ensures { result ≡ next_level level }
{
    if level == COMPARISONS {
        CONJUNCTIONS
    } else {
        level
    }
}

/// The operator that a token of the kind is, if any.
pub(crate) fn infix_of(kind: PieceKind) -> Option<Infix>
    ensures { (bytes : List ℕ)
        → option_map infix_of result ≡ infix_of_kind (piece_kind bytes kind) }
{
    match kind {
        PieceKind::Symbol(symbol) => infix_symbol(symbol),
        PieceKind::Word(word) => infix_word(word),
        PieceKind::Name | PieceKind::Number => None,
    }
}

/// The operator with its level.
fn some_infix(level: usize, op: Op) -> Option<Infix>
    ensures { option_map infix_of result ≡ Some (level, operator_of op) }
{
    Some(Infix { op, level })
}

/// The operator that the symbol is, if any.
fn infix_symbol(symbol: Symbol) -> Option<Infix>
    ensures { option_map infix_of result ≡ infix_of_kind (Mark symbol) }
{
    match symbol {
        Symbol::Times => some_infix(0, Op::Mul),
        Symbol::Over => some_infix(0, Op::Div),
        Symbol::Percent => some_infix(0, Op::Rem),
        Symbol::Plus => some_infix(1, Op::Add),
        Symbol::Minus => some_infix(1, Op::Sub),
        Symbol::Equal => some_infix(2, Op::Eq),
        Symbol::NotEqual => some_infix(2, Op::Ne),
        Symbol::Below => some_infix(2, Op::Lt),
        Symbol::AtMost => some_infix(2, Op::Le),
        Symbol::Above => some_infix(2, Op::Gt),
        Symbol::AtLeast => some_infix(2, Op::Ge),
        _ => None,
    }
}

/// The operator that the word is, if any.
fn infix_word(word: Word) -> Option<Infix>
    ensures { option_map infix_of result ≡ infix_of_kind (Reserved word) }
{
    match word {
        Word::And => some_infix(3, Op::And),
        Word::Or => some_infix(4, Op::Or),
        _ => None,
    }
}
