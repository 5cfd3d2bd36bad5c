//! Cuts a text into its tokens; and the errors of readers of tokens.
#![tactic(auto)]

mod classes;
mod front;
mod lex_error;
mod lexer;
mod numbers;
mod order;
mod parse_error;
mod piece;
mod piece_list;
mod runs;
mod symbols;
mod token_list;
mod words;

pub use lex_error::LexError;
pub use lexer::{pieces, tokens};
pub use numbers::literal_value;
pub use order::{pieces_are_in_text, pieces_are_the_tokens, texts_are_cut, tokens_are_in_order};
pub use parse_error::ParseError;
pub use piece::{Piece, PieceKind};
pub use piece_list::Pieces;
pub use token_list::Tokens;
