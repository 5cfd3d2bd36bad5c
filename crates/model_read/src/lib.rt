//! Reads a model text from its tokens. Also a table of the places of names, for texts that refer to a known model.
#![tactic(auto)]

mod changes;
mod cursor;
mod declarations;
mod edges;
mod expressions;
mod openings;
mod operators;
mod phrase;
mod places;
mod signed;
mod stop;
mod text;
mod token_calls;
mod vertices;

pub use changes::{RawSource, source};
pub use cursor::{Cursor, Spelling};
pub use openings::first_too_deep;
pub use operators::{CONJUNCTIONS, Infix, LEVELS, next_level};
pub use phrase::{Phrase, Repeated, many, packed, separated};
pub use places::Places;
pub use stop::{Stop, with_place};
pub use text::{parse_front_pieces, parse_pieces, read_model_beginning};
pub use token_calls::{parse, parse_front};
pub use vertices::read_vertex_beginning;
