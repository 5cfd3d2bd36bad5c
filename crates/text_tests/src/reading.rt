//! What is read of a text, and texts one after the other.

use model_core::RawModel;
use model_lex::{LexError, ParseError, tokens};
use model_read::{parse, parse_front};
use sig_base::NoMemory;
use std::alloc::Global;
use std::test::*;

/// Why a text is refused.
#[derive(Clone, Copy, Debug, PartialEq, Eq)]
enum Refused {
    BadByte(usize),
    Unexpected(usize),
    TooDeep(usize),
    NoMemory,
}

impl From<LexError> for Refused {
    fn from(error: LexError) -> Refused {
        match error {
            LexError::BadByte { at } => Refused::BadByte(at),
            LexError::NoMemory => Refused::NoMemory,
        }
    }
}

impl From<ParseError> for Refused {
    fn from(error: ParseError) -> Refused {
        match error {
            ParseError::Unexpected { at } => Refused::Unexpected(at),
            ParseError::TooDeep { at } => Refused::TooDeep(at),
            ParseError::NoMemory => Refused::NoMemory,
        }
    }
}

fn read(alloc: Global, text: &[u8]) -> Result<RawModel, Refused> {
    let tokens = tokens(alloc, text)?;
    Ok(parse(alloc, &tokens)?)
}

const BANK: &[u8] = b"model BANK;
var QUEUE : 0..1000000 = 0;
var IDLE : 0..2 = 0;
var GAP : 1..6 = 1;
var SEEN : 0..1000000 clip = 0;
watch QUEUE, IDLE;
vertex RUN(IDLE) {
  urgent ENTER;
}
vertex ENTER {
  set QUEUE, SEEN := QUEUE + 1, SEEN + 1;
  draw GAP from 54 in 1..6;
  schedule ENTER after GAP;
  urgent START when IDLE > 0;
}
vertex START {
  set QUEUE, IDLE := QUEUE - 1, IDLE - 1;
  schedule LEAVE after 7;
}
vertex LEAVE {
  set IDLE := IDLE + 1;
  urgent START when QUEUE > 0;
}
end
";

/// How many changes and edges the vertex has.
fn counts(model: &RawModel, place: usize) -> Option<(usize, usize)> {
    let vertex = model.vertices.as_slice().get(place)?;
    Some((vertex.changes.len(), vertex.edges.len()))
}

/// Whether this is the bank as it is written: its names and places, and how many parts it has.
fn is_the_bank(model: &RawModel) -> bool {
    model.name.name.as_slice() == b"BANK".as_slice()
        && (model.at == 0 && model.name.at == 6 && model.end_at == 471)
        && (model.vars.len() == 4 && model.tables.len() == 0 && model.vertices.len() == 4)
        && counts(model, 1) == Some((2, 2))
}

#[test]
fn a_text_is_read_with_its_names_and_places(rt: HostRuntime) -> Result<(), Fail> {
    let model = read(rt.alloc(), BANK)?;
    assert!(rt; is_the_bank(&model));
    Ok(())
}

const TWO: &[u8] = b"model ONE; vertex A { } end model TWO; vertex B { } end prune A 1";

/// So many bytes of the text.
fn prefix(text: &[u8], length: usize) -> &[u8] {
    match text.get(..length) {
        Some(prefix) => prefix,
        None => text,
    }
}

/// The place of the model's name, where the tokens from a place on begin with a model, and the
/// place after the model.
fn front(alloc: Global, text: &[u8], from: usize) -> Result<(usize, usize), Refused> {
    let tokens = tokens(alloc, text)?;
    if from > tokens.list.len() {
        return Err(Refused::NoMemory);
    }
    let (model, after) = parse_front(alloc, &tokens, from)?;
    Ok((model.name.at, after))
}

#[test]
fn texts_one_after_another_are_read_in_turn(rt: HostRuntime) {
    for (length, from, read) in [
        (65, 0, Ok((6, 8))),
        (65, 8, Ok((34, 16))),
        (65, 16, Err(Refused::Unexpected(56))),
        (65, 19, Err(Refused::Unexpected(65))),
        // Without its end the second text ends where the document does.
        (51, 8, Err(Refused::Unexpected(51))),
    ] {
        assert_eq!(rt; front(rt.alloc(), prefix(TWO, length), from), read);
    }
}

/// So many times the part.
fn repeated(text: &mut Vec<u8>, part: &[u8], times: usize) -> Result<(), NoMemory> {
    for _ in 0..times {
        text.extend_from_slice(part)?;
    }
    Ok(())
}

#[test]
fn openings_after_a_text_are_none_of_its_own(rt: HostRuntime) -> Result<(), Fail> {
    let mut text = Vec::from_slice(rt.alloc(), b"model ONE; vertex A { } end ")?;
    repeated(&mut text, b"(", 257)?;
    for (from, read) in [(0, Ok((6, 8))), (8, Err(Refused::TooDeep(284)))] {
        assert_eq!(rt; front(rt.alloc(), text.as_slice(), from), read);
    }
    Ok(())
}
