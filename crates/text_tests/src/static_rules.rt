//! Texts that keep all static rules: they are read in one pass, as the models that they spell. Texts of no model: they are refused
//! in that pass.

use model_core::{Model, RawModel, same_model};
use model_lex::{ParseError, pieces, tokens};
use model_read::parse;
use one_pass::{OnePassError, read_model};
use sig_base::NoMemory;
use sig_types::{StaticError, check};
use std::alloc::Global;
use std::test::*;

fn read(alloc: Global, text: &[u8]) -> Result<RawModel, ParseError> {
    let tokens = tokens(alloc, text).map_err(|_| ParseError::NoMemory)?;
    parse(alloc, &tokens)
}

/// The model that a text spells, where its grammar is right.
pub fn checked(alloc: Global, text: &[u8]) -> Result<Model, StaticError> {
    match read(alloc, text) {
        Ok(raw) => check(alloc, raw),
        Err(_) => Err(StaticError::NoMemory),
    }
}

/// What reading a text in one pass answers.
fn read_at_once(alloc: Global, text: &[u8]) -> Result<Model, OnePassError> {
    let pieces = pieces(alloc, text).map_err(|_| OnePassError::NoMemory)?;
    read_model(alloc, &pieces)
}

/// Whether a text is read in one pass, as the model that it spells.
fn is_read_at_once(alloc: Global, text: &[u8]) -> bool {
    match (checked(alloc, text), read_at_once(alloc, text)) {
        (Ok(model), Ok(at_once)) => same_model(&model, &at_once),
        _ => false,
    }
}

#[test]
fn what_is_no_text_is_refused_at_once(rt: HostRuntime) {
    for (text, at) in [
        (b"".as_slice(), 0),
        (b"model M; var X : 0..9 = ;", 24),
        (b"model M; vertex { } end", 16),
        (b"model M; vertex RUN { set X := ; } end", 31),
        (b"model M; vertex RUN { } vertex } vertex END { } end", 31),
        (b"model M; vertex RUN { } edge vertex END { } end", 24),
        (b"model M; vertex RUN { } end vertex END { } end", 28),
        (b"model M; vertex RUN { }", 23),
        (b"model M; vertex RUN { schedule END; } end end", 42),
    ] {
        let read = read_at_once(rt.alloc(), text).map(|_| ());
        assert_eq!(rt; read, Err(OnePassError::Unexpected { at }));
    }
}

#[test]
fn a_model_that_breaks_no_rule_is_accepted(rt: HostRuntime) {
    let text =
        b"version 2; model M; var B : bool = true; var X[2] : 0..9 clip = 1; var Y : -4..4 = -1;
        table T { -1 : 2; 3 : 4294967294; } watch B, RUN;
        vertex RUN { set B, X[Y + 1] := not B, if B then min(Y, 3) else 4; draw Y from 63 by T; schedule SET(Y, clk = 3);
            schedule RUN after draw from 7 in -1..6 priority 9 when B; schedule RUN after draw from 63 by T; }
        vertex SET(Y, B) { draw X[0] from 0 in 0..4294967295; cancel SET(2, true) when B; cancel all RUN; urgent RUN; }
        end";
    let vertices = checked(rt.alloc(), text).map(|model| model.vertices.len());
    assert_eq!(rt; vertices, Ok(2));
    assert!(rt; is_read_at_once(rt.alloc(), text));
}

#[test]
fn texts_that_say_their_version_are_read_at_once(rt: HostRuntime) {
    for text in [
        b"version 1; model M; vertex RUN { } end".as_slice(),
        b"version 2; model M; vertex RUN { } end",
        // With nine parameters.
        b"version 2; model M; var A[4097] : 0..9 = 0; var B : 0..9 = 0; var C : 0..9 = 0; var D : 0..9 = 0; var E : 0..9 = 0;
            var F : 0..9 = 0; var G : 0..9 = 0; var H : 0..9 = 0; var I : 0..9 = 0; var J : 0..9 = 0;
            vertex RUN(B, C, D, E, F, G, H, I, J) { } end",
    ] {
        assert!(rt; is_read_at_once(rt.alloc(), text));
    }
}

/// A text with 256 arrays of 65,536 cells, which is as many as may be, and with this after them.
fn with_most_cells(alloc: Global, rest: &[u8]) -> Result<Vec<u8>, NoMemory> {
    let mut text = Vec::from_slice(alloc, b"version 2; model M; ")?;
    for first in b'A'..b'Q' {
        for second in b'A'..b'Q' {
            text.extend_from_slice(b"var ")?;
            text.push(first)?;
            text.push(second)?;
            text.extend_from_slice(b"[65536] : 0..9 = 0; ")?;
        }
    }
    text.extend_from_slice(rest)?;
    Ok(text)
}

#[test]
fn as_many_cells_as_may_be_are_read_at_once(rt: HostRuntime) -> Result<(), Fail> {
    let text = with_most_cells(rt.alloc(), b"vertex RUN { } end")?;
    assert!(rt; is_read_at_once(rt.alloc(), text.as_slice()));
    // One cell more is one too many.
    let text = with_most_cells(rt.alloc(), b"var X[1] : 0..9 = 0; vertex RUN { } end")?;
    assert!(rt; !is_read_at_once(rt.alloc(), text.as_slice()));
    Ok(())
}
