//! A certificate as it is printed and as it is read; and a step of a chain that no certificate can spell: a drop of no vertex.

use crate::static_rules::checked;
use model_core::Application;
use model_lex::{ParseError, tokens};
use reduction_cert::{Verdict, check_chain, print_certificate, read_certificate};
use sig_base::{List, Name, NoMemory, Text};
use std::alloc::Global;
use std::test::*;

/// A model to which all five rules apply.
const WHOLE: &[u8] = b"model M; var X : 1..3 = 1; var Y : 0..9 = 0; watch X;
    vertex RUN { schedule B when 5 / X > 9; schedule A after 2 when X < 4; }
    vertex A { urgent C; } vertex B { schedule A; } vertex C { set X := 2; set Y := 2; } end";

/// What they reduce it to.
const REDUCED: &[u8] = b"model M; var X : 1..3 = 1; watch X;
    vertex RUN { schedule A after 2; } vertex A { set X := 2; } end";

/// A prune that is right, and a drop of no vertex.
fn two_steps(alloc: Global) -> Result<List<Application>, NoMemory> {
    let vertex = Name::from_vec(Vec::from_slice(alloc, b"RUN")?);
    let mut applications = List::of_one(alloc, Application::Prune { vertex, edge: 1 })?;
    applications.push(Application::Drop {
        vertices: List::new(alloc),
    })?;
    Ok(applications)
}

/// The verdict on these applications between the two texts.
fn verdict(alloc: Global, applications: &List<Application>) -> Result<Verdict, NoMemory> {
    let original = checked(alloc, WHOLE).map_err(|_| NoMemory)?;
    let reduced = checked(alloc, REDUCED).map_err(|_| NoMemory)?;
    check_chain(alloc, &original, applications, &reduced)
}

#[test]
fn a_drop_of_no_vertex_is_rejected(rt: HostRuntime) -> Result<(), Fail> {
    let applications = two_steps(rt.alloc())?;
    assert_eq!(rt;
        verdict(rt.alloc(), &applications),
        Ok(Verdict::Rejected { line: 2 })
    );
    Ok(())
}

/// A certificate with a line of each rule.
const CERTIFICATE: &[u8] = b"certificate
prune RUN 1
settle RUN 1
drop B C
merge A D
slice Y Z
end
";

fn name(alloc: Global, name: &[u8]) -> Result<Name, NoMemory> {
    Ok(Name::from_vec(Vec::from_slice(alloc, name)?))
}

/// Two names in order.
fn names(alloc: Global, first: &[u8], second: &[u8]) -> Result<List<Name>, NoMemory> {
    let mut names = List::of_one(alloc, name(alloc, first)?)?;
    names.push(name(alloc, second)?)?;
    Ok(names)
}

/// The application to the first edge of `RUN`.
fn first_edge(alloc: Global, settles: bool) -> Result<Application, NoMemory> {
    let vertex = name(alloc, b"RUN")?;
    if settles {
        Ok(Application::Settle { vertex, edge: 1 })
    } else {
        Ok(Application::Prune { vertex, edge: 1 })
    }
}

/// The applications of its lines.
fn one_of_each(alloc: Global) -> Result<List<Application>, NoMemory> {
    let mut applications = List::of_one(alloc, first_edge(alloc, false)?)?;
    applications.push(first_edge(alloc, true)?)?;
    let vertices = names(alloc, b"B", b"C")?;
    applications.push(Application::Drop { vertices })?;
    let vertex = name(alloc, b"A")?;
    let target = name(alloc, b"D")?;
    applications.push(Application::Merge { vertex, target })?;
    let vars = names(alloc, b"Y", b"Z")?;
    applications.push(Application::Slice { vars })?;
    Ok(applications)
}

#[test]
fn a_certificate_is_printed(rt: HostRuntime) -> Result<(), Fail> {
    let applications = one_of_each(rt.alloc())?;
    assert!(rt; print_certificate(rt.alloc(), &applications)?.as_slice() == CERTIFICATE);
    Ok(())
}

/// The certificate that the tokens of a text from a place on are read as, printed again.
fn read_and_printed(alloc: Global, text: &[u8], from: usize) -> Result<Text, ParseError> {
    let tokens = tokens(alloc, text).map_err(|_| ParseError::NoMemory)?;
    if from > tokens.list.len() {
        return Err(ParseError::NoMemory);
    }
    let applications = read_certificate(alloc, &tokens, from)?;
    print_certificate(alloc, &applications).map_err(|_| ParseError::NoMemory)
}

/// The same in one line, after the last token of a model text.
const AFTER_A_MODEL: &[u8] =
    b"end certificate prune RUN 1 settle RUN 1 drop B C merge A D slice Y Z end";

/// Whether the tokens of a text from a place on are read as the certificate.
fn is_read(alloc: Global, text: &[u8], from: usize) -> bool {
    match read_and_printed(alloc, text, from) {
        Ok(printed) => printed.as_slice() == CERTIFICATE,
        Err(_) => false,
    }
}

#[test]
fn a_certificate_is_read(rt: HostRuntime) {
    assert!(rt; is_read(rt.alloc(), CERTIFICATE, 0));
    assert!(rt; is_read(rt.alloc(), AFTER_A_MODEL, 1));
}

/// Where the tokens of a text, all together, stop to begin a certificate.
fn refused_at(alloc: Global, text: &[u8]) -> Option<usize> {
    match read_and_printed(alloc, text, 0) {
        Err(ParseError::Unexpected { at }) => Some(at),
        Err(ParseError::TooDeep { .. }) | Err(ParseError::NoMemory) | Ok(_) => None,
    }
}

#[test]
fn what_is_no_certificate_is_refused_at_its_byte(rt: HostRuntime) {
    for (text, at) in [
        // The name of a vertex has no number after it.
        (b"certificate prune RUN end".as_slice(), 22),
        // The end is missing.
        (b"certificate merge A D".as_slice(), 21),
        // A word comes after the end.
        (b"certificate end end".as_slice(), 16),
    ] {
        assert!(rt; refused_at(rt.alloc(), text) == Some(at));
    }
}
