//! The text of a certificate.

ghost use Rattle.std.specs.Prelude.{◌≡◌, ◌++◌, List, ℕ, map, codes, decimal, OnOk, IfOk};
ghost use Rattle.std.specs.List.{flat_map};
ghost use Rattle.model_core.specs.Code.Views.{application_of};
ghost use Rattle.model_core.specs.Rules.Reduction.{Merge};
ghost use Rattle.model_core.specs.Rules.Certificate.{application_line, certificate};

use model_core::Application;
use sig_base::{List, Name, NoMemory, Text, put_bytes, put_counted, put_texts};
use std::alloc::Global;

/// The certificate: a line for each application, in order.
pub fn print_certificate(alloc: Global, applications: &List<Application>) -> Result<Text, NoMemory>
    ensures { IfOk result (λ text. text ≡ certificate (map application_of applications.now)) }
{
    let mut out = Vec::new(alloc);
    put_certificate(&mut out, applications.as_slice())?;
    Ok(Text::from_vec(out))
}

/// Adds the certificate: a line for each application, in order.
pub fn put_certificate(out: &mut Vec<u8>, applications: &[Application]) -> Result<(), NoMemory>
    ensures { OnOk result
        (out.new.items ≡ out.old.items ++ certificate (map application_of applications.now)) }
{
    put_bytes(out, b"certificate\n")?;
    put_applications(out, applications)?;
    put_bytes(out, b"end\n")
}

/// Adds a line for each application, in order.
fn put_applications(out: &mut Vec<u8>, applications: &[Application]) -> Result<(), NoMemory>
    ensures { OnOk result
        (out.new.items
        ≡ out.old.items ++ flat_map application_line (map application_of applications.now)) }
{
    for application in applications {
        put_application(out, application)?;
    }
    Ok(())
}

/// Adds a vertex and the number of its edge, and ends the line.
fn put_edge(out: &mut Vec<u8>, vertex: &Name, edge: u64) -> Result<(), NoMemory>
    ensures { OnOk result
        (out.new.items
        ≡ out.old.items ++ codes " " ++ vertex.now ++ codes " " ++ decimal edge ++ codes "\n") }
{
    put_texts(out, &[b" ", vertex.as_slice()])?;
    put_counted(out, b" ", edge)?;
    put_bytes(out, b"\n")
}

/// Adds the line of a merge.
fn put_merge(out: &mut Vec<u8>, vertex: &Name, target: &Name) -> Result<(), NoMemory>
    ensures { OnOk result
        (out.new.items ≡ out.old.items ++ application_line (Merge vertex.now target.now)) }
{
    put_texts(out, &[b"merge ", vertex.as_slice(), b" "])?;
    put_texts(out, &[target.as_slice(), b"\n"])
}

/// Adds names, each after a space.
fn put_names(out: &mut Vec<u8>, names: &[Name]) -> Result<(), NoMemory>
    ensures { OnOk result
        (out.new.items
        ≡ out.old.items ++ flat_map (λ (name : List ℕ). codes " " ++ name) names.now) }
{
    for name in names {
        put_texts(out, &[b" ", name.as_slice()])?;
    }
    Ok(())
}

/// Adds the line of one application.
fn put_application(out: &mut Vec<u8>, application: &Application) -> Result<(), NoMemory>
    ensures { OnOk result
        (out.new.items ≡ out.old.items ++ application_line (application_of application.now)) }
{
    match application {
        Application::Prune { vertex, edge } => {
            put_bytes(out, b"prune")?;
            put_edge(out, vertex, *edge)
        }
        Application::Settle { vertex, edge } => {
            put_bytes(out, b"settle")?;
            put_edge(out, vertex, *edge)
        }
        Application::Drop { vertices } => {
            put_bytes(out, b"drop")?;
            put_names(out, vertices.as_slice())?;
            put_bytes(out, b"\n")
        }
        Application::Merge { vertex, target } => put_merge(out, vertex, target),
        Application::Slice { vars } => {
            put_bytes(out, b"slice")?;
            put_names(out, vars.as_slice())?;
            put_bytes(out, b"\n")
        }
    }
}
