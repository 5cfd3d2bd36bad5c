//! The lines of a summary.

ghost use Rattle.std.specs.Prelude.{◌≡◌, ◌-◌, ◌^◌, ◌++◌, min, map, length, OnOk};
ghost use Rattle.std.specs.List.{sum_by};
ghost use Rattle.model_core.specs.Static.Reading.{IsValid};
ghost use Rattle.model_core.specs.Code.Views.{graph_of, vertex_of};
ghost use Rattle.trial_report.specs.Inner.RunMeasures.{standing_text, measure_line};
ghost use Rattle.trial_report.specs.TrialText.{edges_in, size_line, applications_line};

use crate::run_measure::RunMeasure;
use model_core::{Model, Vertex};
use round_trip::validity_is_by_parts;
use sig_base::{NoMemory, put_bytes, put_counted, put_number, put_texts};
use watch_trace::{Outcome, fault_word};

/// How many edges vertices have, or the last count where they are more.
fn edges_of(vertices: &[Vertex]) -> u64
    ensures { result
        ≡ min (sum_by (λ v. length v.edges) (map vertex_of vertices.now)) (2 ^ 64 - 1) }
{
    let mut edges: u64 = 0;
    for vertex in vertices {
        edges = edges.saturating_add(vertex.edges.len() as u64);
    }
    edges
}

/// How many edges a valid model has.
fn edges_in(model: &Model) -> u64
    requires { IsValid (graph_of model.now) }
    ensures { result ≡ edges_in (graph_of model.now) }
{
    validity_is_by_parts();
    edges_of(model.vertices.as_slice())
}

/// Puts how large a model is.
pub(crate) fn put_size(out: &mut Vec<u8>, name: &[u8], model: &Model) -> Result<(), NoMemory>
    requires { IsValid (graph_of model.now) }
    ensures { OnOk result
        (out.new.items ≡ out.old.items ++ size_line name.now (graph_of model.now)) }
{
    put_bytes(out, name)?;
    put_counted(out, b" vertices ", model.vertices.len() as u64)?;
    put_counted(out, b" variables ", model.vars.len() as u64)?;
    put_counted(out, b" edges ", edges_in(model))?;
    put_bytes(out, b"\n")
}

/// Puts how many rules were applied.
pub(crate) fn put_applications(out: &mut Vec<u8>, applications: usize) -> Result<(), NoMemory>
    ensures { OnOk result (out.new.items ≡ out.old.items ++ applications_line applications) }
{
    put_bytes(out, b"applications ")?;
    put_number(out, applications as u64)?;
    put_bytes(out, b"\n")
}

/// Puts the standing of a run, as its end line has it.
fn put_standing(
    out: &mut Vec<u8>,
    until: u64,
    events: u64,
    outcome: Outcome,
) -> Result<(), NoMemory>
    ensures { OnOk result (out.new.items ≡ out.old.items ++ standing_text until events outcome) }
{
    match outcome {
        Outcome::Ended { time } => put_counted(out, b"ended ", time),
        Outcome::Stopped => put_counted(out, b"stopped ", until),
        Outcome::Faulted { time, kind } => {
            put_counted(out, b"fault ", time)?;
            put_texts(out, &[b" ", fault_word(kind)])
        }
        Outcome::Budget => put_counted(out, b"budget ", events),
        Outcome::WriteFault | Outcome::NoMemory => Ok(()),
    }
}

/// Puts how a run went.
pub(crate) fn put_run(
    out: &mut Vec<u8>,
    name: &[u8],
    until: u64,
    events: u64,
    run: RunMeasure,
) -> Result<(), NoMemory>
    ensures { OnOk result
        (out.new.items ≡ out.old.items ++ measure_line name.now until events run) }
{
    put_texts(out, &[name, b" "])?;
    put_standing(out, until, events, run.outcome)?;
    put_counted(out, b" events ", run.events)?;
    put_counted(out, b" notes ", run.notes)?;
    put_bytes(out, b"\n")
}
