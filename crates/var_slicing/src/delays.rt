//! The streams from which delays are drawn, and the variables that are drawn from them too.

ghost use Rattle.std.specs.Prelude.{◌≡◌, ◌++◌, OnOk};
ghost use Rattle.model_core.specs.Rules.Uses.{edge_streams};
ghost use Rattle.model_core.specs.Rules.Needed.{drawn_from};
ghost use Rattle.model_core.specs.Code.Views.{edge_of};
ghost use Rattle.var_slicing.specs.Inner.Needing.{with_stream, with_streams};

use crate::streams::StreamDraw;
use model_core::{Delay, Edge, EdgeForm};
use sig_base::NoMemory;

/// Adds a stream, unless it is one of these, which are few.
fn add_stream(streams: &mut Vec<usize>, stream: usize) -> Result<(), NoMemory>
    ensures { OnOk result (streams.new.items ≡ with_stream streams.old.items stream) }
{
    if !streams.as_slice().contains(&stream) {
        streams.push(stream)?;
    }
    Ok(())
}

/// Adds the stream of an edge's delay, where it is drawn.
pub(crate) fn add_delay_stream(streams: &mut Vec<usize>, edge: &Edge) -> Result<(), NoMemory>
    ensures { OnOk result
        (streams.new.items ≡ with_streams streams.old.items (edge_streams (edge_of edge.now))) }
{
    match &edge.form {
        EdgeForm::Schedule { delay, priority: _ } => match delay {
            Delay::Fixed(_) => Ok(()),
            Delay::Drawn { stream, choice: _ } => add_stream(streams, usize::from(*stream)),
        },
        EdgeForm::Urgent | EdgeForm::CancelNext | EdgeForm::CancelEqual | EdgeForm::CancelAll => {
            Ok(())
        }
    }
}

/// Adds the variables that are drawn from these streams.
pub(crate) fn add_drawn_from(
    out: &mut Vec<usize>,
    streams: &[usize],
    draws: &[StreamDraw],
) -> Result<(), NoMemory>
    ensures { OnOk result (out.new.items ≡ out.old.items ++ drawn_from streams.now draws.now) }
{
    for draw in draws {
        let (stream, var) = *draw;
        if streams.contains(&stream) {
            out.push(var)?;
        }
    }
    Ok(())
}
