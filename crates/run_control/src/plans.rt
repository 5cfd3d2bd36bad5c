//! The things that edges change: the pending events, and the streams from which delays are drawn.

ghost use Rattle.std.specs.Prelude.{◌≡◌, ◌≤◌, map, true, Some, IsOk, IsSome, OnOk, OnErr};
ghost use Rattle.std.specs.Option.{option_map};
ghost use Rattle.model_core.specs.Run.Pending.{next_entry, without_next};
ghost use Rattle.model_core.specs.Code.Views.{edge_of};
ghost use Rattle.run_control.specs.Room.{scheduled_by};
ghost use Rattle.run_control.specs.Inner.Planning.{PlanKeeps};

use crate::room::make_room;
use event_list::{Entry, Pending};
use model_core::Edge;
use random_streams::Streams;
use sig_base::{NoMemory, Steps};
use std::marker::Model;
use std::sync::ledger::Ledger;

/// The pending events and the random streams of a run. Each event that is scheduled is put into the last part first, so that
/// it needs no place of its own.
#[derive(Drop)]
pub(crate) struct Plans<P: Pending> {
    pub pending: P,
    pub streams: Streams,
    pub scheduled: Entry,
}

impl<P: Pending> Model for Plans<P> {
    ghost use Rattle.run_control.specs.Inner.Planning.{Planning};

    ghost Value = { Planning };

    ghost view = { λ p. record {
      seed = p.streams.seed;
      planned = record { pending = P.entries p.pending; taken = p.streams.taken };
      spare = P.spare p.pending;
      numbered = P.numbered p.pending;
      vertices = P.vertices p.pending;
    } };
}

impl<P: Pending> Plans<P> {
    /// Takes the next event off, which `happening` becomes, once there is room for what these edges schedule.
    #[inline(always)]
    pub fn take_first<L: Ledger>(
        &mut self,
        edges: &[Edge],
        happening: &mut Entry,
        steps: &mut Steps<L>,
    ) -> Result<(), NoMemory>
        requires pending { IsSome (next_entry self.old.planned.pending) }
        ensures gives { OnOk result
            (Some happening.new ≡ option_map (λ n. n.entry) (next_entry self.old.planned.pending)) }
        ensures planned { OnOk result
            (self.new.planned
            ≡ record self.old.planned {
              pending = without_next
                  (λ e. true) self.old.planned.pending;
            }) }
        ensures room { OnOk result (scheduled_by (map edge_of edges.now) ≤ self.new.spare) }
        ensures enough { scheduled_by (map edge_of edges.now) ≤ self.old.spare → IsOk result }
        ensures err { OnErr result (self.new ≡ self.old) }
        ensures keeps { PlanKeeps 0 0 self.old self.new }
    {
        make_room(&mut self.pending, edges)?;
        self.pending.take_first_into(happening, steps);
        Ok(())
    }
}
