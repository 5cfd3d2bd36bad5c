//! The first fault: of those met so far the one of the least place, and at one place the first of the table.

ghost use Rattle.std.specs.Prelude.{◌≡◌, Bool, None};
ghost use Rattle.std.specs.Option.{option_map};
ghost use Rattle.model_core.specs.Static.FaultOrder.{StaticFault, rule_row, is_earlier_fault, earliest_fault, fault_where};

use model_core::StaticKind;
use std::marker::Model;

/// A broken rule, and the byte at which it is reported.
#[derive(Clone, Copy)]
pub struct Fault {
    pub at: usize,
    pub kind: StaticKind,
}

/// The first fault, which contracts see as the plain one.
#[derive(Drop)]
pub struct FirstFault {
    fault: Option<Fault>,
}

impl Model for FirstFault {
    ghost use Rattle.std.specs.Prelude.{Option};
    ghost use Rattle.std.specs.Option.{option_map};
    ghost use Rattle.model_core.specs.Static.FaultOrder.{StaticFault};
    ghost use Rattle.sig_types.specs.declared.first_fault.Fault.{Fault};

    ghost Value = { Option StaticFault };

    ghost view = { λ t. option_map (λ (f : Fault). record { at = f.at; kind = f.kind }) t.fault };
}

/// The row of a rule in the table.
fn row(kind: StaticKind) -> u8
    ensures { result ≡ rule_row kind }
{
    kind as u8
}

/// Whether the first of two faults comes first: by place, and at one place by row.
fn is_before(a: Fault, b: Fault) -> bool
    ensures { result
        ≡ is_earlier_fault (record { at = a.at; kind = a.kind })
        (record { at = b.at; kind = b.kind }) }
{
    a.at < b.at || a.at == b.at && row(a.kind) < row(b.kind)
}

impl FirstFault {
    /// No fault.
    pub fn new() -> FirstFault
        ensures { result ≡ None }
    {
        FirstFault { fault: None }
    }

    /// The first fault, where one was found.
    pub fn first_fault(&self) -> Option<Fault>
        ensures { self.now ≡ option_map (λ f. record { at = f.at; kind = f.kind }) result }
    {
        self.fault
    }

    /// Notes a fault, where it holds that the rule is broken.
    pub fn note(&mut self, broken: bool, kind: StaticKind, at: usize)
        ensures { self.new ≡ earliest_fault self.old (fault_where broken kind at) }
    {
        if broken {
            self.keep(Fault { at, kind });
        }
    }

    /// Keeps a fault where it comes before the one that is kept.
    fn keep(&mut self, fault: Fault)
        ensures { self.new ≡ earliest_fault self.old (fault_where Bool.true fault.kind fault.at) }
    {
        match self.fault {
            None => self.fault = Some(fault),
            Some(kept) => {
                if is_before(fault, kept) {
                    self.fault = Some(fault);
                }
            }
        }
    }
}
