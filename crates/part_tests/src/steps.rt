//! The counter that costs nothing.

ghost use Rattle.std.specs.Prelude.{◌≡◌, ◌<◌};

use sig_base::Steps;
use std::marker::Brand;
use std::mem::size_of;
use std::sync::ledger::{Blank, Ledger};
use std::test::*;

fn two_steps<L: Ledger>(blank: Blank) -> usize
    requires name { blank.name ≡ L.name }
    requires parts { blank.parts ≡ L.parts }
    requires some { 0 < blank.parts }
{
    let mut steps: Steps<L> = Steps::begin(blank);
    steps.tick();
    steps.tick();
    size_of::<Steps<L>>()
}

#[test]
fn it_holds_nothing(rt: HostRuntime) {
    assert_eq!(rt; two_steps::<Brand>(Blank::new(1)), 0);
}
