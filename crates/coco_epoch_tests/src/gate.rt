//! One worker who passes a gate, and two threads who meet at one.

use coco_gate::{Gate, HoldGate, OpenGate};
use std::thread;

#[test]
fn two_workers_meet(rt: HostRuntime) {
    let gate = HoldGate::new(10_000_000);
    thread::join(&rt, || gate.pass(0, 1), || gate.pass(1, 1));
    assert!(rt; gate.met());
}

#[test]
fn a_worker_alone_goes_on_after_its_turns(rt: HostRuntime) {
    let gate = HoldGate::new(3);
    gate.pass(0, 1);
    let is_met_early = gate.met();
    gate.pass(1, 1);
    assert!(rt; !is_met_early && !gate.met());
}

#[test]
fn only_workers_0_and_1_are_held_at_their_first_point_1(rt: HostRuntime) {
    let gate = HoldGate::new(u64::MAX);
    OpenGate.pass(0, 1);
    gate.pass(2, 1);
    gate.pass(0, 2);
    assert!(rt; !gate.met());
}
