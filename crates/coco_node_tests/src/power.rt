//! A script stops where it says, and nowhere else.

use coco_power::{Power, ScriptPower, SteadyPower};
use std::test::Fail;

// Asks for all points of two nodes in one epoch, and counts the stops.
fn stops_in_epoch<P: Power>(power: &mut P) -> u32 {
    let mut stops = 0u32;
    for point in 1..7 {
        for node in 0..2 {
            if power.stops(node, point) {
                stops = stops.saturating_add(1);
            }
        }
    }
    stops
}

#[test]
fn a_script_stops_in_its_epoch_alone(rt: HostRuntime) -> Result<(), Fail> {
    let mut power = ScriptPower::new(vec![in rt.alloc(); (2, 1, 3), (2, 0, 6), (3, 5, 1)]?);
    for (epoch, stops) in [(1u8, 0), (2, 2), (3, 0)] {
        assert!(rt; stops_in_epoch(&mut power) == stops, "{epoch}");
    }
    let steady = stops_in_epoch(&mut SteadyPower::new());
    assert!(rt; power.stops(5, 1) && steady == 0);
    Ok(())
}
