//! Stores of one, two and three nodes, over nets that lose, repeat and reorder letters, and with nodes that stop: what two
//! lines are answered, and what the files tell behind a crash.

ghost use Rattle.std.specs.Prelude.{◌≡◌, ◌≤◌, []};

use crate::one_lost::OneLost;
use coco_commands::{RunBounds, dump, run, verify};
use coco_ending::Ending;
use coco_gate::OpenGate;
use coco_host::MemoryHost;
use coco_init::init;
use coco_io::MemorySource;
use coco_net::{FloodNet, Lose, Net, QuietNet, ScriptNet};
use coco_power::{Power, ScriptPower, SteadyPower};
use coco_types::NoMemory;
use std::alloc::Global;
use std::sync::Wait;
use std::test::Fail;
use std::thread::Threads;
use std::time::Clock;

// How many nodes a store has. There are as many partitions, and each node has all of them.
#[derive(Clone, Copy, Debug)]
enum Nodes {
    One,
    Two,
    Three,
}

// What carries the letters.
#[derive(Clone, Copy, Debug)]
enum Over {
    // Each letter comes once.
    Quiet,
    // What is sent for the first time is lost. What is sent again comes twice, and the last letter to a place first.
    FirstLost,
    // Each round gives all letters that were ever sent.
    Flood,
    // Each letter comes two hundred times.
    Often,
    // What is sent to the third node is lost.
    WithoutThird,
    // The same. All else comes twice, and the last letter to a place first.
    TwiceWithoutThird,
    // All is lost.
    Silence,
}

// An epoch, a node that stops in it, and the point at which it does.
type Stop = (u64, u8, u8);

fn input_of(alloc: Global, text: &str) -> Result<MemorySource, NoMemory> {
    let bytes = Vec::from_slice(alloc, text.as_bytes())?;
    Ok(MemorySource::new(bytes, Vec::new(alloc)))
}

// A new store with this text.
fn new_store(alloc: Global, nodes: Nodes, text: &str) -> Result<MemoryHost, NoMemory> {
    let mut host = MemoryHost::new(alloc, Vec::new(alloc));
    let mut input = input_of(alloc, text)?;
    let _ = match nodes {
        Nodes::One => init(alloc, &mut host, &mut input, 1, 1, 0),
        Nodes::Two => init(alloc, &mut host, &mut input, 2, 2, 1),
        Nodes::Three => init(alloc, &mut host, &mut input, 3, 3, 2),
    };
    Ok(host)
}

// How a run of these lines ends, each of them in an epoch of its own.
fn ended<R: Threads + Wait + Clock + Sync, N: Net + Sync, P: Power>(
    rt: &R,
    alloc: Global,
    host: &mut MemoryHost,
    net: &mut N,
    power: &mut P,
    text: &str,
) -> Result<Ending, NoMemory>
    requires { N.sent net.old ≡ [] }
{
    let mut input = input_of(alloc, text)?;
    let bounds = RunBounds {
        size: 1,
        workers: 1,
        attempts: 3,
    };
    Ok(run(rt, alloc, host, net, power, &mut input, bounds, &OpenGate))
}

// How it ends over a net that follows such a script.
fn ended_by_script<R: Threads + Wait + Clock + Sync, P: Power>(
    rt: &R,
    alloc: Global,
    host: &mut MemoryHost,
    script: (Lose, bool, u8),
    power: &mut P,
    text: &str,
) -> Result<Ending, NoMemory>
    requires { 1 ≤ script.2 }
{
    let (lose, reverse, times) = script;
    let mut net = ScriptNet::new(alloc, lose, reverse, times);
    ended(rt, alloc, host, &mut net, power, text)
}

// How it ends over such a net, with these stops.
fn ended_over<R: Threads + Wait + Clock + Sync>(
    rt: &R,
    alloc: Global,
    host: &mut MemoryHost,
    over: Over,
    stops: &[Stop],
    text: &str,
) -> Result<Ending, NoMemory> {
    let mut stops = ScriptPower::new(Vec::from_slice(alloc, stops)?);
    let power = &mut stops;
    match over {
        Over::Quiet => ended(rt, alloc, host, &mut QuietNet::new(alloc), power, text),
        Over::Flood => ended(rt, alloc, host, &mut FloodNet::new(alloc), power, text),
        Over::FirstLost => {
            ended_by_script(rt, alloc, host, (Lose::FirstSend, true, 2), power, text)
        }
        Over::Often => ended_by_script(rt, alloc, host, (Lose::Nothing, true, 200), power, text),
        Over::WithoutThird => {
            ended_by_script(rt, alloc, host, (Lose::To(2), false, 1), power, text)
        }
        Over::TwiceWithoutThird => {
            ended_by_script(rt, alloc, host, (Lose::To(2), true, 2), power, text)
        }
        Over::Silence => ended_by_script(rt, alloc, host, (Lose::All, false, 1), power, text),
    }
}

const LINES: &str = r#"{"args":[5,70],"call":"put","id":1}
{"args":[5],"call":"get","id":2}
"#;

const FIRST: &str = r#"{"args":[5,70],"call":"put","id":1}
"#;

const THIRD: &str = r#"{"args":[5,71],"call":"put","id":3}
"#;

// What both lines are answered in these two epochs.
fn answers(alloc: Global, epochs: (u64, u64)) -> Result<String, NoMemory> {
    let (first, second) = epochs;
    Ok(format!(in alloc;
        "{{\"epoch\":{first},\"id\":1,\"ok\":70,\"time\":1}}\n{{\"epoch\":{second},\"id\":2,\"ok\":70,\"time\":1}}\n"
    )?)
}

// What a store tells of them.
fn history(alloc: Global, epochs: (u64, u64)) -> Result<String, NoMemory> {
    let (first, second) = epochs;
    Ok(format!(in alloc;
        "{{\"args\":[5,70],\"call\":\"put\",\"epoch\":{first},\"id\":1,\"ok\":70,\"snapshot\":false,\"time\":1}}\n\
{{\"args\":[5],\"call\":\"get\",\"epoch\":{second},\"id\":2,\"ok\":70,\"snapshot\":false,\"time\":1}}\n\
{{\"row\":5,\"table\":\"main\",\"value\":70}}\nserial 2\n"
    )?)
}

// What a store tells behind a crash.
fn told(alloc: Global, host: MemoryHost) -> Result<MemoryHost, NoMemory> {
    let mut host = host.crash(0)?;
    let _ = dump(alloc, &mut host);
    let _ = verify(alloc, &mut host);
    Ok(host)
}

// Whether a run that ended so has answered both lines in these epochs, and the store tells them.
fn went_so(
    alloc: Global,
    host: MemoryHost,
    ending: Ending,
    epochs: (u64, u64),
) -> Result<bool, NoMemory> {
    let is_said = host.said() == answers(alloc, epochs)?.as_bytes();
    let told = told(alloc, host)?;
    let is_told = told.said() == history(alloc, epochs)?.as_bytes();
    Ok(ending == Ending::Finished && is_said && is_told)
}

// Whether both lines go so on a new store.
fn goes_so<R: Threads + Wait + Clock + Sync>(
    rt: &R,
    alloc: Global,
    nodes: Nodes,
    over: Over,
    stops: &[Stop],
    epochs: (u64, u64),
) -> Result<bool, NoMemory> {
    let mut host = new_store(alloc, nodes, "")?;
    let ending = ended_over(rt, alloc, &mut host, over, stops, LINES)?;
    went_so(alloc, host, ending, epochs)
}

#[test]
fn letters_are_lost_repeated_and_turned_round(rt: HostRuntime) -> Result<(), Fail> {
    for nodes in [Nodes::One, Nodes::Two, Nodes::Three] {
        for over in [Over::Quiet, Over::FirstLost, Over::Flood, Over::Often] {
            assert!(rt;
                goes_so(&rt, rt.alloc(), nodes, over, &[], (1, 2))?,
                "{nodes:?} {over:?}"
            );
        }
    }
    Ok(())
}

// Whether both lines go well where the letter of this number is lost, none where there is no such letter.
fn bears_a_loss<R: Threads + Wait + Clock + Sync>(
    rt: &R,
    alloc: Global,
    nodes: Nodes,
    number: u32,
) -> Result<Option<bool>, NoMemory> {
    let mut net = OneLost::new(alloc, number);
    let mut power = SteadyPower::new();
    let mut host = new_store(alloc, nodes, "")?;
    let ending = ended(rt, alloc, &mut host, &mut net, &mut power, LINES)?;
    if !net.has_lost() {
        return Ok(None);
    }
    Ok(Some(went_so(alloc, host, ending, (1, 2))?))
}

// How many letters two epochs take, each of which may be lost.
fn letters<R: Threads + Wait + Clock + Sync>(
    rt: &R,
    alloc: Global,
    nodes: Nodes,
) -> Result<Option<u32>, NoMemory> {
    for number in 0..100 {
        match bears_a_loss(rt, alloc, nodes, number)? {
            Some(true) => {}
            Some(false) => return Ok(None),
            None => return Ok(Some(number)),
        }
    }
    Ok(None)
}

// In an epoch each node is asked for its vote and told of the commit, and answers both; and each copy is told the pieces of
// its partition and answers that it has all. The row is shipped to each copy.
#[test]
fn each_letter_is_lost_once(rt: HostRuntime) -> Result<(), Fail> {
    for (nodes, count) in [(Nodes::One, 8), (Nodes::Two, 25), (Nodes::Three, 50)] {
        let letters = letters(&rt, rt.alloc(), nodes)?;
        assert!(rt; letters == Some(count), "{nodes:?} {letters:?}");
    }
    Ok(())
}

// The epochs of both lines, where a node stops at this point of this one. Before its entry an epoch is lost, and its number.
fn epochs_behind(epoch: u64, point: u8) -> (u64, u64) {
    match (epoch, point) {
        (1, 1..=3) => (2, 3),
        (_, 1..=3) => (1, 3),
        _ => (1, 2),
    }
}

// The point at which a stop of this node, in either epoch, isn't borne well.
fn bad_point<R: Threads + Wait + Clock + Sync>(
    rt: &R,
    alloc: Global,
    nodes: Nodes,
    node: u8,
    over: Over,
) -> Result<Option<u8>, NoMemory> {
    for point in 1..7 {
        for epoch in 1..3 {
            let stops = [(epoch, node, point)];
            let epochs = epochs_behind(epoch, point);
            if !goes_so(rt, alloc, nodes, over, &stops, epochs)? {
                return Ok(Some(point));
            }
        }
    }
    Ok(None)
}

#[test]
fn a_node_stops_at_each_point(rt: HostRuntime) -> Result<(), Fail> {
    let stopping = [
        (Nodes::One, 0),
        (Nodes::Two, 0),
        (Nodes::Two, 1),
        (Nodes::Three, 0),
        (Nodes::Three, 1),
        (Nodes::Three, 2),
    ];
    for (nodes, node) in stopping {
        for over in [Over::Quiet, Over::FirstLost, Over::Flood] {
            let bad = bad_point(&rt, rt.alloc(), nodes, node, over)?;
            assert!(rt; bad.is_none(), "node {node} of {nodes:?} {over:?}: {bad:?}");
        }
    }
    Ok(())
}

// Whether nothing comes of a line over such a net, with these stops: nothing is said, and the store tells what it told
// behind the lines before, with or without a history.
fn comes_to_nothing<R: Threads + Wait + Clock + Sync>(
    rt: &R,
    alloc: Global,
    nodes: Nodes,
    over: Over,
    stops: &[Stop],
    lines: (&str, &str),
) -> Result<bool, NoMemory> {
    let (before, line) = lines;
    let mut host = new_store(alloc, nodes, "")?;
    ended_over(rt, alloc, &mut host, Over::Quiet, &[], before)?;
    let mut host = told(alloc, host)?;
    let said = host.said().to_vec(alloc)?;
    let ending = ended_over(rt, alloc, &mut host, over, stops, line)?;
    let is_silent = ending == Ending::Unreachable && host.said() == said.as_slice();
    let told = told(alloc, host)?;
    Ok(is_silent && told.said() == said.as_slice())
}

// Four stops in a row before the entry, at different points of different nodes.
const STOPS: [Stop; 4] = [(1, 0, 1), (2, 1, 2), (3, 2, 3), (4, 0, 3)];

#[test]
fn nothing_comes_of_four_lost_epochs(rt: HostRuntime) -> Result<(), Fail> {
    let cases = [
        (Nodes::One, Over::Silence, &STOPS[..0]),
        (Nodes::Two, Over::Silence, &STOPS[..0]),
        (Nodes::Three, Over::Silence, &STOPS[..0]),
        (Nodes::Three, Over::WithoutThird, &STOPS[..0]),
        (Nodes::Three, Over::TwiceWithoutThird, &STOPS[..0]),
        (Nodes::Three, Over::Quiet, &STOPS[..]),
        (Nodes::Three, Over::FirstLost, &STOPS[..]),
    ];
    for (nodes, over, stops) in cases {
        for lines in [("", FIRST), (LINES, THIRD)] {
            assert!(rt;
                comes_to_nothing(&rt, rt.alloc(), nodes, over, stops, lines)?,
                "{nodes:?} {over:?} {lines:?}"
            );
        }
    }
    Ok(())
}
