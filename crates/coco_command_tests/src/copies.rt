//! The rows of copies in hand, behind a put on three nodes.

ghost use Rattle.std.specs.Prelude.{◌≡◌, ◌≤◌, [], length, IfOk};
ghost use Rattle.coco_types.specs.Limits.{most_kept};
ghost use Rattle.coco_cluster.specs.Standing.{AllStand, IsSound};

use coco_cluster::Cluster;
use coco_commands::{RunBounds, open_cluster};
use coco_gate::OpenGate;
use coco_host::{Host, MemoryHost};
use coco_init::init;
use coco_io::MemorySource;
use coco_net::{Lose, Net, QuietNet, ScriptNet};
use coco_power::SteadyPower;
use coco_serve::answer_lines;
use coco_types::{Key, Value};
use std::alloc::Global;
use std::sync::Wait;
use std::test::Fail;
use std::thread::Threads;
use std::time::Clock;

const PUT_OF_SEVENTY: &str = r#"{"args":[5,70],"call":"put","id":1}
"#;

const FIVE: Key = Key { table: 0, row: 5 };

// The cluster of a new store of three nodes, each of which has all of three partitions.
fn three_nodes<H: Host>(alloc: Global, host: &mut H) -> Result<Cluster, Fail>
    ensures sound { IfOk result (λ k. IsSound k []) }
    ensures stand { IfOk result (λ k. AllStand k (H.reads host.new) (H.may_leave host.new)) }
    ensures room { IfOk result (λ k. length k.kept.dones ≤ most_kept) }
{
    let mut text = MemorySource::new(Vec::new(alloc), Vec::new(alloc));
    init(alloc, host, &mut text, 3, 3, 2)?;
    Ok(open_cluster(alloc, host)?)
}

// What is in hand behind a put on a new store.
fn put_on_three<R: Threads + Wait + Clock + Sync, N: Net + Sync>(
    rt: &R,
    alloc: Global,
    net: &mut N,
) -> Result<Cluster, Fail>
    requires { N.sent net.old ≡ [] }
{
    let mut host = MemoryHost::new(alloc, Vec::new(alloc));
    let mut cluster = three_nodes(alloc, &mut host)?;
    let bytes = Vec::from_slice(alloc, PUT_OF_SEVENTY.as_bytes())?;
    let mut input = MemorySource::new(bytes, Vec::new(alloc));
    let mut power = SteadyPower::new();
    let bounds = RunBounds {
        size: 1,
        workers: 1,
        attempts: 3,
    };
    answer_lines(
        rt,
        alloc,
        &mut host,
        net,
        &mut power,
        &mut cluster,
        &mut input,
        bounds,
        &OpenGate,
    )?;
    Ok(cluster)
}

// Whether both copies of the third partition have the row, and the four others don't, and nothing pends.
fn are_copied(cluster: &Cluster) -> bool {
    let mut count = 0u8;
    for copy in &cluster.members.tables.copies {
        let row = if count >= 4 {
            Some(Value::Int(70))
        } else {
            None
        };
        if copy.stable(FIVE) != row || copy.pending(FIVE).is_some() {
            return false;
        }
        count = count.saturating_add(1);
    }
    count == 6
}

// The quiet net carries the row early. Over the other one it comes by a letter that is sent again.
#[test]
fn a_row_comes_to_its_copies(rt: HostRuntime) -> Result<(), Fail> {
    let alloc = rt.alloc();
    let early = put_on_three(&rt, alloc, &mut QuietNet::new(alloc))?;
    let mut net = ScriptNet::new(alloc, Lose::FirstSend, true, 2);
    let late = put_on_three(&rt, alloc, &mut net)?;
    assert!(rt; are_copied(&early) && are_copied(&late));
    Ok(())
}
