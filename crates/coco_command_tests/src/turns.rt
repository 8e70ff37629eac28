//! A turn of one request on a new store of one node, and what the host holds then, byte by byte.

ghost use Rattle.std.specs.Prelude.{◌≡◌, ◌≤◌, [], length, IfOk};
ghost use Rattle.coco_types.specs.Limits.{most_kept};
ghost use Rattle.coco_cluster.specs.Standing.{AllStand, IsSound};
ghost use Rattle.coco_cluster.specs.Turning.{MayTurn};

use crate::made::{COMMITS, LAYOUTS, PREPARED, fill};
use coco_batches::{Batch, read_batch};
use coco_cluster::{Cluster, Stop};
use coco_commands::open_cluster;
use coco_gate::OpenGate;
use coco_host::{FolderHost, Host, MemoryHost, Purpose};
use coco_init::init;
use coco_io::MemorySource;
use coco_lines::{Reader, Scratch};
use coco_net::{Net, QuietNet};
use coco_power::{ScriptPower, SteadyPower};
use coco_types::Request;
use std::alloc::Global;
use std::fs;
use std::sync::Wait;
use std::test::Fail;
use std::thread::Threads;
use std::time::Clock;

const PUT_OF_SEVENTY: &str = r#"{"args":[5,70],"call":"put","id":1}
"#;

// The cluster of a new store of one node and one partition, with the built-in procedures.
fn new_cluster<H: Host>(alloc: Global, host: &mut H) -> Result<Cluster, Fail>
    ensures sound { IfOk result (λ k. IsSound k []) }
    ensures stand { IfOk result (λ k. AllStand k (H.reads host.new) (H.may_leave host.new)) }
    ensures room { IfOk result (λ k. length k.kept.dones ≤ most_kept) }
{
    let mut text = MemorySource::new(Vec::new(alloc), Vec::new(alloc));
    init(alloc, host, &mut text, 1, 1, 0)?;
    Ok(open_cluster(alloc, host)?)
}

// The request of a line, if the cluster may run it.
fn request_of(alloc: Global, cluster: &Cluster, line: &str) -> Result<Vec<Request>, Fail>
    requires { length cluster.now.kept.dones ≤ most_kept }
    ensures { IfOk result (λ requests. MayTurn cluster.now requests.items) }
{
    let bytes = Vec::from_slice(alloc, line.as_bytes())?;
    let mut input = MemorySource::new(bytes, Vec::new(alloc));
    let mut scratch = Scratch::new(alloc);
    let mut reader = Reader::new(alloc);
    let batch = read_batch(
        alloc,
        &mut scratch,
        &cluster.procs,
        &mut reader,
        &mut input,
        &cluster.kept,
        1,
    )?;
    let Batch { answers: _, fresh } = batch;
    Ok(fresh.into_requests(alloc)?)
}

fn put_once<R: Threads + Wait + Clock + Sync, H: Host, N: Net + Sync>(
    rt: &R,
    alloc: Global,
    host: &mut H,
    net: &mut N,
) -> Result<Cluster, Fail>
    requires { N.sent net.old ≡ [] }
    ensures sound { IfOk result (λ k. IsSound k (N.sent net.new)) }
    ensures stand { IfOk result (λ k. AllStand k (H.reads host.new) (H.may_leave host.new)) }
{
    let mut cluster = new_cluster(alloc, host)?;
    let requests = request_of(alloc, &cluster, PUT_OF_SEVENTY)?;
    let mut power = SteadyPower::new();
    // Of four workers one finds a request to draw.
    cluster.turn(rt, alloc, host, net, &mut power, requests, 4, 3, &OpenGate)?;
    Ok(cluster)
}

fn has_turned(cluster: &Cluster) -> bool {
    let first = cluster.kept.nth(0).map(|done| done.id);
    cluster.next_epoch == 2 && first == Some(1)
}

// Whether a file has these bytes and no others.
fn holds<H: Host>(host: &mut H, file: u32, wanted: &[u8]) -> bool {
    let mut bytes = [0; 80];
    match host.read_at(file, 0, &mut bytes) {
        Ok(count) => bytes.get(..count) == Some(wanted),
        Err(_) => false,
    }
}

#[test]
fn a_put_of_seventy_is_committed(rt: HostRuntime) -> Result<(), Fail> {
    let mut host = MemoryHost::new(rt.alloc(), Vec::new(rt.alloc()));
    let mut net = QuietNet::new(rt.alloc());
    let cluster = put_once(&rt, rt.alloc(), &mut host, &mut net)?;
    let is_well = has_turned(&cluster)
        && holds(&mut host, 1, &COMMITS)
        && holds(&mut host, 2, &PREPARED);
    assert!(rt; is_well);
    Ok(())
}

// What a trace has: how many journals, how many scripts in the transcript of each of the first five workers, of whom there
// may be fewer, and how many requests in its tail.
#[derive(Clone, Copy, Debug, PartialEq, Eq)]
struct Counted {
    journals: usize,
    scripts: [Option<usize>; 5],
    tail: usize,
}

fn scripts_of(cluster: &Cluster, worker: usize) -> Option<usize> {
    let trace = cluster.trace()?;
    let transcript = trace.transcripts.get(worker)?;
    Some(transcript.len())
}

fn told(cluster: &Cluster) -> Option<Counted> {
    let trace = cluster.trace()?;
    Some(Counted {
        journals: trace.journals.len(),
        scripts: [
            scripts_of(cluster, 0),
            scripts_of(cluster, 1),
            scripts_of(cluster, 2),
            scripts_of(cluster, 3),
            scripts_of(cluster, 4),
        ],
        tail: trace.tail.len(),
    })
}

// What is told behind a put, and behind a turn without requests after it.
fn told_in_turn<R: Threads + Wait + Clock + Sync, H: Host, N: Net + Sync>(
    rt: &R,
    alloc: Global,
    host: &mut H,
    net: &mut N,
) -> Result<(Option<Counted>, Option<Counted>), Fail>
    requires { N.sent net.old ≡ [] }
{
    let mut cluster = put_once(rt, alloc, host, net)?;
    let behind_put = told(&cluster);
    let mut power = SteadyPower::new();
    cluster.turn(
        rt,
        alloc,
        host,
        net,
        &mut power,
        Vec::new(alloc),
        4,
        3,
        &OpenGate,
    )?;
    Ok((behind_put, told(&cluster)))
}

#[test]
fn a_trace_is_told_until_the_next_turn(rt: HostRuntime) -> Result<(), Fail> {
    let mut host = MemoryHost::new(rt.alloc(), Vec::new(rt.alloc()));
    let mut net = QuietNet::new(rt.alloc());
    let (behind_put, behind_nothing) = told_in_turn(&rt, rt.alloc(), &mut host, &mut net)?;
    // Of four workers one was started, who committed the put in one script.
    let wanted = Counted {
        journals: 1,
        scripts: [Some(1), Some(0), Some(0), Some(0), None],
        tail: 0,
    };
    assert!(rt; behind_put == Some(wanted) && behind_nothing.is_none());
    Ok(())
}

// The cluster of the worked store.
fn worked_cluster<H: Host>(alloc: Global, host: &mut H) -> Result<Cluster, Fail>
    ensures sound { IfOk result (λ k. IsSound k []) }
    ensures stand { IfOk result (λ k. AllStand k (H.reads host.new) (H.may_leave host.new)) }
    ensures room { IfOk result (λ k. length k.kept.dones ≤ most_kept) }
{
    fill(host, &[(0, &LAYOUTS), (1, &COMMITS), (2, &PREPARED)])?;
    Ok(open_cluster(alloc, host)?)
}

const PUT_OF_ONE: &str = r#"{"args":[6,1],"call":"put","id":2}
"#;

const FOLDER: &str = "a_stopped_node";

// How a put ends on the worked store, where the node stops at this point of its first epoch, at none where that is 0, and
// the node's file has these bytes since the store was opened; and how long the coordinator's file is then.
fn ended_behind<R: Threads + Wait + Clock + Sync, N: Net + Sync>(
    rt: &R,
    machine: HostRuntime,
    net: &mut N,
    point: u8,
    file: &[u8],
) -> Result<(Result<(), Stop>, Option<u64>), Fail>
    requires { N.sent net.old ≡ [] }
{
    let alloc = machine.alloc();
    let mut host = FolderHost::new(machine, FOLDER, Purpose::Writing, machine.stdout())?;
    let mut cluster = worked_cluster(alloc, &mut host)?;
    let requests = request_of(alloc, &cluster, PUT_OF_ONE)?;
    fs::write(&machine, "a_stopped_node/2.coco", file)?;
    let mut power = ScriptPower::new(Vec::from_slice(alloc, &[(1, 0, point)])?);
    let ended = cluster.turn(
        rt, alloc, &mut host, net, &mut power, requests, 1, 3, &OpenGate,
    );
    Ok((ended, host.len(1).ok()))
}

// Of the worked store the coordinator's file has 75 bytes, and 141 with one epoch more.
#[test]
fn a_stopped_nodes_file_is_refused_at_its_place(rt: HostRuntime) -> Result<(), Fail> {
    let refused = |at| Err(Stop::NotAStore { file: 2, at });
    let cases: [(u8, &[u8], Result<(), Stop>, u64); 10] = [
        // It isn't read anew where the node doesn't stop.
        (0, &PREPARED[..0], Ok(()), 141),
        (1, &PREPARED, Ok(()), 141),
        (1, &PREPARED[..0], refused(0), 75),
        (2, &PREPARED[..7], refused(7), 75),
        (3, &PREPARED[..8], refused(8), 75),
        (1, &PREPARED[..53], refused(8), 75),
        // Of another kind.
        (1, &COMMITS, refused(7), 75),
        // Without the epoch that was committed.
        (1, b"COCOLOG\x02\0", refused(8), 75),
        // The epoch is committed where the node stops behind its entry.
        (4, &COMMITS, refused(7), 141),
        (6, &PREPARED[..0], refused(0), 141),
    ];
    for (point, file, ended, len) in cases {
        let mut net = QuietNet::new(rt.alloc());
        let found = ended_behind(&rt, rt, &mut net, point, file)?;
        fs::remove_dir_all(&rt, FOLDER)?;
        assert!(rt;
            found == (ended, Some(len)),
            "point {point}, {} bytes",
            file.len()
        );
    }
    Ok(())
}
