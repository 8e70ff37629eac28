//! Transfers between twenty accounts on three nodes, run by four workers in epochs of fifty.

ghost use Rattle.std.specs.Prelude.{◌≡◌, []};

use coco_commands::{RunBounds, dump, run, verify};
use coco_ending::Ending;
use coco_gate::OpenGate;
use coco_host::MemoryHost;
use coco_init::init;
use coco_io::MemorySource;
use coco_net::{Net, QuietNet, SeededNet};
use coco_power::SteadyPower;
use coco_types::NoMemory;
use std::alloc::Global;
use std::sync::Wait;
use std::test::Fail;
use std::thread::Threads;
use std::time::Clock;

const BANK: &str = r#"table acct;
proc open(a, n) { put acct[a] = n; reply n; }
proc move(a, b, n) {
  if a == b { refuse 3; }
  let x = get acct[a];
  let y = get acct[b];
  if x == none or y == none { refuse 1; }
  if x < n { refuse 2; }
  put acct[a] = x - n;
  put acct[b] = y + n;
  reply x - n;
}
"#;

// Twenty accounts of 1,000 each, as ids 1 to 20.
fn openings(alloc: Global) -> Result<String, NoMemory> {
    let mut lines = String::new(alloc);
    for id in 1..21u32 {
        let line = format!(in alloc; "{{\"args\":[{id},1000],\"call\":\"open\",\"id\":{id}}}\n")?;
        lines.push_str(line.as_str())?;
    }
    Ok(lines)
}

// Two hundred moves of 10, each account's to the seventh behind it, as ids from 21 on.
fn moves(alloc: Global) -> Result<String, NoMemory> {
    let mut lines = String::new(alloc);
    for number in 0..200u32 {
        let from = 1 + number % 20;
        let to = 1 + (number + 7) % 20;
        let id = 21 + number;
        let line = format!(in alloc;
            "{{\"args\":[{from},{to},10],\"call\":\"move\",\"id\":{id}}}\n"
        )?;
        lines.push_str(line.as_str())?;
    }
    Ok(lines)
}

fn input_of(alloc: Global, text: &str) -> Result<MemorySource, NoMemory> {
    let bytes = Vec::from_slice(alloc, text.as_bytes())?;
    Ok(MemorySource::new(bytes, Vec::new(alloc)))
}

// How a run of these lines ends.
fn ended<R: Threads + Wait + Clock + Sync, N: Net + Sync>(
    rt: &R,
    alloc: Global,
    host: &mut MemoryHost,
    net: &mut N,
    text: &str,
) -> Result<Ending, NoMemory>
    requires { N.sent net.old ≡ [] }
{
    let mut input = input_of(alloc, text)?;
    let mut power = SteadyPower::new();
    let bounds = RunBounds {
        size: 50,
        workers: 4,
        attempts: 3,
    };
    Ok(run(
        rt, alloc, host, net, &mut power, &mut input, bounds, &OpenGate,
    ))
}

fn text_of(bytes: &[u8]) -> &str {
    std::str::from_utf8(bytes).unwrap_or("")
}

// Whether all moves are answered with a reply, in the order of their lines.
fn are_answered(alloc: Global, said: &str) -> Result<bool, NoMemory> {
    let mut number = 0u32;
    for line in said.lines() {
        let epoch = 2 + number / 50;
        let id = 21 + number % 200;
        let front = format!(in alloc; "{{\"epoch\":{epoch},\"id\":{id},\"ok\":")?;
        if !line.starts_with(front.as_str()) {
            return Ok(false);
        }
        number = number.saturating_add(1);
    }
    Ok(number == 200)
}

// Whether the store tells of all transfers, and that each account has what it had.
fn is_told(alloc: Global, host: MemoryHost) -> Result<bool, NoMemory> {
    let mut host = host.crash(0)?;
    let is_dumped = dump(alloc, &mut host) == Ending::Finished;
    let is_serial = verify(alloc, &mut host) == Ending::Finished;
    let text = text_of(host.said());
    let dones = text.matches("\"snapshot\":false").count();
    let accounts = text.matches("\"table\":\"acct\",\"value\":1000}").count();
    let is_whole = dones == 220 && accounts == 20 && text.ends_with("serial 220\n");
    Ok(is_dumped && is_serial && is_whole)
}

// Whether the transfers go well over this net.
fn goes_well<R: Threads + Wait + Clock + Sync, N: Net + Sync>(
    rt: &R,
    alloc: Global,
    net: &mut N,
) -> Result<bool, NoMemory>
    requires { N.sent net.old ≡ [] }
{
    let mut host = MemoryHost::new(alloc, Vec::new(alloc));
    let _ = init(alloc, &mut host, &mut input_of(alloc, BANK)?, 3, 3, 2);
    let text = openings(alloc)?;
    ended(
        rt,
        alloc,
        &mut host,
        &mut QuietNet::new(alloc),
        text.as_str(),
    )?;
    let before = host.said().len();
    let text = moves(alloc)?;
    let ending = ended(rt, alloc, &mut host, net, text.as_str())?;
    let said = host.said().get(before..).unwrap_or(&[]);
    let is_answered = are_answered(alloc, text_of(said))?;
    Ok(ending == Ending::Finished && is_answered && is_told(alloc, host)?)
}

#[test]
fn transfers_keep_all_money(rt: HostRuntime) -> Result<(), Fail> {
    let alloc = rt.alloc();
    assert!(rt; goes_well(&rt, alloc, &mut QuietNet::new(alloc))?);
    let mut net = SeededNet::new(alloc);
    net.disturb(5);
    assert!(rt; goes_well(&rt, alloc, &mut net)?);
    Ok(())
}
