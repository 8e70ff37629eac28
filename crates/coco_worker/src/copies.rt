//! What a commit brings to the copies at once, where the net carries it.

ghost use Rattle.std.specs.Prelude.{◌≡◌, ◌<◌, [], ◌∷◌, length, OnOk};
ghost use Rattle.coco_desks.specs.Gains.{AreOf, AreSame, Gain};
ghost use Rattle.coco_worker.specs.Copying.{MayDeliver, asked, put, put_at, puts_at};

use crate::slot::EpochConfig;
use coco_copy::{CopyAsk, CopyTable};
use coco_journaled::{Journaled, Pass};
use coco_net::Net;
use coco_types::{NoMemory, Write};
use std::sync::Wait;

/// A commit in an epoch: the worker that made it, the place of its request, and its time.
#[derive(Clone, Copy)]
pub struct WorkerCommit {
    pub config: EpochConfig,
    pub partitions: u8,
    pub worker: u32,
    pub place: u32,
    pub time: u64,
}

/// Puts the writes of a commit into the copies of their partitions, but for those that the net doesn't carry.
pub fn deliver<N: Net>(
    rt: &impl Wait,
    net: &N,
    copies: &[Journaled<CopyTable>],
    passes: &mut [Pass<CopyTable>],
    commit: WorkerCommit,
    writes: &[Write],
) -> Result<(), NoMemory>
    requires may { MayDeliver commit (length copies.now) }
    requires locks { AreOf copies.now passes.old }
    ensures same { AreSame passes.old passes.new }
    ensures copied { OnOk result (Gain asked passes.old passes.new (λ table. puts_at (N.carries net.now) commit table writes.now)) }
{
    for write in writes {
        put_write(rt, net, copies, passes, commit, write)?;
    }
    Ok(())
}

// One write, in the order of the copies.
fn put_write<N: Net>(
    rt: &impl Wait,
    net: &N,
    copies: &[Journaled<CopyTable>],
    passes: &mut [Pass<CopyTable>],
    commit: WorkerCommit,
    write: &Write,
) -> Result<(), NoMemory>
    requires may { MayDeliver commit (length copies.now) }
    requires locks { AreOf copies.now passes.old }
    ensures same { AreSame passes.old passes.new }
    ensures copied { OnOk result (Gain asked passes.old passes.new (λ table. puts_at (N.carries net.now) commit table (write.now ∷ []))) }
{
    let partition = write.key.partition(usize::from(commit.partitions));
    for copy in 0..usize::from(commit.config.copies) {
        put_copy(rt, net, copies, passes, commit, partition, copy, write)?;
    }
    Ok(())
}

// One write of a partition, into one of the partition's copies.
fn put_copy<N: Net>(
    rt: &impl Wait,
    net: &N,
    copies: &[Journaled<CopyTable>],
    passes: &mut [Pass<CopyTable>],
    commit: WorkerCommit,
    partition: usize,
    copy: usize,
    write: &Write,
) -> Result<(), NoMemory>
    requires may { MayDeliver commit (length copies.now) }
    requires partition { partition < commit.partitions }
    requires copy { copy < commit.config.copies }
    requires locks { AreOf copies.now passes.old }
    ensures same { AreSame passes.old passes.new }
    ensures copied { OnOk result (Gain asked passes.old passes.new (put_at (N.carries net.now) commit partition copy write.now)) }
{
    let config = commit.config;
    let node = (partition + copy + 1) % usize::from(config.nodes);
    if !net.carries(config.epoch, commit.worker, commit.place, node as u8) {
        return Ok(());
    }
    let count = usize::from(config.copies);
    let table = partition * count + copy;
    copies[table].step(rt, &mut passes[table], put_of(commit, write))?;
    Ok(())
}

fn put_of(commit: WorkerCommit, write: &Write) -> CopyAsk
    ensures { result ≡ put commit write.now }
{
    CopyAsk::Put {
        epoch: commit.config.epoch,
        time: commit.time,
        write: *write,
    }
}
