//! One attempt: each of its asks goes to its shard under the shard's lock.

ghost use Rattle.std.specs.Prelude.{◌≡◌, ℕ, ◌<◌, [], ◌∷◌, length, Some, OnOk};
ghost use Rattle.coco_desks.specs.Gains.{AreOf, AreSame};
ghost use Rattle.coco_shard.specs.declared.ops.Ask.{Ask as Asked};
ghost use Rattle.coco_shard.specs.declared.ops.Answer.{Answer as Answered};
ghost use Rattle.coco_occ.specs.Steps.{at_shard};
ghost use Rattle.coco_occ.specs.Trying.{Ready, Waits, answered, IsSound};
ghost use Rattle.coco_worker.specs.Gains.{Make};
ghost use Rattle.coco_worker.specs.Trying.{Runs};

use coco_ast::Checked;
use coco_journaled::{Journaled, Pass};
use coco_occ::Attempt;
use coco_shard::{Answer, Shard};
use coco_types::NoMemory;
use std::sync::Wait;

/// Lets an attempt that is ready move to its end, which it then tells. Out of memory, the passes are as such the same.
pub fn run_attempt(
    rt: &impl Wait,
    procs: &Checked,
    shards: &[Journaled<Shard>],
    passes: &mut [Pass<Shard>],
    attempt: &mut Attempt,
) -> Result<(), NoMemory>
    requires procs { procs.now ≡ attempt.old.procs }
    requires ready { attempt.old.standing ≡ Ready }
    requires fresh { attempt.old.script ≡ [] }
    requires some { 0 < length shards.now }
    requires partitions { attempt.old.partitions ≡ length shards.now }
    requires locks { AreOf shards.now passes.old }
    ensures same { AreSame passes.old passes.new }
    ensures ran { OnOk result (Runs attempt.old (Some attempt.new) passes.old passes.new) }
{
    // One place for all answers, which are large.
    let mut answer = Answer::Released;
    for _ in rt.forever() {
        if !attempt.go_on(procs) {
            return Ok(());
        }
        ask_shard(rt, shards, passes, attempt, &mut answer)?;
    }
    unreachable!()
}

// Asks the shard that the attempt waits for under its lock, and takes the answer to the attempt.
fn ask_shard(
    rt: &impl Wait,
    shards: &[Journaled<Shard>],
    passes: &mut [Pass<Shard>],
    attempt: &mut Attempt,
    answer: &mut Answer,
) -> Result<(), NoMemory>
    requires waits { (shard : ℕ) × (ask : Asked) × (attempt.old.standing ≡ Waits shard ask) }
    requires below { (shard : ℕ) (ask : Asked) → attempt.old.standing ≡ Waits shard ask → shard < length shards.now }
    requires locks { AreOf shards.now passes.old }
    ensures same { AreSame passes.old passes.new }
    ensures sound { OnOk result (IsSound attempt.new) }
    ensures step { OnOk result ((shard : ℕ) × (ask : Asked) × (given : Answered)
        × (attempt.new ≡ record attempt.old { script = answered attempt.old shard ask given; standing = Ready })
        × Make passes.old passes.new (λ place. at_shard place (record { shard = shard; ask = ask; answer = given } ∷ []))) }
{
    let place = usize::from(attempt.shard());
    shards[place].step_lent(rt, &mut passes[place], attempt.ask(), answer)?;
    attempt.take_lent(answer)
}
