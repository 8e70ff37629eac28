//! Attempts that take turns on one thread.
ghost use Rattle.std.specs.Prelude.{◌≡◌, ◌<◌, List, IfOk, OnOk, OnErr, length};
ghost use Rattle.std.specs.List.{All};
ghost use Rattle.coco_occ.specs.Interleaving.{Act, Turn, TakesTurn, BreaksOff, IsBrought, IsInterleaving, MayBeAsked, StopsShort, MayPlay, move_in, moves_of};
ghost use Rattle.coco_occ.specs.Trying.{Waits};

use crate::attempt::Attempt;
use crate::outcome::Move;
use coco_ast::Checked;
use coco_shard::{Ask, Shard};
use coco_types::{Machine, NoMemory, Value};
use std::alloc::Global;

/// Lets attempts move in this order: for each number the attempt at its place makes its next move, and where that is
/// an ask, its shard answers it. One that has ended makes none. The moves are each with whose they are.
pub fn run_steps(
    alloc: Global,
    procs: &Checked,
    shards: &mut [Shard],
    attempts: &mut [Attempt],
    order: &[u32],
) -> Result<Vec<(u32, Move)>, NoMemory>
    requires numbers { All (λ who. who < length attempts.old) order.now }
    requires attempts { All (MayPlay procs.now (length shards.old)) attempts.old }
    ensures ok { IfOk result (λ moves. (turns : List Turn) × (moves.items ≡ moves_of turns) × IsInterleaving order.now turns shards.old shards.new attempts.old attempts.new) }
    ensures err { OnErr result (StopsShort order.now shards.old shards.new attempts.old attempts.new) }
{
    // (a proof knows the parts of a move by the types that are named here)
    let (_ask, _value): (Option<Ask>, Option<Value>) = (None, None);
    let mut moves = Vec::with_capacity(alloc, order.len())?;
    for who in order {
        let attempt = &mut attempts[*who as usize];
        if let Some(made) = take_turn(procs, shards, attempt)? {
            moves.push_reserved((*who, made));
        }
    }
    Ok(moves)
}

/// The next move of an attempt, none where it has ended. An ask is answered by its shard.
pub fn take_turn(
    procs: &Checked,
    shards: &mut [Shard],
    attempt: &mut Attempt,
) -> Result<Option<Move>, NoMemory>
    requires { MayPlay procs.now (length shards.old) attempt.old }
    ensures ok { IfOk result (λ made. (act : Act) × (made ≡ move_in act) × TakesTurn shards.old shards.new attempt.old attempt.new act) }
    ensures free { OnOk result (MayPlay procs.now (length shards.old) attempt.new) }
    ensures err { OnErr result (BreaksOff shards.old shards.new attempt.old attempt.new) }
{
    if attempt.has_ended() {
        return Ok(None);
    }
    if attempt.go_on(procs) {
        let shard = attempt.shard();
        let ask = *attempt.ask();
        bring_answer(shards, attempt, shard, &ask)?;
        Ok(Some(Move::Ask { shard, ask }))
    } else {
        Ok(Some(attempt.last_move()))
    }
}

// Takes an ask to its shard, and the answer to the attempt.
fn bring_answer(
    shards: &mut [Shard],
    attempt: &mut Attempt,
    shard: u8,
    ask: &Ask,
) -> Result<(), NoMemory>
    requires below { shard < length shards.old }
    requires waits { attempt.old.standing ≡ Waits shard ask.now }
    ensures ok { OnOk result (IsBrought shards.old shards.new attempt.old attempt.new shard ask.now) }
    ensures attempt { OnErr result (attempt.new ≡ attempt.old) }
    ensures shards { OnErr result (MayBeAsked shards.old shards.new shard ask.now) }
{
    let _value: Option<Value> = None;
    match &shards[usize::from(shard)].apply(*ask) {
        Ok(answer) => attempt.take_lent(answer),
        Err(NoMemory) => Err(NoMemory),
    }
}
