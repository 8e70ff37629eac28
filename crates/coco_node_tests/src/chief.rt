//! What the coordinator's core does with the votes of an epoch, and after it starts again.

ghost use Rattle.std.specs.Prelude.{◌≡◌, []};
ghost use Rattle.coco_chief.specs.Shown.{chief_of};
ghost use Rattle.coco_chief.specs.Table.{restarted};

use coco_chief::*;
use coco_msg::{Action, Message};
use coco_types::NoMemory;
use std::alloc::Global;
use std::test::Fail;

const YES: Message = Message::Vote {
    epoch: 1,
    yes: true,
};

const NO: Message = Message::Vote {
    epoch: 1,
    yes: false,
};

const QUERY: Message = Message::Query { epoch: 1 };

const PREPARES: &str =
    "[Send { to: 0, message: Prepare { epoch: 1 } }, Send { to: 1, message: Prepare { epoch: 1 } }]";

const COMMITS: &str =
    "[Send { to: 0, message: Commit { epoch: 1 } }, Send { to: 1, message: Commit { epoch: 1 } }]";

const ABORTS: &str =
    "[Send { to: 0, message: Abort { epoch: 1 } }, Send { to: 1, message: Abort { epoch: 1 } }]";

// Whether these are the actions, as they are shown.
fn are_shown(alloc: Global, actions: Vec<Action>, shown: &str) -> Result<bool, NoMemory> {
    let text = format!(in alloc; "{actions:?}")?;
    Ok(text.as_str() == shown)
}

// Whether the core answers a place's message with these actions.
fn answers(
    alloc: Global,
    core: &mut ChiefCore,
    from: u8,
    message: &Message,
    shown: &str,
) -> Result<bool, NoMemory> {
    let actions = core.handle(from, message)?;
    are_shown(alloc, actions, shown)
}

// Whether a core of two nodes asks for votes, and is to force epoch 1 once both have voted for it.
fn asks_and_forces(alloc: Global, core: &mut ChiefCore) -> Result<bool, NoMemory>
    requires { chief_of core.old ≡ restarted 2 [] }
{
    let has_finished = core.finished(0);
    let actions = core.begin(1)?;
    let asks = are_shown(alloc, actions, PREPARES)?;
    for (from, message, shown) in [
        (0, &YES, "[]"),
        (0, &YES, "[]"),
        (2, &YES, "[]"),
        (0, &QUERY, "[]"),
        (1, &YES, "[Force { epoch: 1 }]"),
    ] {
        if !answers(alloc, core, from, message, shown)? {
            return Ok(false);
        }
    }
    Ok(has_finished && asks)
}

fn is_forcing(core: &ChiefCore) -> bool {
    core.current() == 1 && core.phase() == Phase::Forcing
}

#[test]
fn an_epoch_is_forced_once_every_node_has_voted(rt: HostRuntime) -> Result<(), Fail> {
    let alloc = rt.alloc();
    let mut core = ChiefCore::restart(alloc, 2, Vec::new(alloc))?;
    let is_forced = asks_and_forces(alloc, &mut core)? && is_forcing(&core);
    assert!(rt; is_forced && answers(alloc, &mut core, 1, &NO, "[]")?);
    Ok(())
}

// Whether a core of two nodes aborts epoch 1 at a no, and says so when it is asked.
fn aborts(alloc: Global, core: &mut ChiefCore) -> Result<bool, NoMemory>
    requires { chief_of core.old ≡ restarted 2 [] }
{
    core.begin(1)?;
    let is_aborted = answers(alloc, core, 1, &NO, ABORTS)?;
    let told = "[Send { to: 0, message: Tell { epoch: 1, committed: false } }]";
    Ok(is_aborted && answers(alloc, core, 0, &QUERY, told)?)
}

#[test]
fn a_no_aborts_the_epoch(rt: HostRuntime) -> Result<(), Fail> {
    let alloc = rt.alloc();
    let mut core = ChiefCore::restart(alloc, 2, Vec::new(alloc))?;
    assert!(rt; aborts(alloc, &mut core)?);
    Ok(())
}

// Whether a core of two nodes aborts epoch 1 of its own accord.
fn gives_up(alloc: Global, core: &mut ChiefCore) -> Result<bool, NoMemory>
    requires { chief_of core.old ≡ restarted 2 [] }
{
    core.begin(1)?;
    if !core.is_open() {
        return Ok(false);
    }
    let actions = core.abort()?;
    Ok(are_shown(alloc, actions, ABORTS)? && !core.is_open() && core.last() == 0)
}

#[test]
fn an_open_epoch_may_be_given_up(rt: HostRuntime) -> Result<(), Fail> {
    let alloc = rt.alloc();
    let mut core = ChiefCore::restart(alloc, 2, Vec::new(alloc))?;
    assert!(rt; gives_up(alloc, &mut core)?);
    Ok(())
}

// Whether node 0 is reminded of epoch 10 until it has finished that.
fn reminds(alloc: Global, core: &mut ChiefCore) -> Result<bool, NoMemory> {
    let is_first = !core.finished(0);
    let actions = core.remind()?;
    let reminder = "[Send { to: 0, message: Commit { epoch: 10 } }]";
    let is_reminded = are_shown(alloc, actions, reminder)?;
    let is_early = answers(alloc, core, 0, &Message::Finished { epoch: 9 }, "[]")?;
    Ok(is_first && is_reminded && is_early && !core.finished(0))
}

fn is_finished(alloc: Global, core: &mut ChiefCore) -> Result<bool, NoMemory> {
    let is_heard = answers(alloc, core, 0, &Message::Finished { epoch: 10 }, "[]")?;
    let actions = core.remind()?;
    Ok(is_heard && core.finished(0) && actions.is_empty())
}

#[test]
fn a_restarted_core_reminds_of_its_last_committed_epoch(rt: HostRuntime) -> Result<(), Fail> {
    let alloc = rt.alloc();
    let epochs = vec![in alloc; 10, 3, 9]?;
    let core = &mut ChiefCore::restart(alloc, 1, epochs)?;
    assert!(rt; reminds(alloc, core)? && is_finished(alloc, core)?);
    Ok(())
}

// Whether a core of two nodes tells both of the commit of epoch 1 behind its entry.
fn commits(alloc: Global, core: &mut ChiefCore) -> Result<bool, NoMemory>
    requires { chief_of core.old ≡ restarted 2 [] }
{
    core.begin(1)?;
    core.handle(0, &YES)?;
    core.handle(1, &YES)?;
    if core.phase() != Phase::Forcing || core.current() != 1 {
        return Ok(false);
    }
    let actions = core.forced(1)?;
    Ok(are_shown(alloc, actions, COMMITS)? && !core.finished(1))
}

#[test]
fn a_commit_is_told_to_every_node(rt: HostRuntime) -> Result<(), Fail> {
    let alloc = rt.alloc();
    let mut core = ChiefCore::restart(alloc, 2, Vec::new(alloc))?;
    assert!(rt; commits(alloc, &mut core)?);
    Ok(())
}

#[test]
fn committed_epochs_are_told_in_order(rt: HostRuntime) -> Result<(), Fail> {
    let alloc = rt.alloc();
    let committed = vec![in alloc; 10, 3, 9]?;
    let core = ChiefCore::restart(alloc, 1, committed)?;
    let epochs = core.epochs(alloc)?;
    assert!(rt; epochs.as_slice() == [3, 9, 10].as_slice());
    Ok(())
}
