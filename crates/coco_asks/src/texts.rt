//! The texts of a batch's answers.

ghost use Rattle.std.specs.Prelude.{◌≡◌, length, IfOk};
ghost use Rattle.coco_asks.specs.Sorting.{dones_with, texts_of};

use crate::asks::Refusal;
use coco_lines::{write_done, write_error};
use coco_types::{Done, KeptReply, NoMemory, Request};
use std::alloc::Global;

/// The requests with their replies, as Dones of an epoch at time 0.
pub fn dones_of(
    alloc: Global,
    requests: Vec<Request>,
    replies: Vec<KeptReply>,
    epoch: u64,
) -> Result<Vec<Done>, NoMemory>
    ensures { IfOk result (λ dones. dones.items ≡ dones_with epoch requests.items replies.items) }
{
    let mut dones = Vec::with_capacity(alloc, requests.len())?;
    for (request, reply) in requests.into_iter().zip(replies) {
        let Request { id, call } = request;
        dones.push(Done {
            id,
            call,
            epoch,
            time: 0,
            reply,
        })?;
    }
    Ok(dones)
}

/// The texts that lines are answered with: of the refusals, and in turn of these Dones for the others.
pub fn texts_of(
    alloc: Global,
    refusals: &[Option<Refusal>],
    dones: &[Done],
) -> Result<Vec<u8>, NoMemory>
    ensures { IfOk result (λ out. out.items ≡ texts_of refusals.now dones.now) }
{
    let mut out = Vec::new(alloc);
    let mut rest = dones.iter();
    for refusal in refusals {
        match refusal {
            Some(refusal) => write_error(&mut out, refusal.error, refusal.number)?,
            None => {
                if let Some(done) = rest.next() {
                    write_done(&mut out, done)?;
                }
            }
        }
    }
    Ok(out)
}
