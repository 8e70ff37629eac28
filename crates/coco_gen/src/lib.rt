//! A large workload that is made from one number: calls of `add` in pairs whose amounts come to nothing.
#![tactic(auto)]

ghost use Rattle.std.specs.Prelude.{◌≡◌, ◌≤◌, ◌<◌, ◌^◌, neg_ℤ, pos, IfOk};
ghost use Rattle.coco_gen.specs.Workload.{request_of, workload_of};

use coco_types::{Args, Call, NoMemory, Request, Value};
use rand_core::SeedableRng;
use rand_core::utils::NextWord;
use rand_pcg::Lcg64Xsh32;
use std::alloc::Global;

/// The number of `add` among the built-in procedures.
const ADD: u16 = 2;

/// Ids of one seed are behind this multiple of it, and not above that of the next one.
const IDS: u64 = 1_048_576;

/// The first so many requests of a seed. Of two calls that follow each other the first adds to a row below 1,000, and the
/// second takes the same amount, 1 to 1,000, from another.
pub fn workload(alloc: Global, calls: u32, seed: u64) -> Result<Vec<Request>, NoMemory>
    requires calls { calls ≤ 1000000 }
    requires seed { seed < 2 ^ 43 }
    ensures { IfOk result (λ requests. requests.items ≡ workload_of calls seed) }
{
    let mut generator = Lcg64Xsh32::seed_from_u64(seed);
    let mut requests = Vec::with_capacity(alloc, calls as usize + 1)?;
    for pair in 0..(calls + 1) / 2 {
        let gains = generator.next_word() % 1000;
        let amount = generator.next_word() % 1000 + 1;
        let loses = generator.next_word() % 1000;
        let id = seed * IDS + 2 * u64::from(pair) + 1;
        requests.push(addition(alloc, id, gains, i64::from(amount))?)?;
        requests.push(addition(alloc, id + 1, loses, less(amount))?)?;
    }
    requests.truncate(calls as usize);
    Ok(requests)
}

// So much less.
fn less(amount: u32) -> i64
    ensures { result ≡ neg_ℤ (pos amount) }
{
    -i64::from(amount)
}

// The request with this id that adds an amount to a row.
fn addition(alloc: Global, id: u64, row: u32, amount: i64) -> Result<Request, NoMemory>
    ensures { IfOk result (λ request. request ≡ request_of id row amount) }
{
    let mut args = Args::with_room(alloc, 2)?;
    args.push(Some(Value::Int(i64::from(row))))?;
    args.push(Some(Value::Int(amount)))?;
    Ok(Request {
        id,
        call: Call {
            proc_no: ADD,
            snapshot: false,
            args,
        },
    })
}
