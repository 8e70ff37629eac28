//! Asks and answers as they are kept: numbers in place, a text on the heap.

ghost use Rattle.std.specs.Prelude.{◌≡◌, IfOk};
ghost use Rattle.coco_shard.specs.Packed.{op_of, answer_of};

use crate::ops::{Answer, Ask, Op};
use crate::shard::Shard;
use coco_packs::Packs;
use coco_types::{AttemptId, Key, NoMemory, Text, Value};
use std::alloc::Global;

/// An operation, packed.
#[derive(Debug, Drop)]
pub enum PackedOp {
    Read(Key),
    Lock(Key),
    Extend {
        key: Key,
        wts: u64,
        time: u64,
    },
    InstallNone {
        key: Key,
        time: u64,
    },
    InstallInt {
        key: Key,
        time: u64,
        number: i64,
    },
    InstallText {
        key: Key,
        time: u64,
        text: Box<Text>,
    },
    Release(Key),
    Past(Key),
}

/// An ask, packed.
#[derive(Debug, Drop)]
pub struct PackedAsk {
    pub by: AttemptId,
    pub op: PackedOp,
}

/// An answer, packed.
#[derive(Debug, Drop)]
pub enum PackedAnswer {
    GotNone { wts: u64, rts: u64 },
    GotInt { wts: u64, rts: u64, number: i64 },
    GotText { wts: u64, rts: u64, text: Box<Text> },
    Locked { wts: u64, rts: u64 },
    Marked { holder: AttemptId },
    Changed { wts: u64 },
    Extended,
    Installed,
    Released,
    NotMine { mark: Option<AttemptId> },
    StoodNone,
    StoodInt(i64),
    StoodText(Box<Text>),
}

impl PackedOp {
    /// The operation, a text of it on this heap.
    pub fn of(alloc: Global, op: &Op) -> Result<PackedOp, NoMemory>
        ensures { IfOk result (λ packed. op_of packed ≡ op.now) }
    {
        Ok(match op {
            Op::Read(key) => PackedOp::Read(*key),
            Op::Lock(key) => PackedOp::Lock(*key),
            Op::Extend { key, wts, time } => PackedOp::Extend {
                key: *key,
                wts: *wts,
                time: *time,
            },
            Op::Install { key, time, value } => packed_install(alloc, *key, *time, value)?,
            Op::Release(key) => PackedOp::Release(*key),
            Op::Past(key) => PackedOp::Past(*key),
        })
    }

    /// The same once more.
    pub fn try_clone(&self) -> Result<PackedOp, NoMemory>
        ensures { IfOk result (λ copy. op_of copy ≡ op_of self.now) }
    {
        Ok(match self {
            PackedOp::Read(key) => PackedOp::Read(*key),
            PackedOp::Lock(key) => PackedOp::Lock(*key),
            PackedOp::Extend { key, wts, time } => PackedOp::Extend {
                key: *key,
                wts: *wts,
                time: *time,
            },
            PackedOp::InstallNone { key, time } => PackedOp::InstallNone {
                key: *key,
                time: *time,
            },
            PackedOp::InstallInt { key, time, number } => PackedOp::InstallInt {
                key: *key,
                time: *time,
                number: *number,
            },
            PackedOp::InstallText { key, time, text } => PackedOp::InstallText {
                key: *key,
                time: *time,
                text: text.clone()?,
            },
            PackedOp::Release(key) => PackedOp::Release(*key),
            PackedOp::Past(key) => PackedOp::Past(*key),
        })
    }

    /// The operation.
    pub fn get(&self) -> Op
        ensures { result ≡ op_of self.now }
    {
        match self {
            PackedOp::Read(key) => Op::Read(*key),
            PackedOp::Lock(key) => Op::Lock(*key),
            PackedOp::Extend { key, wts, time } => Op::Extend {
                key: *key,
                wts: *wts,
                time: *time,
            },
            PackedOp::InstallNone { key, time } => Op::Install {
                key: *key,
                time: *time,
                value: None,
            },
            PackedOp::InstallInt { key, time, number } => Op::Install {
                key: *key,
                time: *time,
                value: Some(Value::Int(*number)),
            },
            PackedOp::InstallText { key, time, text } => Op::Install {
                key: *key,
                time: *time,
                value: Some(Value::Text(*text.as_ref())),
            },
            PackedOp::Release(key) => Op::Release(*key),
            PackedOp::Past(key) => Op::Past(*key),
        }
    }
}

fn packed_install(
    alloc: Global,
    key: Key,
    time: u64,
    value: &Option<Value>,
) -> Result<PackedOp, NoMemory>
    ensures { IfOk result (λ packed. op_of packed ≡ Op.Install key time value.now) }
{
    Ok(match value {
        None => PackedOp::InstallNone { key, time },
        Some(Value::Int(number)) => PackedOp::InstallInt {
            key,
            time,
            number: *number,
        },
        Some(Value::Text(text)) => PackedOp::InstallText {
            key,
            time,
            text: Box::new(alloc, *text)?,
        },
    })
}

impl PackedAnswer {
    /// The answer, and the box where it has no text to put into it.
    pub fn of(answer: &Answer, room: Box<Text>) -> (PackedAnswer, Option<Box<Text>>)
        ensures { answer_of result.0 ≡ answer.now }
    {
        let packed = match answer {
            Answer::Got { wts, rts, value } => return packed_got(*wts, *rts, value, room),
            Answer::Stood(value) => return packed_stood(value, room),
            Answer::Locked { wts, rts } => PackedAnswer::Locked {
                wts: *wts,
                rts: *rts,
            },
            Answer::Marked { holder } => PackedAnswer::Marked { holder: *holder },
            Answer::Changed { wts } => PackedAnswer::Changed { wts: *wts },
            Answer::Extended => PackedAnswer::Extended,
            Answer::Installed => PackedAnswer::Installed,
            Answer::Released => PackedAnswer::Released,
            Answer::NotMine { mark } => PackedAnswer::NotMine { mark: *mark },
        };
        (packed, Some(room))
    }

    /// The answer, a text of it on this heap.
    pub fn on_heap(alloc: Global, answer: &Answer) -> Result<PackedAnswer, NoMemory>
        ensures { IfOk result (λ packed. answer_of packed ≡ answer.now) }
    {
        Ok(match answer {
            Answer::Got { wts, rts, value } => got_on_heap(alloc, *wts, *rts, value)?,
            Answer::Stood(value) => stood_on_heap(alloc, value)?,
            Answer::Locked { wts, rts } => PackedAnswer::Locked {
                wts: *wts,
                rts: *rts,
            },
            Answer::Marked { holder } => PackedAnswer::Marked { holder: *holder },
            Answer::Changed { wts } => PackedAnswer::Changed { wts: *wts },
            Answer::Extended => PackedAnswer::Extended,
            Answer::Installed => PackedAnswer::Installed,
            Answer::Released => PackedAnswer::Released,
            Answer::NotMine { mark } => PackedAnswer::NotMine { mark: *mark },
        })
    }

    /// The same once more.
    pub fn try_clone(&self) -> Result<PackedAnswer, NoMemory>
        ensures { IfOk result (λ copy. answer_of copy ≡ answer_of self.now) }
    {
        Ok(match self {
            PackedAnswer::GotNone { wts, rts } => PackedAnswer::GotNone {
                wts: *wts,
                rts: *rts,
            },
            PackedAnswer::GotInt { wts, rts, number } => PackedAnswer::GotInt {
                wts: *wts,
                rts: *rts,
                number: *number,
            },
            PackedAnswer::GotText { wts, rts, text } => PackedAnswer::GotText {
                wts: *wts,
                rts: *rts,
                text: text.clone()?,
            },
            PackedAnswer::Locked { wts, rts } => PackedAnswer::Locked {
                wts: *wts,
                rts: *rts,
            },
            PackedAnswer::Marked { holder } => PackedAnswer::Marked { holder: *holder },
            PackedAnswer::Changed { wts } => PackedAnswer::Changed { wts: *wts },
            PackedAnswer::Extended => PackedAnswer::Extended,
            PackedAnswer::Installed => PackedAnswer::Installed,
            PackedAnswer::Released => PackedAnswer::Released,
            PackedAnswer::NotMine { mark } => PackedAnswer::NotMine { mark: *mark },
            PackedAnswer::StoodNone => PackedAnswer::StoodNone,
            PackedAnswer::StoodInt(number) => PackedAnswer::StoodInt(*number),
            PackedAnswer::StoodText(text) => PackedAnswer::StoodText(text.clone()?),
        })
    }

    /// The answer.
    pub fn get(&self) -> Answer
        ensures { result ≡ answer_of self.now }
    {
        match self {
            PackedAnswer::GotNone { wts, rts } => got(*wts, *rts, None),
            PackedAnswer::GotInt { wts, rts, number } => got(*wts, *rts, Some(Value::Int(*number))),
            PackedAnswer::GotText { wts, rts, text } => {
                got(*wts, *rts, Some(Value::Text(*text.as_ref())))
            }
            PackedAnswer::Locked { wts, rts } => Answer::Locked {
                wts: *wts,
                rts: *rts,
            },
            PackedAnswer::Marked { holder } => Answer::Marked { holder: *holder },
            PackedAnswer::Changed { wts } => Answer::Changed { wts: *wts },
            PackedAnswer::Extended => Answer::Extended,
            PackedAnswer::Installed => Answer::Installed,
            PackedAnswer::Released => Answer::Released,
            PackedAnswer::NotMine { mark } => Answer::NotMine { mark: *mark },
            PackedAnswer::StoodNone => Answer::Stood(None),
            PackedAnswer::StoodInt(number) => Answer::Stood(Some(Value::Int(*number))),
            PackedAnswer::StoodText(text) => Answer::Stood(Some(Value::Text(*text.as_ref()))),
        }
    }
}

fn got(wts: u64, rts: u64, value: Option<Value>) -> Answer
    ensures { result ≡ Answer.Got wts rts value }
{
    Answer::Got { wts, rts, value }
}

fn packed_got(
    wts: u64,
    rts: u64,
    value: &Option<Value>,
    mut room: Box<Text>,
) -> (PackedAnswer, Option<Box<Text>>)
    ensures { answer_of result.0 ≡ Answer.Got wts rts value.now }
{
    match value {
        None => (PackedAnswer::GotNone { wts, rts }, Some(room)),
        Some(Value::Int(number)) => {
            let number = *number;
            (PackedAnswer::GotInt { wts, rts, number }, Some(room))
        }
        Some(Value::Text(text)) => {
            *room = *text;
            let text = room;
            (PackedAnswer::GotText { wts, rts, text }, None)
        }
    }
}

fn packed_stood(value: &Option<Value>, mut room: Box<Text>) -> (PackedAnswer, Option<Box<Text>>)
    ensures { answer_of result.0 ≡ Answer.Stood value.now }
{
    match value {
        None => (PackedAnswer::StoodNone, Some(room)),
        Some(Value::Int(number)) => (PackedAnswer::StoodInt(*number), Some(room)),
        Some(Value::Text(text)) => {
            *room = *text;
            (PackedAnswer::StoodText(room), None)
        }
    }
}

fn got_on_heap(
    alloc: Global,
    wts: u64,
    rts: u64,
    value: &Option<Value>,
) -> Result<PackedAnswer, NoMemory>
    ensures { IfOk result (λ packed. answer_of packed ≡ Answer.Got wts rts value.now) }
{
    Ok(match value {
        None => PackedAnswer::GotNone { wts, rts },
        Some(Value::Int(number)) => {
            let number = *number;
            PackedAnswer::GotInt { wts, rts, number }
        }
        Some(Value::Text(text)) => {
            let text = Box::new(alloc, *text)?;
            PackedAnswer::GotText { wts, rts, text }
        }
    })
}

fn stood_on_heap(alloc: Global, value: &Option<Value>) -> Result<PackedAnswer, NoMemory>
    ensures { IfOk result (λ packed. answer_of packed ≡ Answer.Stood value.now) }
{
    Ok(match value {
        None => PackedAnswer::StoodNone,
        Some(Value::Int(number)) => PackedAnswer::StoodInt(*number),
        Some(Value::Text(text)) => PackedAnswer::StoodText(Box::new(alloc, *text)?),
    })
}

impl Packs for Shard {
    ghost use Rattle.coco_shard.specs.Packed.{ask_of, answer_of};

    type PackedAsk = PackedAsk;

    type PackedAnswer = PackedAnswer;

    /// Room for a text.
    type Spare = Box<Text>;

    ghost ask_of = { ask_of };

    ghost answer_of = { answer_of };

    fn pack_ask(alloc: Global, ask: &Ask) -> Result<PackedAsk, NoMemory> {
        Ok(PackedAsk {
            by: ask.by,
            op: PackedOp::of(alloc, &ask.op)?,
        })
    }

    fn spare(alloc: Global) -> Result<Box<Text>, NoMemory> {
        match Text::of("") {
            Some(empty) => Ok(Box::new(alloc, empty)?),
            None => unreachable!(),
        }
    }

    fn pack_answer(answer: &Answer, spare: Box<Text>) -> (PackedAnswer, Option<Box<Text>>) {
        PackedAnswer::of(answer, spare)
    }

    fn unpack_ask(packed: &PackedAsk) -> Ask {
        Ask {
            by: packed.by,
            op: packed.op.get(),
        }
    }

    fn unpack_answer(packed: &PackedAnswer) -> Answer {
        packed.get()
    }
}
