//! Calls of procedures, what they answer and write, and their Dones once they are committed.
ghost use Rattle.std.specs.Prelude.{◌≡◌, IfOk};

use crate::{Args, KeptReply, Key, NoMemory, PackedWrites, Sequence, Value};

/// A call of a procedure. A snapshot call reads the versions of the last committed epoch.
#[derive(Debug, PartialEq, Eq, Drop)]
pub struct Call {
    pub proc_no: u16,
    pub snapshot: bool,
    pub args: Args,
}

impl Call {
    /// An equal call.
    pub fn try_clone(&self) -> Result<Call, NoMemory>
        ensures { IfOk result (λ copy. copy ≡ self.now) }
    {
        Ok(Call {
            proc_no: self.proc_no,
            snapshot: self.snapshot,
            args: self.args.try_clone()?,
        })
    }
}

/// A call under the id by which its answer is found again.
#[derive(Debug, PartialEq, Eq, Drop)]
pub struct Request {
    pub id: u64,
    pub call: Call,
}

/// Why a procedure refused: by its own number, or by a rule of the language.
#[derive(Clone, Copy, Debug, PartialEq, Eq)]
pub enum Cause {
    User(u16),
    Overflow,
    ZeroDivide,
    Kind,
    BadRow,
}

/// What a call answers. A refused call changed nothing.
#[derive(Clone, Copy, Debug, PartialEq, Eq)]
pub enum Reply {
    Ok(Option<Value>),
    Refused(Cause),
}

/// A new value of a row, none where the row goes away.
#[derive(Clone, Copy, Debug, PartialEq, Eq)]
pub struct Write {
    pub key: Key,
    pub value: Option<Value>,
}

pub type Writes = Sequence<Write>;

/// All keys of a map that have a value, each with its value, rising by key.
pub type MapRows = Sequence<(Key, Value)>;

/// A committed request: its epoch, its logical time in it, and its reply.
#[derive(Debug, PartialEq, Eq, Drop)]
pub struct Done {
    pub id: u64,
    pub call: Call,
    pub epoch: u64,
    pub time: u64,
    pub reply: KeptReply,
}

pub type Dones = Sequence<Done>;

impl Done {
    /// An equal Done.
    pub fn try_clone(&self) -> Result<Done, NoMemory>
        ensures { IfOk result (λ copy. copy ≡ self.now) }
    {
        Ok(Done {
            id: self.id,
            call: self.call.try_clone()?,
            epoch: self.epoch,
            time: self.time,
            reply: self.reply.try_clone()?,
        })
    }
}

/// What one request wrote in one partition. The place is the request's place in its epoch.
#[derive(Debug, Drop)]
pub struct Piece {
    pub place: u32,
    pub partition: u8,
    pub time: u64,
    pub writes: PackedWrites,
}

pub type Pieces = Sequence<Piece>;

/// Which attempt: its worker, and its number among that worker's.
#[derive(Clone, Copy, Debug, PartialEq, Eq)]
pub struct AttemptId {
    pub worker: u32,
    pub number: u64,
}
