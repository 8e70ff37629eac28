//! A reply as it is kept: a packed value, or a cause.
ghost use Rattle.std.specs.Prelude.{◌≡◌, IfOk, MatchResult};
ghost use Rattle.coco_types.specs.declared.call.Reply.TheVariants as reply;

use crate::{Cause, NoMemory, Packed, Reply};
use std::alloc::Global;
use std::marker::Model;

#[derive(Debug, PartialEq, Eq, Drop)]
enum Kind {
    Ok(Packed),
    Refused(Cause),
}

/// A reply, kept so that one without a text takes little room. Contracts see just the reply.
#[derive(Debug, Drop)]
pub struct KeptReply {
    kind: Kind,
}

impl Model for KeptReply {
    ghost use Rattle.coco_types.specs.declared.call.Reply.{Reply as Answer};
    ghost use Rattle.coco_types.specs.KeptReplies.{reply_of};

    ghost Value = { Answer };

    ghost view = { λ r. reply_of r.kind };
}

impl KeptReply {
    /// The reply, its text on this heap.
    pub fn of(alloc: Global, reply: &Reply) -> Result<KeptReply, NoMemory>
        ensures { IfOk result (λ kept. kept ≡ reply.now) }
    {
        let kind = match reply {
            Reply::Ok(value) => Kind::Ok(Packed::of(alloc, value)?),
            Reply::Refused(cause) => Kind::Refused(*cause),
        };
        Ok(KeptReply { kind })
    }

    /// The reply that answers this value or none. It takes no memory.
    pub fn answered(value: Packed) -> KeptReply
        ensures { result ≡ reply.Ok value }
    {
        KeptReply {
            kind: Kind::Ok(value),
        }
    }

    /// The reply of a call that was refused for this cause. It takes no memory.
    pub fn refused(cause: Cause) -> KeptReply
        ensures { result ≡ reply.Refused cause }
    {
        KeptReply {
            kind: Kind::Refused(cause),
        }
    }

    pub fn get(&self) -> Reply
        ensures { result ≡ self.now }
    {
        match &self.kind {
            Kind::Ok(value) => Reply::Ok(value.get()),
            Kind::Refused(cause) => Reply::Refused(*cause),
        }
    }

    /// The value or none that is answered, or why the call was refused.
    pub fn answer(&self) -> Result<&Packed, Cause>
        ensures { MatchResult result (λ value. self.now ≡ reply.Ok value.now) (λ cause. self.now ≡ reply.Refused cause) }
    {
        match &self.kind {
            Kind::Ok(value) => Ok(value),
            Kind::Refused(cause) => Err(*cause),
        }
    }

    /// The same once more.
    pub fn try_clone(&self) -> Result<KeptReply, NoMemory>
        ensures { IfOk result (λ copy. copy ≡ self.now) }
    {
        let kind = match &self.kind {
            Kind::Ok(value) => Kind::Ok(value.try_clone()?),
            Kind::Refused(cause) => Kind::Refused(*cause),
        };
        Ok(KeptReply { kind })
    }
}

impl PartialEq for KeptReply {
    ghost use Rattle.std.specs.Cmp.{partial_equiv_from_equiv};
    ghost use Rattle.coco_types.specs.contracts.call.ReplyEq.TheImpl.Laws.{laws-law};

    ghost eq = { ⟦<Reply as PartialEq>⟧.eq };

    ghost laws = { partial_equiv_from_equiv laws-law };

    fn eq(&self, other: &Self) -> bool {
        self.kind == other.kind
    }
}

impl Eq for KeptReply {
    ghost use Rattle.coco_types.specs.contracts.call.ReplyEq.TheImpl.Laws.{laws-law};

    ghost laws = { laws-law };
}
