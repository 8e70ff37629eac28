//! The new requests of a batch.

ghost use Rattle.std.specs.Prelude.{◌≡◌, ◌<◌, ◌^◌, [], ◌∷◌, ◌++◌, length, None, IfOk, OnOk, OnErr, nat_eq, map};
ghost use Rattle.std.specs.List.{IsDistinct};
ghost use Rattle.std.specs.Option.{option_copied, option_map};
ghost use Rattle.coco_batches.specs.Asking.{request_under};
ghost use Rattle.coco_types.specs.declared.call.Request.{Request as Asked};

use coco_types::{Call, NoMemory, Request};
use indexmap::IndexMap;
use std::alloc::Global;
use std::marker::Model;

/// The new requests of a batch, in the order of their lines, each under its id. Contracts see their list.
#[derive(Drop)]
pub struct NewRequests {
    calls: IndexMap<u64, Call>,
}

impl Model for NewRequests {
    ghost use Rattle.std.specs.Prelude.{List};
    ghost use Rattle.coco_types.specs.declared.call.Request.{Request as Asked};
    ghost use Rattle.coco_batches.specs.Asking.{requests_of};

    ghost Value = { List Asked };

    ghost view = { λ f. requests_of f.calls.entries };
}

impl NewRequests {
    /// No requests, with room for so many.
    pub fn with_room(alloc: Global, count: usize) -> Result<NewRequests, NoMemory>
        ensures { IfOk result (λ fresh. fresh ≡ []) }
    {
        let calls = IndexMap::with_capacity(alloc, count)?;
        Ok(NewRequests { calls })
    }

    pub fn len(&self) -> usize
        ensures len { result ≡ length self.now }
    {
        self.calls.len()
    }

    /// The call of a request, if its id is there.
    pub fn call_of(&self, id: u64) -> Option<&Call>
        ensures { option_copied result ≡ option_map (λ r. r.call) (request_under id self.now) }
    {
        self.calls.get(&id)
    }

    /// Adds a request at the end.
    pub fn push(&mut self, request: Request) -> Result<(), NoMemory>
        requires { request_under request.id self.old ≡ None }
        ensures ok { OnOk result (self.new ≡ self.old ++ request ∷ []) }
        ensures err { OnErr result (self.new ≡ self.old) }
    {
        let Request { id, call } = request;
        self.calls.insert(id, call)?;
        Ok(())
    }

    /// The requests, in the order of their lines.
    pub fn into_requests(self, alloc: Global) -> Result<Vec<Request>, NoMemory>
        ensures { IfOk result (λ requests. requests.items ≡ self) }
    {
        let NewRequests { calls } = self;
        let mut requests = Vec::with_capacity(alloc, calls.len())?;
        for (id, call) in calls {
            requests.push(Request { id, call })?;
        }
        Ok(requests)
    }
}
