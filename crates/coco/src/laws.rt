//! Which calls succeed.

ghost use Rattle.coco.specs.Success.{CompactSucceeds, DumpSucceeds, FewLinesHaveNumbers, FewRequestsHaveNumbers, InitSucceeds, MigrateSucceeds, QuerySucceeds, RebuildSucceeds, RunSucceeds, TrySucceeds, VerifySucceeds};

use coco_host::Host;
use coco_init::one_answer;
use coco_store::a_refused_store_is_none;

/// Where no count of faults rose, a command ends with status 0, or with 6 for want of memory: `run` on a good store, by
/// fewer than 2^62 bytes and with a number for each epoch, and then all lines are answered; `try` on a good
/// store with a number for each epoch, and then its workload is told of; `init` by an accepted text,
/// where file 0 is empty; `dump`, `verify`, `migrate` and `compact` on a good store; `rebuild` on one that
/// is good but for the node's file, where each partition of the node has another holder; `query` on a good store at one of
/// its epochs, by fewer than 2^62 bytes, and then all lines are answered.
pub fn commands_succeed<H: Host>()
    ensures run { RunSucceeds H.Host }
    ensures tries { TrySucceeds H.Host }
    ensures init { InitSucceeds H.Host }
    ensures dump { DumpSucceeds H.Host }
    ensures verify { VerifySucceeds H.Host }
    ensures migrate { MigrateSucceeds H.Host }
    ensures compact { CompactSucceeds H.Host }
    ensures rebuild { RebuildSucceeds H.Host }
    ensures query { QuerySucceeds H.Host }
    ensures numbers { FewLinesHaveNumbers }
    ensures numbers_for { FewRequestsHaveNumbers }
{
    a_refused_store_is_none();
    one_answer();
}
