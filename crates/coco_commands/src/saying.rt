//! A text is said, and the ending that goes with it.

ghost use Rattle.std.specs.Prelude.{◌≡◌};
ghost use Rattle.coco_host.specs.Files.{NoMore};
ghost use Rattle.coco_host.specs.Moments.{IsNew, SeesOnly};
ghost use Rattle.coco_commands.specs.Telling.{EndsVerdict, SaysText};

use coco_ending::Ending;
use coco_host::{Host, say_all};
use coco_types::OutFault;

/// Says a text: the call ends so where it is said whole.
pub(crate) fn say_text<H: Host>(host: &mut H, text: &[u8], own: Ending) -> Ending
    requires { EndsVerdict own }
    ensures says { SaysText text.now own result (H.said host.old) (H.said host.new) (record { say = H.say_faults host.old; disk = H.disk_faults host.old })
        (record { say = H.say_faults host.new; disk = H.disk_faults host.new }) }
    ensures same { H.reads host.new ≡ H.reads host.old }
    ensures crash { NoMore (H.may_leave host.old) (H.may_leave host.new) }
    ensures sees { SeesOnly H.moment H.observed host.old host.new (IsNew (H.may_leave host.old) (H.said host.old) (H.said host.new)) }
    ensures disk { H.disk_faults host.new ≡ H.disk_faults host.old }
{
    match say_all(host, text) {
        Ok(()) => own,
        Err(OutFault::Failed) => Ending::SayFault,
        Err(OutFault::NoMemory) => Ending::NoMemory,
    }
}
