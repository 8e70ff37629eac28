//! A layout more, by which a store becomes another one whose files stand ready.

ghost use Rattle.std.specs.Prelude.{◌≡◌, ◌≢◌, ◌⊎◌, ◌≤◌, true, length, OnOk, OnErr};
ghost use Rattle.coco_types.specs.Limits.{most_procedure_bytes};
ghost use Rattle.coco_host.specs.Files.{Become, Follows};
ghost use Rattle.coco_entry.specs.Layouts.{IsLayout, layout_bytes};
ghost use Rattle.coco_entry.specs.declared.layout.LayoutEntry.{LayoutEntry};
ghost use Rattle.coco_log.specs.Faults.{CountsFault};
ghost use Rattle.coco_log.specs.LogState.{IsFresh, LogState, SameBut, with_entry};
ghost use Rattle.coco_store.specs.Contents.{Contents};
ghost use Rattle.coco_store.specs.Entries.{layouts_file, layouts_kind};
ghost use Rattle.coco_store.specs.Rules.{IsWithinLimits};
ghost use Rattle.coco_store.specs.Switching.{IsReadyFor, Switches};
ghost use Rattle.coco_append.specs.Gaining.{GainsAs, HasLogsOf, HasStore, RestsAs, Stands};

use coco_entry::{Layout, put_layout};
use coco_host::Host;
use coco_log::{Log, LogFault};
use std::alloc::Global;

/// Adds a layout to the log of layouts. At each moment the files have the logs of before, or they are the store that
/// stands ready under this layout.
pub fn add_layout<H: Host>(
    alloc: Global,
    host: &mut H,
    log: &mut Log,
    layout: &Layout,
    keep: Option<u16>,
    base_file: Option<u32>,
) -> Result<(), LogFault>
    requires log { IsFresh log.old layouts_file layouts_kind }
    requires stands { Stands log.old (H.reads host.old) (H.may_leave host.old) }
    requires is { IsLayout (record { layout = layout.now; keep = keep; base_file = base_file }) }
    requires limits { IsWithinLimits (record { layout = layout.now; keep = keep; base_file = base_file }) }
    requires text { length layout.now.text ≤ most_procedure_bytes }
    ensures gains { (c d : Contents) → let entry : LayoutEntry = record { layout = layout.now; keep = keep; base_file = base_file } in
        Switches c d → d.setting.entry ≡ entry → RestsAs (IsReadyFor c d) (H.reads host.old) (H.may_leave host.old)
        → GainsAs H.Host result (HasLogsOf (H.may_leave host.old)) (HasStore d) host.old host.new }
    ensures log { OnOk result (log.new ≡ with_entry log.old (layout_bytes (record { layout = layout.now; keep = keep; base_file = base_file }))) }
    ensures stands { OnOk result (Stands log.new (H.reads host.new) (H.may_leave host.new)) }
    ensures err { OnErr result (((host.new ≡ host.old) × (log.new ≡ log.old)) ⊎ (log.new ≡ record log.old { spent = true })) }
    ensures others { (other : LogState) → other.file ≢ layouts_file → Stands other (H.reads host.old) (H.may_leave host.old) → Stands other (H.reads host.new) (H.may_leave host.new) }
    ensures files { Become (SameBut layouts_file) (H.reads host.old) (H.reads host.new) }
    ensures crash { Follows (SameBut layouts_file) (H.may_leave host.old) (H.may_leave host.new) }
    ensures said { H.said host.new ≡ H.said host.old }
    ensures counts { CountsFault result (H.disk_faults host.old) (H.disk_faults host.new) }
    ensures stream { H.say_faults host.new ≡ H.say_faults host.old }
{
    let mut body = Vec::new(alloc);
    put_layout(&mut body, layout, keep, base_file)?;
    log.append(host, body.as_slice())
}
