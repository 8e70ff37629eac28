//! A store compacted: its new files are written, and then it is switched to by one layout.

ghost use Rattle.std.specs.Prelude.{◌≡◌};
ghost use Rattle.coco_host.specs.Files.{Become, Follows};
ghost use Rattle.coco_append.specs.Gaining.{GainsAs, HasStore, RestsOn, Stands};
ghost use Rattle.coco_log.specs.Changes.{SameBesides};
ghost use Rattle.coco_log.specs.Faults.{CountsFault};
ghost use Rattle.coco_recover.specs.Opening.{Has, IsSoundStore, entry_in, its_keep};
ghost use Rattle.coco_store.specs.Contents.{Contents};
ghost use Rattle.coco_ckpt.specs.Compacting.{HasCompacted, compact_files};

use crate::files::write_files;
use crate::laws::a_compacted_store_is_good;
use crate::layout::compact_entry;
use coco_append::add_layout;
use coco_ast::laws::compacted_alike;
use coco_entry::LayoutEntry;
use coco_host::Host;
use coco_lines::laws::alike_lines;
use coco_log::LogFault;
use coco_recover::Opened;
use std::alloc::Global;

/// Makes the store small that was opened: its map, its kept Dones and its floor become the base of new files, under
/// the greatest epoch of any entry, and one layout more switches to them. The files of before stay as they are.
pub fn compact_store<H: Host>(alloc: Global, host: &mut H, store: Opened) -> Result<(), LogFault>
    requires sound { IsSoundStore store }
    requires stands { Stands store.logs.root (H.reads host.old) (H.may_leave host.old) }
    // At each moment, and whatever the answer is, there is the store of before or the compacted one; after Ok there is no other than this.
    ensures gains { (c : Contents) → Has (its_keep c) c store → RestsOn c (H.reads host.old) (H.may_leave host.old)
        → GainsAs H.Host result (HasStore c) (HasCompacted c) host.old host.new }
    ensures files { Become (SameBesides (compact_files (entry_in store))) (H.reads host.old) (H.reads host.new) }
    ensures crash { Follows (SameBesides (compact_files (entry_in store))) (H.may_leave host.old) (H.may_leave host.new) }
    ensures said { H.said host.new ≡ H.said host.old }
    ensures counts { CountsFault result (H.disk_faults host.old) (H.disk_faults host.new) }
{
    // The laws by which the new files are a store like the old one; the calls do nothing.
    a_compacted_store_is_good();
    compacted_alike();
    alike_lines();
    let Opened {
        layout,
        kept,
        shards,
        mut logs,
        next_epoch,
        keep,
        base_file,
        ..
    } = store;
    let old = LayoutEntry {
        layout,
        keep,
        base_file,
    };
    let (entry, base) = compact_entry(alloc, old, next_epoch - 1)?;
    write_files(alloc, host, &entry.layout, base, &kept, shards.as_slice())?;
    let log = &mut logs.root;
    add_layout(alloc, host, log, &entry.layout, entry.keep, entry.base_file)
}
