//! The files of a new store, made one after another.

ghost use Rattle.std.specs.Prelude.{◌≡◌, ℕ, ◌≤◌, Some, [], ◌∷◌, length, IfOk, OnOk};
ghost use Rattle.coco_host.specs.Files.{Files};
ghost use Rattle.coco_host.specs.Moments.{SeesOnly};
ghost use Rattle.coco_ast.specs.Tree.{Procedures};
ghost use Rattle.coco_entry.specs.Layouts.{HasFields, layout_bytes, named_by};
ghost use Rattle.coco_log.specs.Faults.{CountsFault};
ghost use Rattle.coco_log.specs.Grammar.{most_entry_bytes};
ghost use Rattle.coco_log.specs.LogState.{ChangesOne};
ghost use Rattle.coco_store.specs.Contents.{IsGoodLayout};
ghost use Rattle.coco_store.specs.Texts.{IsAcceptedText};
ghost use Rattle.coco_append.specs.Gaining.{RestsOn};
ghost use Rattle.coco_make.specs.Faults.{CountsMake};
ghost use Rattle.coco_log.specs.Changes.{ChangesOnly};
ghost use Rattle.coco_make.specs.Making.{LeavesEmpty, LeavesOnlyLogs, ShowsNewOnly};
ghost use Rattle.coco_make.specs.NewStore.{entry_of, IsNewLayout, new_contents, new_layout};
ghost use Rattle.coco_make.specs.Steps.{HasLayout, HaveEmptyLogs, HaveLogs, MayHave};

use crate::MakeFault;
use coco_entry::{Files, Layout, put_layout};
use coco_host::Host;
use coco_log::{Log, LogFault};
use coco_store::kinds::{COMMITS, LAYOUTS, PREPARED};
use coco_types::{Bytes, NoMemory};
use std::alloc::Global;

/// The layout of a new store: the coordinator's file is 1, those of the nodes are 2, 3 and on, and epochs begin
/// with 1.
pub fn new_layout(
    alloc: Global,
    nodes: u8,
    partitions: u8,
    copies: u8,
    text: Bytes,
) -> Result<Layout, NoMemory>
    ensures { IfOk result (λ layout. layout ≡ new_layout nodes partitions copies text) }
{
    let node_files: Vec<u32> = (2..2 + u32::from(nodes)).collect(alloc)?;
    Ok(Layout {
        nodes,
        partitions,
        copies,
        chief_file: 1,
        node_files: Files::from_vec(node_files),
        base_epoch: 0,
        text,
    })
}

/// Makes a store without epochs: the log of each node, that of the coordinator, and last that of layouts, with this
/// one. Old bytes may stand behind the logs. Where before the call a crash leaves no byte in file 0, at each moment
/// of it a crash leaves no layout there, or the whole store.
pub fn make_store<H: Host>(alloc: Global, host: &mut H, layout: &Layout) -> Result<(), MakeFault>
    requires new { IsNewLayout layout.now }
    requires good { IsGoodLayout (entry_of layout.now) }
    ensures ok { OnOk result ((files : Files) (tree : Procedures) → H.reads host.old ≡ Some files → IsAcceptedText layout.now.text tree
        → RestsOn (new_contents layout.now tree) (H.reads host.new) (H.may_leave host.new)) }
    ensures bytes { OnOk result (LeavesOnlyLogs layout.now (H.reads host.old) (H.reads host.new)) }
    ensures moments { (files : Files) (tree : Procedures) → H.reads host.old ≡ Some files → LeavesEmpty 0 (H.may_leave host.old) → IsAcceptedText layout.now.text tree
        → ShowsNewOnly H.Host layout.now tree host.old host.new }
    ensures changes { ChangesOnly H.Host (named_by layout.now) host.old host.new }
    ensures counts { CountsMake result (H.disk_faults host.old) (H.disk_faults host.new) }
{
    let mut body = Vec::new(alloc);
    put_layout(&mut body, layout, None, None)?;
    make_files(alloc, host, layout, body.as_slice())?;
    Ok(())
}

// Makes the files of a store whose layout has this body.
fn make_files<H: Host>(
    alloc: Global,
    host: &mut H,
    layout: &Layout,
    body: &[u8],
) -> Result<(), LogFault>
    requires new { IsNewLayout layout.now }
    requires good { IsGoodLayout (entry_of layout.now) }
    requires body { body.now ≡ layout_bytes (entry_of layout.now) }
    ensures ok { OnOk result ((files : Files) (tree : Procedures) → H.reads host.old ≡ Some files → IsAcceptedText layout.now.text tree
        → RestsOn (new_contents layout.now tree) (H.reads host.new) (H.may_leave host.new)) }
    ensures bytes { OnOk result (LeavesOnlyLogs layout.now (H.reads host.old) (H.reads host.new)) }
    ensures moments { (files : Files) (tree : Procedures) → H.reads host.old ≡ Some files → LeavesEmpty 0 (H.may_leave host.old) → IsAcceptedText layout.now.text tree
        → ShowsNewOnly H.Host layout.now tree host.old host.new }
    ensures changes { ChangesOnly H.Host (named_by layout.now) host.old host.new }
    ensures counts { CountsFault result (H.disk_faults host.old) (H.disk_faults host.new) }
{
    make_empty_logs(alloc, host, layout)?;
    make_layouts(alloc, host, body)
}

/// Makes the logs of a layout's nodes, and then that of its coordinator, without entries. Old bytes may stand behind
/// them.
pub fn make_empty_logs<H: Host>(
    alloc: Global,
    host: &mut H,
    layout: &Layout,
) -> Result<(), LogFault>
    requires { HasFields layout.now }
    ensures ok { OnOk result ((before : Files) → H.reads host.old ≡ Some before → HaveEmptyLogs layout.now before (H.reads host.new) (H.may_leave host.new)) }
    ensures changes { ChangesOnly H.Host (layout.now.chief_file ∷ layout.now.node_files) host.old host.new }
    ensures counts { CountsFault result (H.disk_faults host.old) (H.disk_faults host.new) }
{
    make_logs(alloc, host, layout.node_files.as_slice(), PREPARED)?;
    make_logs(alloc, host, &[layout.chief_file], COMMITS)
}

// Makes a log without entries in each of these files.
fn make_logs<H: Host>(alloc: Global, host: &mut H, files: &[u32], kind: u8) -> Result<(), LogFault>
    ensures ok { OnOk result ((before : Files) → H.reads host.old ≡ Some before → HaveLogs kind files.now (length files.now) before (H.reads host.new) (H.may_leave host.new)) }
    ensures changes { ChangesOnly H.Host files.now host.old host.new }
    ensures counts { CountsFault result (H.disk_faults host.old) (H.disk_faults host.new) }
{
    for file in files {
        Log::make(alloc, host, *file, kind)?;
    }
    Ok(())
}

// Makes the log of layouts, with one of this body.
fn make_layouts<H: Host>(alloc: Global, host: &mut H, body: &[u8]) -> Result<(), LogFault>
    requires { length body.now ≤ most_entry_bytes }
    ensures ok { OnOk result ((before : Files) → H.reads host.old ≡ Some before → HasLayout body.now before (H.reads host.new) (H.may_leave host.new)) }
    ensures moments { (files : Files) → H.reads host.old ≡ Some files → LeavesEmpty 0 (H.may_leave host.old)
        → SeesOnly H.moment H.observed host.old host.new (ChangesOne 0 (MayHave body.now) (H.may_leave host.old) (H.said host.old)) }
    ensures changes { ChangesOnly H.Host (0 ∷ []) host.old host.new }
    ensures counts { CountsFault result (H.disk_faults host.old) (H.disk_faults host.new) }
{
    let mut layouts = Log::make(alloc, host, 0, LAYOUTS)?;
    layouts.append(host, body)
}
