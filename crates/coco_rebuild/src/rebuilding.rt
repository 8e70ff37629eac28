//! A node's file made again: a new file is written, and then it is named by one layout more.

ghost use Rattle.std.specs.Prelude.{◌≡◌, ℕ, ◌<◌, Some, Err};
ghost use Rattle.coco_host.specs.Files.{Become, Files, Follows};
ghost use Rattle.coco_append.specs.Gaining.{GainsAs};
ghost use Rattle.coco_log.specs.Changes.{SameBesides};
ghost use Rattle.coco_read.specs.Faults.{Counts};
ghost use Rattle.coco_read.specs.declared.fault.OpenFault.TheVariants as opening;
ghost use Rattle.coco_recover.specs.Without.{AreSoundParts, HasParts, HoldsBut, IsFirstRefusalBut, IsGoodBut, PartsStand, RestsBut, entry_of_parts};
ghost use Rattle.coco_store.specs.Contents.{Contents};
ghost use Rattle.coco_rebuild.specs.Answers.{AnswersFor, CountsRebuild, NeedsStore, Rebuilds};
ghost use Rattle.coco_rebuild.specs.Rebuilding.{HasRebuilt, IsHeldAlone, rebuild_files};
ghost use Rattle.coco_rebuild.specs.declared.fault.RebuildFault.TheVariants as fault;

use crate::RebuildFault;
use crate::fault::answer_to;
use crate::laws::a_rebuilt_store_is_good;
use crate::layout::{new_file, with_file};
use crate::ring::held_alone;
use crate::writing::write_node;
use coco_append::add_layout;
use coco_host::Host;
use coco_read::OpenFault;
use coco_recover::{Parts, a_store_is_one_but_for_a_node, read_without};
use std::alloc::Global;

/// Makes the file of a node again, out of those of the other holders of its partitions, of which at most two are read.
/// The node's old file isn't, and stays as it is. It says nothing.
pub fn rebuild<H: Host>(alloc: Global, host: &mut H, node: u8) -> Result<(), RebuildFault>
    ensures refused { (file at : ℕ) (files : Files) → result ≡ Err (fault.NotAStore file at) → H.reads host.old ≡ Some files → IsFirstRefusalBut node files file at }
    ensures holds { (files : Files) → H.reads host.old ≡ Some files → NeedsStore result ((c : Contents) × HoldsBut node files c) }
    ensures answers { (files : Files) (c : Contents) → H.reads host.old ≡ Some files → HoldsBut node files c → AnswersFor node c.setting.entry.layout result }
    ensures seen { Rebuilds H.Host node result host.old host.new }
    ensures said { H.said host.new ≡ H.said host.old }
    ensures counts { CountsRebuild result (H.disk_faults host.old) (H.disk_faults host.new) }
    ensures stream { H.say_faults host.new ≡ H.say_faults host.old }
{
    let parts = read_without(alloc, host, node)?;
    let layout = &parts.layout;
    if node >= layout.nodes {
        return Err(RebuildFault::NoNode {
            nodes: layout.nodes,
        });
    }
    if let Some(partition) = held_alone(layout, node) {
        return Err(RebuildFault::NoHolder { partition });
    }
    rebuild_store(alloc, host, node, parts)?;
    Ok(())
}

/// Makes the file of a node again that a store has which was read without it, and of whose partitions each has another
/// holder.
pub fn rebuild_store<H: Host>(
    alloc: Global,
    host: &mut H,
    node: u8,
    parts: Parts,
) -> Result<(), OpenFault>
    requires node { node < parts.layout.nodes }
    requires held { (p : ℕ) → ¬ (IsHeldAlone parts.layout node p) }
    requires sound { AreSoundParts node parts }
    requires stands { PartsStand parts (H.reads host.old) (H.may_leave host.old) }
    // At each moment, and whatever the answer is, there is the store that is good but for the node, or the good one with its file; after Ok there is no other than this.
    ensures gains { (c : Contents) → HasParts c parts → RestsBut node c (H.reads host.old) (H.may_leave host.old)
        → GainsAs H.Host result (λ image. IsGoodBut node image c) (HasRebuilt node c) host.old host.new }
    ensures kept { (file at : ℕ) (files : Files) (c : Contents) → H.reads host.old ≡ Some files → HoldsBut node files c → HasParts c parts → ¬ (result ≡ Err (opening.NotAStore file at)) }
    ensures files { Become (SameBesides (rebuild_files (entry_of_parts parts))) (H.reads host.old) (H.reads host.new) }
    ensures crash { Follows (SameBesides (rebuild_files (entry_of_parts parts))) (H.may_leave host.old) (H.may_leave host.new) }
    ensures said { H.said host.new ≡ H.said host.old }
    ensures counts { Counts result (H.disk_faults host.old) (H.disk_faults host.new) }
    ensures stream { H.say_faults host.new ≡ H.say_faults host.old }
{
    // The laws by which the new file makes the store good; the calls do nothing.
    a_rebuilt_store_is_good();
    a_store_is_one_but_for_a_node();
    let Parts {
        layout,
        keep,
        base_file,
        epochs,
        mut root,
        ..
    } = parts;
    let file = new_file(alloc, &layout, base_file)?;
    write_node(alloc, host, &layout, node, epochs.as_slice(), file)?;
    let layout = with_file(layout, node, file);
    answer_to(add_layout(alloc, host, &mut root, &layout, keep, base_file))
}
