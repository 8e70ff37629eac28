//! What holds of nodes once all have finished.

ghost use Rattle.std.specs.Prelude.{ℕ, List};
ghost use Rattle.coco_ast.specs.Keyed.{Rows};
ghost use Rattle.coco_chief.specs.Shown.{chief_of};
ghost use Rattle.coco_copy.specs.CopyState.{CopyState};
ghost use Rattle.coco_entry.specs.declared.layout.Layout.{Layout as Places};
ghost use Rattle.coco_finish.specs.Exchanges.{HaveAllFinished};
ghost use Rattle.coco_finish.specs.Finishing.{is_behind};
ghost use Rattle.coco_finish.specs.declared.tables.NodeTables.{NodeTables as AllTables};
ghost use Rattle.coco_members.specs.AtRest.{AreAtRest, NoneBehind};
ghost use Rattle.coco_members.specs.declared.members.Members.{Members as AllMembers};
ghost use Rattle.coco_net.specs.declared.letter.Posted.{Posted as Sent};
ghost use Rattle.coco_standing.specs.Standing.{TablesStand, none_behind};

/// Where all nodes have finished what was committed last none is behind, and then tables stand at their map.
pub fn finished_nodes_are_not_behind()
    ensures none { (next : ℕ) (sent : List Sent) (k : AllMembers) → AreAtRest next sent k → HaveAllFinished (chief_of k.chief) → NoneBehind k.tables }
    ensures stand { (layout : Places) (m : Rows) (t : AllTables) (copies : List CopyState) → NoneBehind t → TablesStand layout m (is_behind t.behind.items) t.shards.items copies
        → TablesStand layout m none_behind t.shards.items copies }
{}
