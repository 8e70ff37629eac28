//! An epoch that was run on a store's map may be prepared and committed: what its two entries keep.

ghost use Rattle.std.specs.Prelude.{ℕ, List};
ghost use Rattle.coco_types.specs.declared.call.Done.{Done};
ghost use Rattle.coco_types.specs.declared.call.Request.{Request};
ghost use Rattle.coco_host.specs.Files.{Files};
ghost use Rattle.coco_ast.specs.Tree.{Procedures};
ghost use Rattle.coco_store.specs.Contents.{Contents, IsGoodStore};
ghost use Rattle.coco_append.specs.EpochEntries.{AreRun, HasRunReady, IsNextIn, MayPrepareRun, MayRun};
ghost use Rattle.coco_append.specs.Tables.{WritesDeclaredTables};

/// A run writes only rows of tables that are declared.
pub fn runs_stay_in_tables()
    ensures { (own : Procedures) → WritesDeclaredTables own }
{}

/// The Dones of new requests that were run on a good store's map keep the rules of a commit entry there.
pub fn a_run_is_the_next_commit()
    ensures { (files : Files) (c : Contents) → IsGoodStore files c → (requests : List Request) (epoch : ℕ) → MayRun c requests epoch
        → (dones : List Done) → AreRun c requests epoch dones → IsNextIn c requests (record { epoch = epoch; dones = dones }) }
{}

/// A node's entry of the last writes of such Dones keeps the rules of a prepared entry, and leaves the map of the Dones.
pub fn a_run_may_be_prepared()
    ensures may { (files : Files) (c : Contents) → IsGoodStore files c → (requests : List Request) (epoch : ℕ) → MayRun c requests epoch
        → (dones : List Done) → MayPrepareRun c requests epoch dones }
    ensures ready { (files : Files) (c : Contents) → IsGoodStore files c → (requests : List Request) (epoch : ℕ) → MayRun c requests epoch
        → (dones : List Done) → HasRunReady c requests epoch dones }
{}
