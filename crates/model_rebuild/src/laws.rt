// Laws of a rebuild.
ghost use Rattle.std.specs.Prelude.{◌≡◌, ℕ, List, [], ◌∷◌, All};
ghost use Rattle.disk_model.specs.Disk.{Files, DiskState, IsImage, IsThere, change, change_all, named, removed, synced};
ghost use Rattle.disk_model.specs.declared.name.FileName.{FileName};
ghost use Rattle.disk_model.specs.declared.name.FileName.TheVariants as file;
ghost use Rattle.mdbox_base.specs.declared.entries.RootEntry.TheVariants as root;
ghost use Rattle.model_lists.specs.Lists.{Lists};
ghost use Rattle.model_logs.specs.Entries.{root_text};
ghost use Rattle.model_logs.specs.declared.log_head.LogKind.TheVariants as kind;
ghost use Rattle.model_rebuild.specs.RebuildMoments.{IsBeforeLogs, IsBeforeRoot, IsLeftByRebuild, KeepsRebuilt};
ghost use Rattle.model_rebuild.specs.RebuildPlan.{RebuildPlan, IsPlanFor};
ghost use Rattle.model_rebuild.specs.RebuiltLists.{lists_of};
ghost use Rattle.model_rebuild.specs.RebuiltLogs.{HasRebuiltLogs, HasSameMessage};
ghost use Rattle.model_store.specs.Safe.{Safe};
ghost use Rattle.model_store.specs.Settled.{files_of};
ghost use Rattle.model_store.specs.Stands.{HasLog, head_of};

/// Files have one plan: there is one answer for each disk.
pub fn a_rebuild_is_one()
    ensures { (files : Files) (store : List ℕ) (p q : RebuildPlan) → IsPlanFor files store p → IsPlanFor files store q → p ≡ q }
{}

/// Files with the planned logs, and with the storage files and instances that messages were taken from, are safe for the lists of
/// these messages.
pub fn rebuilt_files_are_safe()
    ensures { (files image : Files) (store : List ℕ) (plan : RebuildPlan) → IsPlanFor files store plan → All (HasSameMessage files image) plan.taken → HasRebuiltLogs image store plan → Safe image (lists_of plan.taken) }
{}

/// What a crash leaves at each call of a rebuild. Before the first log is made, files are synced, the root log is removed, and the
/// names are synced: it leaves files as they were, with or without the root log (`before`). Then, as long as the root log has no entry, it leaves
/// one without an entry (`between`). Of the last append it leaves that, or files that are safe for the lists (`last`).
pub fn a_rebuild_can_crash()
    ensures synced { (old now : DiskState) (name : FileName) → IsBeforeLogs old now → IsImage now (files_of now) → IsThere (now name) → IsBeforeLogs old (change name synced now) }
    ensures removed { (old now : DiskState) → IsBeforeLogs old now → IsBeforeLogs old (change file.Root removed now) }
    ensures named { (old now : DiskState) → IsBeforeLogs old now → IsBeforeLogs old (change_all named now) }
    ensures gone { (old now : DiskState) → IsBeforeLogs old now → IsBeforeRoot old (change_all named (change file.Root removed now)) }
    ensures before { (old now : DiskState) (lists : Lists) (image : Files) → IsBeforeLogs old now → IsImage now image → IsLeftByRebuild old lists image }
    ensures between { (old now : DiskState) (lists : Lists) (image : Files) → IsBeforeRoot old now → IsImage now image → IsLeftByRebuild old lists image }
    ensures last { (old now : DiskState) (store : List ℕ) (plan : RebuildPlan) (image : Files) → IsPlanFor (files_of old) store plan → KeepsRebuilt old now store plan → IsImage now image
        → HasLog image file.Root (head_of store kind.Root 0 0) (root_text (root.M plan.map_generation) ∷ []) → Safe image (lists_of plan.taken) }
{}
