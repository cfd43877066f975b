// An example of a rebuild, computed.
ghost use Rattle.std.specs.Prelude.{◌≡◌, codes};
ghost use Rattle.model_logs.specs.LogExamples.{example_store};
ghost use Rattle.model_rebuild.specs.RebuildExample.{lost_files, example_plan, rebuilt_lists, rebuilt_map_entries, rebuilt_work_entries};
ghost use Rattle.model_rebuild.specs.RebuildPlan.{IsPlanFor};
ghost use Rattle.model_rebuild.specs.RebuiltLists.{lists_of};
ghost use Rattle.model_rebuild.specs.RebuiltLogs.{rebuilt_map, rebuilt_box};

/// The plan of the files of the example, with its lists and the entries of its logs.
pub fn example_is_rebuilt()
    ensures plan { IsPlanFor lost_files example_store example_plan }
    ensures lists { lists_of example_plan.taken ≡ rebuilt_lists }
    ensures map_log { rebuilt_map example_plan.highest example_plan.box_generation example_plan.taken example_plan.skipped ≡ rebuilt_map_entries }
    ensures work_log { rebuilt_box (codes "Work") example_plan.taken ≡ rebuilt_work_entries }
{}
