// Laws of resyncs.
ghost use Rattle.task_steps.specs.Step.{IsKept};
ghost use Rattle.resync_task.specs.Stages.{ResyncAt, IsAtResync};

/// Where a resync stands is kept by every event of another request.
pub fn resync_stages_are_kept()
    ensures { (stage : ResyncAt) → IsKept (IsAtResync stage) }
{}
