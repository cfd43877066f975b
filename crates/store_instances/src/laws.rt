// Laws of the instances that an opening makes known.
ghost use Rattle.std.specs.Prelude.{[], ℕ, List};
ghost use Rattle.std.specs.List.{AllByRecursion};
ghost use Rattle.mdbox_base.specs.declared.entries.MapEntry.{MapEntry};
ghost use Rattle.model_logs.specs.Entries.{MapInRange};
ghost use Rattle.model_meaning.specs.MapFits.{AllMapFit};
ghost use Rattle.model_meaning.specs.MapMeaning.{map_meaning};
ghost use Rattle.store_instances.specs.FoundInstances.{AreInstancesSound};

use model_meaning::meanings_are_sound;

/// No entry of a map log whose entries fit names an instance with a running number past the highest, nor one with another hash
/// or size than elsewhere.
pub fn named_instances_are_sound()
    ensures { (store : List ℕ) (entries : List MapEntry) → AllMapFit store [] entries → AllByRecursion MapInRange entries → AreInstancesSound (map_meaning store entries) }
{
    meanings_are_sound();
}
