// Laws of disks over a folder.
ghost use Rattle.std.specs.Prelude.{◌≡◌};
ghost use Rattle.folder_model.specs.System.{System, IsSystem};
ghost use Rattle.disk_files.specs.Follows.{FollowsSystem, HasOwnFiles};
ghost use Rattle.folder_disk.specs.Start.{started_disk};
ghost use Rattle.folder_disk.specs.Over.{IsStoreDisk};

/// A disk follows the system that its process began with, whatever an earlier one left.
pub fn disks_begin()
    ensures follows { (s : System) → IsSystem s → HasOwnFiles s → FollowsSystem (started_disk s) s }
    ensures disk { (s : System) → IsSystem s → IsStoreDisk (started_disk s) }
{}
