// Laws of paths.
ghost use Rattle.file_paths.specs.OneFile.{HaveOwnPaths};

/// No two files of a store have one path.
pub fn files_have_own_paths()
    ensures { HaveOwnPaths }
{}
