// Laws.
ghost use Rattle.std.specs.Prelude.{◌≡◌, ◌≤◌, ◌+◌, ◌++◌, ℕ, List, length};
ghost use Rattle.disk_model.specs.Disk.{FileState, written};

/// Two writes side by side do what one does.
pub fn writes_join()
    ensures { (f : FileState) (at : ℕ) (a b : List ℕ) → at ≤ length f.octets → written (at + length a) b (written at a f) ≡ written at (a ++ b) f }
{}
