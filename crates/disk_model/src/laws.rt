// Laws of names and of files at rest.
ghost use Rattle.std.specs.Prelude.{◌≡◌, ◌↔◌, ◌⊎◌, ◌<◌, ℕ, List};
ghost use Rattle.std.specs.Ordering.{nat_cmp};
ghost use Rattle.std.specs.Cmp.Lexicographic.{slice_cmp};
ghost use Rattle.std.specs.declared.cmp.Ordering.TheVariants.{Less};
ghost use Rattle.disk_model.specs.Disk.{Files, DiskState, IsAtRest, IsImage, reading};
ghost use Rattle.disk_model.specs.declared.name.FileName.{FileName};
ghost use Rattle.disk_model.specs.declared.name.FileName.TheVariants as file;

use crate::FileName;

/// Names are ordered by kind, and within a kind by their numbers, or by their octets.
pub fn names_are_ordered()
    ensures root_map { (generation : ℕ) → ⟦<FileName as Ord>⟧.cmp file.Root (file.Map generation) ≡ Less }
    ensures map_box { (generation number box_generation : ℕ) → ⟦<FileName as Ord>⟧.cmp (file.Map generation) (file.Box number box_generation) ≡ Less }
    ensures box_mail { (number generation mail : ℕ) → ⟦<FileName as Ord>⟧.cmp (file.Box number generation) (file.Mail mail) ≡ Less }
    ensures mail_inst { (mail : ℕ) (hash id : List ℕ) → ⟦<FileName as Ord>⟧.cmp (file.Mail mail) (file.Inst hash id) ≡ Less }
    ensures maps { (g h : ℕ) → g < h → ⟦<FileName as Ord>⟧.cmp (file.Map g) (file.Map h) ≡ Less }
    ensures boxes { (k l g h : ℕ) → (k < l) ⊎ ((k ≡ l) × (g < h)) → ⟦<FileName as Ord>⟧.cmp (file.Box k g) (file.Box l h) ≡ Less }
    ensures mails { (n m : ℕ) → n < m → ⟦<FileName as Ord>⟧.cmp (file.Mail n) (file.Mail m) ≡ Less }
    ensures insts { (a b i j : List ℕ) → (slice_cmp nat_cmp a b ≡ Less) ⊎ ((a ≡ b) × (slice_cmp nat_cmp i j ≡ Less)) → ⟦<FileName as Ord>⟧.cmp (file.Inst a i) (file.Inst b j) ≡ Less }
{}

/// A crash leaves of files at rest just what they read.
pub fn images_of_disk_at_rest()
    ensures { (disk : DiskState) → ((name : FileName) → IsAtRest (disk name)) → (image : Files) → IsImage disk image ↔ ((name : FileName) → image name ≡ reading (disk name)) }
{}
