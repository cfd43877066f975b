// A law of what is found in storage files.
ghost use Rattle.std.specs.Prelude.{◌≡◌, ℕ, List};
ghost use Rattle.disk_model.specs.Disk.{Files};
ghost use Rattle.model_found.specs.Findings.{NumberedFile, AreStorageFiles, Finding, HasFindings, FileFinding, HaveFindings};

/// Of a disk's files there is one list of storage files, and of each file and of all of them one list of findings.
pub fn findings_are_one()
    ensures files { (files : Files) (xs ys : List NumberedFile) → AreStorageFiles files xs → AreStorageFiles files ys → xs ≡ ys }
    ensures file { (octets : List ℕ) (xs ys : List Finding) → HasFindings octets xs → HasFindings octets ys → xs ≡ ys }
    ensures all { (storage : List NumberedFile) (xs ys : List FileFinding) → HaveFindings storage xs → HaveFindings storage ys → xs ≡ ys }
{}
