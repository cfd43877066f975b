// Laws of files of mail that stay.
ghost use Rattle.std.specs.Prelude.{◌≡◌, ℕ, true, Option, Some};
ghost use Rattle.disk_model.specs.Disk.{Files, History, IfTold, IsAtRest, IsIdle, IsImage, reading};
ghost use Rattle.disk_model.specs.declared.name.FileName.TheVariants as file;
ghost use Rattle.model_meaning.specs.MapMeaning.{MapMeaning, is_sealed};
ghost use Rattle.model_kept.specs.Kept.{MailStays, MailIsKept, NeedsAllOf};

/// Calls that change nothing keep the mail.
pub fn idle_calls_keep_mail()
    ensures { (m : MapMeaning) (old new : Option History) → IsIdle old new → MailIsKept m old new }
{}

/// What calls keep one after another, they keep together. The disk's reads give one of its images, as those of each disk do.
pub fn kept_mail_stays_kept()
    ensures { (m : MapMeaning) (old now new : Option History) → IfTold now (λ disk. IsImage disk (λ name. reading (disk name))) → MailIsKept m old now → MailIsKept m now new → MailIsKept m old new }
{}

/// Of a sealed file at rest each image has just what was read before.
pub fn kept_mail_at_rest()
    ensures { (m : MapMeaning) (old : History) (image : Files) (number : ℕ) → IsAtRest (old.now (file.Mail number)) → is_sealed m number ≡ true → MailStays m (Some old) image → image (file.Mail number) ≡ reading (old.now (file.Mail number)) }
{}

/// What stays for a map stays for each that needs no more.
pub fn mail_kept_for_less()
    ensures { (more less : MapMeaning) (old new : Option History) → NeedsAllOf more less → MailIsKept more old new → MailIsKept less old new }
{}
