// Laws of look-ups among storage files.
ghost use Rattle.std.specs.Prelude.{◌≡◌, ◌≢◌, ◌++◌, ◌∷◌, [], ℕ, List, Some, None};
ghost use Rattle.std.specs.Option.{option_map};
ghost use Rattle.mdbox_base.specs.declared.ids.FileNo.{FileNo};
ghost use Rattle.storage_files.specs.declared.file.MailFile.{MailFile};
ghost use Rattle.storage_files.specs.Files.{file_in, changed_in, without_file, file_begun};

/// What is done to one file leaves those with other numbers alone, and is what is found of it then.
pub fn files_change_apart()
    ensures changed { (number : ℕ) (change : MailFile → MailFile) (files : List MailFile) → ((f : MailFile) → (change f).file.0 ≡ f.file.0) → file_in number (changed_in number change files) ≡ option_map change (file_in number files) }
    ensures others { (number other : ℕ) (change : MailFile → MailFile) (files : List MailFile) → ((f : MailFile) → (change f).file.0 ≡ f.file.0) → other ≢ number → file_in other (changed_in number change files) ≡ file_in other files }
    ensures gone { (number : ℕ) (files : List MailFile) → file_in number (without_file number files) ≡ None }
    ensures others_left { (number other : ℕ) (files : List MailFile) → other ≢ number → file_in other (without_file number files) ≡ file_in other files }
    ensures begun { (file : FileNo) (files : List MailFile) → file_in file.0 files ≡ None → file_in file.0 (files ++ file_begun file ∷ []) ≡ Some (file_begun file) }
    ensures others_before { (file : FileNo) (other : ℕ) (files : List MailFile) → other ≢ file.0 → file_in other (files ++ file_begun file ∷ []) ≡ file_in other files }
{}
