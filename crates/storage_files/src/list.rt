// Storage files in order of number, and the look-ups among them.
ghost use Rattle.std.specs.Prelude.{◌≡◌, ◌≢◌, ◌+◌, ◌<◌, ◌≤◌, true, false, length, take, drop, slice_get, All, AllPairs, Contains, Some, IfSome, IsNone, vec_len, vec_capacity};
ghost use Rattle.storage_files.specs.declared.file.MailFile.{MailFile};
ghost use Rattle.storage_files.specs.Files.{MayBeTakenFor, is_number_past, file_in, change_of, changed_in, without_file};

use crate::file::{FULL, FileChange, MailFile};
use mdbox_base::FileNo;

/// The file with this number.
pub(crate) fn find(files: &[MailFile], file: FileNo) -> Option<MailFile>
    requires rising { AllPairs (λ a b. a.file.0 < b.file.0) files.now }
    ensures { result ≡ file_in file.0 files.now }
{
    match place_of(files, file) {
        Some(at) => Some(files[at]),
        None => None,
    }
}

/// Changes what is known of the file with this number.
pub(crate) fn change(files: &mut [MailFile], file: FileNo, how: FileChange)
    requires rising { AllPairs (λ a b. a.file.0 < b.file.0) files.old }
    ensures { files.new ≡ changed_in file.0 (change_of how) files.old }
{
    if let Some(at) = place_of(files, file) {
        let f = files[at];
        files[at] = how.of(f);
    }
}

/// Leaves out the file with this number.
pub(crate) fn leave_out(files: &mut Vec<MailFile>, file: FileNo)
    requires rising { AllPairs (λ a b. a.file.0 < b.file.0) files.old.items }
    ensures items { files.new.items ≡ without_file file.0 files.old.items }
    ensures len { vec_len files.new ≤ vec_len files.old }
    ensures capacity { vec_capacity files.new ≡ vec_capacity files.old }
{
    if let Some(at) = place_of(files, file) {
        let _ = files.remove(at);
    }
}

/// The place of the file with this number, by search.
fn place_of(files: &[MailFile], file: FileNo) -> Option<usize>
    requires rising { AllPairs (λ a b. a.file.0 < b.file.0) files.now }
    ensures some { IfSome result (λ at. (f : MailFile) × (slice_get files.now at ≡ Some f) × (f.file.0 ≡ file.0)) }
    ensures none { IsNone result → All (λ f. f.file.0 ≢ file.0) files.now }
{
    match files.binary_search_by_key(&file.0, |f| f.file.0) {
        Ok(at) => Some(at),
        Err(_) => None,
    }
}

/// The place of the first file with a greater number than this one, by search; without one, of the first file of all.
pub(crate) fn place_past(files: &[MailFile], after: Option<FileNo>) -> usize
    requires rising { AllPairs (λ a b. a.file.0 < b.file.0) files.now }
    ensures within { result ≤ length files.now }
    ensures before { All (λ f. is_number_past after f.file.0 ≡ false) (take result files.now) }
    ensures behind { All (λ f. is_number_past after f.file.0 ≡ true) (drop result files.now) }
{
    match after {
        Some(after) => match files.binary_search_by_key(&after.0, |f| f.file.0) {
            Ok(at) => at + 1,
            Err(at) => at,
        },
        None => 0,
    }
}

/// The file with the greatest number of those that have room for so many octets.
pub(crate) fn greatest_with_room(files: &[MailFile], size: u32) -> Option<FileNo>
    requires rising { AllPairs (λ a b. a.file.0 < b.file.0) files.now }
    ensures some { IfSome result (λ file. (f : MailFile) × Contains files.now f × (f.file ≡ file) × MayBeTakenFor size f × All (λ g. MayBeTakenFor size g → g.file.0 ≤ file.0) files.now) }
    ensures none { IsNone result → All (λ g. MayBeTakenFor size g → ⊥) files.now }
{
    if u64::from(size) > FULL {
        return None; // no file is filled so far
    }
    match last_with_room(files, size) {
        Some(at) => Some(files[at].file),
        None => None,
    }
}

/// The place of the last file that has room for so many octets. It looks from the last one down, and no further.
fn last_with_room(files: &[MailFile], size: u32) -> Option<usize>
    ensures some { IfSome result (λ at. (f : MailFile) × (slice_get files.now at ≡ Some f) × MayBeTakenFor size f) }
    ensures last { IfSome result (λ at. All (λ f. MayBeTakenFor size f → ⊥) (drop (at + 1) files.now)) }
    ensures none { IsNone result → All (λ f. MayBeTakenFor size f → ⊥) files.now }
{
    let mut place = files.len();
    while place > 0 {
        place -= 1;
        if files[place].has_room(size) {
            return Some(place);
        }
    }
    None
}
