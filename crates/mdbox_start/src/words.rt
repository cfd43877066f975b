// The words that a program is given.
ghost use Rattle.std.specs.Prelude.{◌≡◌, ◌≢◌, [], drop, IsErr, IsOk, IfErr, IfOk};
ghost use Rattle.std.specs.IoError.{error_kind};
ghost use Rattle.std.specs.Vec.Iter.{into_iter_items};
ghost use Rattle.std.specs.declared.io.ErrorKind.TheVariants.{InvalidData};

use mdbox_base::NoMemory;
use std::alloc::Global;
use std::env::Args;
use std::io::{self, ErrorKind};

/// The words after the program's name, of what the system answers when it is asked for all. None of them if one isn't UTF-8,
/// so that they say no command.
pub(crate) fn words_of(alloc: Global, all: io::Result<Args>) -> Result<Vec<String>, NoMemory>
    ensures given { IfOk all (λ given. IfOk result (λ words. words.items ≡ drop 1 (into_iter_items given))) }
    ensures no_text { IfErr all (λ error. error_kind error ≡ InvalidData → IsOk result × IfOk result (λ words. words.items ≡ [])) }
    ensures memory { IfErr all (λ error. error_kind error ≢ InvalidData → IsErr result) }
{
    match all {
        Ok(all) => after_name(alloc, all),
        Err(error) if error.kind() == ErrorKind::InvalidData => Ok(Vec::new(alloc)),
        Err(_) => Err(NoMemory),
    }
}

/// Whether the words that the system gives are UTF-8.
pub(crate) fn are_text(all: &io::Result<Args>) -> bool {
    match all {
        Ok(_) => true,
        Err(error) => error.kind() != ErrorKind::InvalidData,
    }
}

/// The words after the first, which is the program's name.
fn after_name(alloc: Global, mut all: Args) -> Result<Vec<String>, NoMemory>
    ensures { IfOk result (λ words. words.items ≡ drop 1 (into_iter_items all)) }
{
    let _name = all.next();
    let mut words = Vec::new(alloc);
    while let Some(word) = all.next() {
        words.push(word)?;
    }
    Ok(words)
}
