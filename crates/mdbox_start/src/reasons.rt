// What is told on standard error after what the run told: why a call of the system failed, and what else an administrator wants to know.
use crate::asked::Asked;
use crate::dovecot::lacks_mail_file;
use crate::version::proof;
use mdbox_base::give_all;
use os_folder::{OsFolder, StdClock, StdSink, StdSource};
use request_text::Status;
use std::alloc::AllocError;
use std::io::{ErrorKind, Write};
use std::rt::Stderr;

/// Tells a line. One that finds no memory isn't told, and a fault changes nothing.
fn tell(errors: &mut StdSink<Stderr>, line: Result<String, AllocError>) {
    if let Ok(line) = line {
        let _ = give_all(errors, line.as_bytes());
    }
}

/// Whether the reader of the output has gone. Of that nothing is told.
pub(crate) fn has_no_reader<W: Write>(output: &StdSink<W>) -> bool {
    match output.failure() {
        Some(error) => error.kind() == ErrorKind::BrokenPipe,
        None => false,
    }
}

/// Tells which call of the disk failed.
pub(crate) fn tell_disk(rt: HostRuntime, errors: &mut StdSink<Stderr>, folder: &OsFolder) {
    if let Some(failure) = folder.failure() {
        tell(errors, format!(in rt.alloc(); "{failure}\n"));
    }
}

/// Tells whether the input or the clock failed.
pub(crate) fn tell_input(
    rt: HostRuntime,
    errors: &mut StdSink<Stderr>,
    input: &StdSource,
    clock: &StdClock,
) {
    if clock.has_failed() {
        let _ = give_all(errors, b"the clock\n");
    }
    if let Some(error) = input.failure() {
        tell(errors, format!(in rt.alloc(); "standard input: {error}\n"));
    }
}

/// Tells how the output failed.
pub(crate) fn tell_output<W: Write>(
    rt: HostRuntime,
    errors: &mut StdSink<Stderr>,
    output: &StdSink<W>,
) {
    if let Some(error) = output.failure() {
        tell(errors, format!(in rt.alloc(); "standard output: {error}\n"));
    }
}

/// Tells what else there is to know of a run that did what was asked, or of words that ask for nothing.
pub(crate) fn tell_more(rt: HostRuntime, errors: &mut StdSink<Stderr>, asked: &Asked) {
    match asked {
        Asked::Nothing(line) => {
            let _ = give_all(errors, line.as_slice());
        }
        Asked::NoText => {
            let _ = give_all(errors, b"a word isn't UTF-8\n");
        }
        Asked::Version => tell(errors, format!(in rt.alloc(); "{}\n", proof())),
        Asked::Rebuild if lacks_mail_file(&rt) => {
            let _ = give_all(
                errors,
                b"mdbox: there is no storage file here: the store is empty\n",
            );
        }
        Asked::Rebuild | Asked::Another => {}
    }
}
