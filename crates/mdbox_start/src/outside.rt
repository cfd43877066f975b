// The program over what the system gives.
ghost use Rattle.std.specs.Prelude.{◌≡◌, ◌≤◌};
ghost use Rattle.std.specs.Process.{exit_status};

use crate::asked::{Asked, asked_by};
use crate::dovecot::is_dovecots;
use crate::exits::exit_of;
use crate::folder::run_in;
use crate::reasons::{has_no_reader, tell_disk, tell_input, tell_more, tell_output};
use crate::streams::hold_streams;
use crate::words::{are_text, words_of};
use mdbox_base::{MemSink, Octets, Seq, Sink, give_all};
use os_folder::{OsFolder, StdClock, StdSink, StdSource};
use request_text::{Outcome, Status, report};
use std::env;
use std::process::ExitCode;
use std::sync::Wait;
use std::thread::Threads;

/// How many octets a run may tell on standard error without memory. Of its end it tells two lines at most, of 150 and 200; a rebuild tells more.
const ROOM: usize = 512;

/// Runs the words after the program's name on standard input, output and errors, the system's clock and the files of the
/// current folder, and ends with the status of that run. If the numbers of closed streams can't be kept from files, it ends with 6;
/// a rebuild beside Dovecot's own files isn't begun, and ends with 3. Only `main` may hand on its runtime as one that starts threads and
/// waits for them, so `start` is given it twice.
///
/// What the run tells of its end is held until then. It isn't told if the reader of the output has gone, and more may be told after it.
pub fn start<R: Threads + Wait + Sync>(rt: &R, host: HostRuntime) -> ExitCode
    ensures { exit_status result ≤ 8 }
{
    let mut errors = StdSink::of(host.stderr());
    let Ok(_held) = hold_streams(host) else {
        return exit_of(report(host.alloc(), &mut errors, Outcome::DiskFault));
    };
    let Ok(room) = Vec::with_capacity(host.alloc(), ROOM) else {
        return exit_of(report(host.alloc(), &mut errors, Outcome::NoMemory));
    };
    let all = env::args(&host);
    let is_text = are_text(&all);
    let words = words_of(host.alloc(), all);
    let asked = asked_by(host.alloc(), is_text, &words);
    if matches!(asked, Asked::Rebuild) && is_dovecots(&host) {
        return refuse_dovecots(&mut errors);
    }
    let mut input = StdSource::of(host.stdin());
    let mut output = StdSink::of(host.stdout());
    let mut clock = StdClock::of(host);
    let mut told = MemSink::of(Octets::of(room), Seq::empty(host.alloc()));
    let (status, disk) = run_in(
        rt,
        host.alloc(),
        words,
        OsFolder::of(host),
        &mut input,
        &mut output,
        &mut told,
        &mut clock,
    );
    let folder = disk.into_folder().into_folder();
    if status.0 == 8 && has_no_reader(&output) {
        return exit_of(status);
    }
    let _ = give_all(&mut errors, told.held().as_slice());
    match status.0 {
        0 | 2 => tell_more(host, &mut errors, &asked),
        3 => folder.leave(),
        6 => tell_disk(host, &mut errors, &folder),
        7 => tell_input(host, &mut errors, &input, &clock),
        8 => tell_output(host, &mut errors, &output),
        _ => {}
    }
    exit_of(status)
}

/// Tells that a rebuild isn't begun beside Dovecot's own files, and with which status that ends.
fn refuse_dovecots<E: Sink>(errors: &mut E) -> ExitCode
    ensures { exit_status result ≤ 8 }
{
    let _ = give_all(
        errors,
        b"mdbox: Dovecot's index is here: copy storage/m.* and attachments into a new folder first\n",
    );
    exit_of(Status(3))
}
