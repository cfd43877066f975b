// Who prepares the messages of a script.
ghost use Rattle.std.specs.Prelude.{⊤, All, IfOk};
ghost use Rattle.std.specs.Thread.{IsSync};
ghost use Rattle.lanes.specs.Worlds.{AreGiven};
ghost use Rattle.script_text.specs.Script.{FitsScript};

use crate::all::prepare_all;
use crate::turn::prepare_in_turn;
use attach_detach::Prepared;
use mdbox_base::{NoMemory, Request, Seq};
use std::alloc::Global;
use std::thread::Threads;

/// Prepares the messages of a script.
pub trait Preparer {
    /// That threads may share its runtime, if it has one. A method isn't told what its type's bounds say, so its caller is asked for it.
    ghost shared: { Self → Type 0 };

    /// What each request is given beside: a delivery its message with its attachments taken out, any other nothing.
    fn prepare_messages(
        &self,
        alloc: Global,
        requests: &[(u32, Request)],
    ) -> Result<Seq<Option<Prepared>>, NoMemory>
        requires shared { shared self.now }
        requires fits { All (λ asked. FitsScript asked.1) requests.now }
        ensures { IfOk result (AreGiven requests.now) };
}

/// Prepares one after another.
#[derive(Drop)]
pub struct InTurn;

/// Prepares in threads.
#[derive(Drop)]
pub struct InThreads<'x, R: Threads + Sync> {
    pub rt: &'x R,
}

impl Preparer for InTurn {
    ghost shared = { λ _. ⊤ };

    fn prepare_messages(
        &self,
        alloc: Global,
        requests: &[(u32, Request)],
    ) -> Result<Seq<Option<Prepared>>, NoMemory> {
        prepare_in_turn(alloc, requests)
    }
}

impl<R: Threads + Sync> Preparer for InThreads<'_, R> {
    ghost shared = { λ _. IsSync R.row };

    fn prepare_messages(
        &self,
        alloc: Global,
        requests: &[(u32, Request)],
    ) -> Result<Seq<Option<Prepared>>, NoMemory> {
        prepare_all(self.rt, alloc, requests)
    }
}
