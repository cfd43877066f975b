// One of two deliveries that take turns.
ghost use Rattle.tests.specs.Deliveries.{AreBesideIn};

use disk_mem::MemDisk;
use mail_save::SaveTask;
use mdbox_base::{Progress, Reply};
use store_core::Store;

/// A delivery, with its reply once it has ended.
#[derive(Drop)]
pub struct Turns {
    pub task: SaveTask,
    pub reply: Option<Reply>,
}

/// Does the next event of a delivery beside another one, unless it has ended or the store is stopped.
pub fn advance(store: &mut Store<MemDisk>, one: &mut Turns, other: &Turns)
    requires { AreBesideIn one.old other.now store.old }
    ensures { AreBesideIn one.new other.now store.new }
{
    if store.stopped() || one.reply.is_some() {
        return;
    }
    if let Progress::Done(reply) = one.task.step(store) {
        one.reply = Some(reply);
    }
}
