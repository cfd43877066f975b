// The replies of a world.
ghost use Rattle.std.specs.Prelude.{◌≡◌, ◌≤◌, ◌<◌, ◌++◌, ◌∷◌, [], ℕ, None, Some, length, option_map, replicate, slice_set, IfOk, OnOk};
ghost use Rattle.mdbox_base.specs.declared.replies.Reply.{Reply as ReplyValue};
ghost use Rattle.lanes.specs.Kept.{AreKeptOf, emptied};

use mdbox_base::{NoMemory, Octets, Reply, Seq};
use std::alloc::Global;
use std::marker::Model;
use std::snapshot::Snapshot;

/// The replies of requests, in their order. Of a request that is asked later, only the last reply has its octets or rows.
#[derive(Drop)]
pub struct Replies {
    kept: Vec<Option<Reply>>,
    /// Each as it was given. It takes no memory.
    given: Vec<Snapshot<Option<Reply>>>,
    /// Of how many requests the replies are kept as they were given.
    first: usize,
}

impl Model for Replies {
    ghost use Rattle.std.specs.Prelude.{◌≡◌, length, map, min, vec_len, vec_capacity};
    ghost use Rattle.lanes.specs.Kept.{AreKeptOf, RepliesValue};

    ghost Value = { RepliesValue };

    ghost view = { λ r. record { given = map (λ one. one.value) r.given.items; first = r.first; room = min (vec_capacity r.kept) (vec_capacity r.given) } };

    ghost invariant = { λ r. AreKeptOf r.first (map (λ one. one.value) r.given.items) r.kept.items × (vec_len r.kept ≡ length r.kept.items) × (vec_len r.given ≡ length r.given.items) };
}

impl Replies {
    /// No reply for each of so many requests.
    pub fn none(alloc: Global, requests: usize) -> Result<Replies, NoMemory>
        ensures { IfOk result (λ replies. (replies.given ≡ replicate requests None) × (replies.first ≡ requests)) }
    {
        let mut kept = Vec::with_capacity(alloc, requests)?;
        let mut given = Vec::with_capacity(alloc, requests)?;
        for _ in 0..requests {
            kept.push(None)?;
            given.push(Snapshot::of(&None))?;
        }
        Ok(Replies {
            kept,
            given,
            first: requests,
        })
    }

    /// How many there are.
    pub fn len(&self) -> usize
        ensures { result ≡ length self.now.given }
    {
        self.kept.len()
    }

    /// What is kept of them.
    pub fn as_slice(&self) -> &[Option<Reply>]
        ensures { AreKeptOf self.now.first self.now.given result.now }
    {
        self.kept.as_slice()
    }

    /// Makes room for one more.
    pub fn reserve(&mut self) -> Result<(), NoMemory>
        ensures same { (self.new.given ≡ self.old.given) × (self.new.first ≡ self.old.first) }
        ensures ok { OnOk result (length self.new.given < self.new.room) }
    {
        self.kept.reserve(1)?;
        self.given.reserve(1)?;
        Ok(())
    }

    /// Adds a place for a reply. Octets and rows of the last one are let go, unless it is one of the first.
    pub fn ask(&mut self, alloc: Global)
        requires { length self.old.given < self.old.room }
        ensures { (self.new.given ≡ self.old.given ++ None ∷ []) × (self.new.first ≡ self.old.first) }
    {
        let place = self.kept.len();
        if place > self.first {
            let_go(alloc, &mut self.kept[place - 1]);
        }
        self.kept.push_reserved(None);
        self.given.push_reserved(Snapshot::of(&None));
    }

    /// Puts a reply in its place.
    pub fn put(&mut self, place: usize, reply: Reply)
        requires { place < length self.old.given }
        ensures { (self.new.given ≡ slice_set self.old.given place (Some reply)) × (self.new.first ≡ self.old.first) }
    {
        let given = Some(reply);
        self.given[place] = Snapshot::of(&given);
        self.kept[place] = given;
    }

    /// What is kept of them.
    pub fn into_kept(self) -> Seq<Option<Reply>>
        ensures { AreKeptOf self.first self.given result }
    {
        let Replies {
            kept,
            given: _given,
            first: _first,
        } = self;
        Seq::of(kept)
    }
}

/// Lets go of octets or rows of a reply.
fn let_go(alloc: Global, reply: &mut Option<Reply>)
    ensures { reply.new ≡ option_map emptied reply.old }
{
    match reply {
        Some(Reply::Fetched(_)) => *reply = Some(Reply::Fetched(Octets::empty(alloc))),
        Some(Reply::Listed(_)) => *reply = Some(Reply::Listed(Seq::empty(alloc))),
        _ => {}
    }
}
