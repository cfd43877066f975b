// What was read of a message behind its header.
ghost use Rattle.std.specs.Prelude.{◌≡◌, ◌≢◌, ◌≤◌, ◌+◌, ◌++◌, true, false, ℕ, List, [], length, vec_capacity};
ghost use Rattle.mail_fetch.specs.Held.{HasJoinRoom, HasOctetRoom, HoldsPart, IsUnknown, octets_of_instances, octets_held};
ghost use Rattle.mail_fetch.specs.Parts.{octets_to_read};
ghost use Rattle.mail_fetch.specs.Room.{IsCut};

use crate::message::{HEADER, stored_message};
use crate::parts::StoredAt;
use attach_join::{fit_into, keep, spread_out};
use mdbox_base::ExtRef;

/// What was read of a message behind its header, and the room for the rest.
#[derive(Drop)]
pub enum Held {
    /// The octets as they came.
    AsRead {
        octets: Vec<u8>,
        /// With room for the references.
        refs: Vec<ExtRef>,
        /// With room for the metadata.
        tail: Vec<u8>,
    },
    /// The region is read, and is the message that is stored there. Its body is spread over the octets of the whole, in whose ranges so
    /// many octets of the instances are kept.
    Spread {
        whole: Vec<u8>,
        refs: Vec<ExtRef>,
        /// The region behind its body.
        tail: Vec<u8>,
        kept: usize,
    },
    /// The octets as they came, of a message that is damaged, whatever comes.
    Damaged {
        octets: Vec<u8>,
    },
}

/// Adds a piece behind what was read.
pub fn with_piece(from: &StoredAt, head: &mut Vec<u8>, held: Held, piece: &[u8]) -> Held
    requires held { (left : ℕ) × HoldsPart from.now head.old.items left held }
    requires head_room { 30 ≤ vec_capacity head.old }
    requires room { length (head.old.items ++ octets_held from.now.instances held) + length piece.now ≤ octets_to_read from.now }
    ensures read { head.new.items ++ octets_held from.now.instances result ≡ (head.old.items ++ octets_held from.now.instances held) ++ piece.now }
    ensures held { (left : ℕ) → HoldsPart from.now head.old.items (left + length piece.now) held → HoldsPart from.now head.new.items left result }
    ensures known { IsUnknown result → IsUnknown held }
    ensures head_room { vec_capacity head.old ≤ vec_capacity head.new }
{
    match held {
        Held::AsRead { octets, refs, tail } => {
            let mut octets = octets;
            add_piece(head, &mut octets, piece);
            Held::AsRead { octets, refs, tail }
        }
        Held::Spread {
            whole,
            refs,
            tail,
            kept,
        } => {
            let mut whole = whole;
            keep(&mut whole, &refs, from.instances.as_slice(), kept, piece);
            Held::Spread {
                whole,
                refs,
                tail,
                kept: kept + piece.len(),
            }
        }
        Held::Damaged { octets } => {
            let mut octets = octets;
            add_piece(head, &mut octets, piece);
            Held::Damaged { octets }
        }
    }
}

/// The same octets, once all is read that is there of the region: then it is known of a message with instances whether its region is the
/// one that is stored there, and if so its body is spread.
pub fn settled(from: &StoredAt, head: &[u8], held: Held) -> Held
    requires held { (left : ℕ) × HoldsPart from.now head.now left held }
    ensures octets { octets_held from.now.instances result ≡ octets_held from.now.instances held }
    ensures held { (left : ℕ) → HoldsPart from.now head.now left held → (IsUnknown held → from.now.instances ≢ [] → (length (head.now ++ octets_held from.now.instances held) ≤ from.now.size) × (left ≤ octets_of_instances from.now)) → HoldsPart from.now head.now left result }
    ensures known { IsUnknown result → from.now.instances ≡ [] }
{
    if from.instances.length() == 0 {
        return held;
    }
    match held {
        Held::AsRead { octets, refs, tail } => settle(from, head, octets, refs, tail),
        Held::Spread {
            whole,
            refs,
            tail,
            kept,
        } => Held::Spread {
            whole,
            refs,
            tail,
            kept,
        },
        Held::Damaged { octets } => Held::Damaged { octets },
    }
}

/// The same if all is read that is there of the region, and else what is held.
pub fn settled_if(is_read: bool, from: &StoredAt, head: &[u8], held: Held) -> Held
    requires held { (left : ℕ) × HoldsPart from.now head.now left held }
    ensures octets { octets_held from.now.instances result ≡ octets_held from.now.instances held }
    ensures held { (left : ℕ) → HoldsPart from.now head.now left held → (is_read ≡ true → IsUnknown held → from.now.instances ≢ [] → (length (head.now ++ octets_held from.now.instances held) ≤ from.now.size) × (left ≤ octets_of_instances from.now)) → HoldsPart from.now head.now left result }
    ensures known { IsUnknown result → from.now.instances ≢ [] → (is_read ≡ false) × IsUnknown held }
{
    if is_read {
        settled(from, head, held)
    } else {
        held
    }
}

/// The same of octets as they came.
fn settle(from: &StoredAt, head: &[u8], octets: Vec<u8>, refs: Vec<ExtRef>, tail: Vec<u8>) -> Held
    requires some { from.now.instances ≢ [] }
    requires octets { HasOctetRoom from.now head.now octets }
    requires room { HasJoinRoom from.now octets refs tail }
    ensures octets { octets_held from.now.instances result ≡ octets.items }
    ensures held { (left : ℕ) → length (head.now ++ octets.items) ≤ from.now.size → left ≤ octets_of_instances from.now → HoldsPart from.now head.now left result }
    ensures known { IsUnknown result → from.now.instances ≡ [] }
{
    if head.len() + octets.len() != from.size as usize || head.len() != HEADER {
        return Held::Damaged { octets };
    }
    let Some((size, refs)) = stored_message(from, head, &octets, refs) else {
        return Held::Damaged { octets };
    };
    let whole = from.listed as usize;
    if !fit_into(whole, size, &refs, from.instances.as_slice()) {
        return Held::Damaged { octets };
    }
    let mut octets = octets;
    let mut tail = tail;
    put(&mut tail, &octets[size..]);
    spread_out(&mut octets, whole, size, &refs);
    Held::Spread {
        whole: octets,
        refs,
        tail,
        kept: 0,
    }
}

/// Adds a piece behind what was read: what belongs to the header there, and the rest behind it.
fn add_piece(head: &mut Vec<u8>, octets: &mut Vec<u8>, piece: &[u8])
    requires cut { IsCut head.old.items octets.old.items }
    requires head_room { 30 ≤ vec_capacity head.old }
    requires room { length (head.old.items ++ octets.old.items) + length piece.now ≤ vec_capacity octets.old }
    ensures cut { IsCut head.new.items octets.new.items }
    ensures read { head.new.items ++ octets.new.items ≡ (head.old.items ++ octets.old.items) ++ piece.now }
    ensures head_room { vec_capacity head.old ≤ vec_capacity head.new }
    ensures room { vec_capacity octets.old ≤ vec_capacity octets.new }
{
    let missing = HEADER - head.len();
    let (front, behind) = piece.split_at(piece.len().min(missing));
    put(head, front);
    put(octets, behind);
}

/// Adds octets at the end, where there is room for them.
fn put(out: &mut Vec<u8>, octets: &[u8])
    requires { length out.old.items + length octets.now ≤ vec_capacity out.old }
    ensures octets { out.new.items ≡ out.old.items ++ octets.now }
    ensures room { vec_capacity out.old ≤ vec_capacity out.new }
{
    let Ok(()) = out.extend_from_slice(octets) else {
        unreachable!()
    };
}
