// The message in the octets that a fetch has read.
ghost use Rattle.std.specs.Prelude.{◌≡◌, ◌≢◌, ◌≤◌, ◌+◌, ◌++◌, ◌↔◌, ℕ, List, [], All, IsTrue, true, false, length, take, vec_capacity, IfSome, IfNone, Some};
ghost use Rattle.std.specs.Option.{option_map_or};
ghost use Rattle.attach_join.specs.Behind.{octets_in};
ghost use Rattle.attach_join.specs.Kept.{FitInto, kept_in};
ghost use Rattle.attach_join.specs.Spread.{outside};
ghost use Rattle.model_attach.specs.Rejoined.{IsWhole};
ghost use Rattle.model_base64.specs.Base64Text.{IsForm};
ghost use Rattle.model_store.specs.Stands.{NameInstances};
ghost use Rattle.mail_fetch.specs.Held.{HoldsPart, IsUnknown, octets_held};
ghost use Rattle.mail_fetch.specs.Parts.{octets_to_read};
ghost use Rattle.mail_fetch.specs.Region.{HoldsWhole, IsStoredMessage, IsToldByLines};
ghost use Rattle.mail_fetch.specs.Room.{IsCut};

use crate::held::{Held, settled};
use crate::parts::StoredAt;
use attach_join::write_texts;
use dbox_file::{header_size, lines_in};
use dbox_metadata::{Brief, read_brief};
use mdbox_base::{ExtRef, Guid, InstRow};

/// How many octets a message's header has.
pub const HEADER: usize = 30;

/// The octets of the message that was read: its header, and what is held behind it. None if and only if it isn't the one that is stored
/// there. It takes no memory: the body of a message without attachments stays where it lies, and the texts of instances are written over
/// the ranges that their octets are kept in.
pub fn message_of(
    from: &StoredAt,
    head: &[u8],
    held: Held,
    total: usize,
    block: &mut [u8],
) -> Option<Vec<u8>>
    requires held { (left : ℕ) × HoldsPart from.now head.now left held }
    requires region { IsUnknown held → from.now.instances ≢ [] → length (head.now ++ octets_held from.now.instances held) ≤ from.now.size }
    requires total { total ≡ octets_to_read from.now }
    requires block { 1 ≤ length block.old }
    ensures some { IfSome result (λ octets. HoldsWhole from.now (head.now ++ octets_held from.now.instances held) octets.items) }
    ensures none { IfNone result ((octets : List ℕ) → HoldsWhole from.now (head.now ++ octets_held from.now.instances held) octets → ⊥) }
{
    match settled(from, head, held) {
        Held::AsRead {
            octets,
            refs,
            tail: _,
        } => message_alone(from, head, octets, total, refs),
        Held::Spread {
            whole,
            refs,
            tail: _,
            kept,
        } => joined(
            from,
            whole,
            &refs,
            kept == total - from.size as usize,
            block,
        ),
        Held::Damaged { .. } => None,
    }
}

/// The whole, once all octets of the instances are kept.
fn joined(
    from: &StoredAt,
    whole: Vec<u8>,
    refs: &[ExtRef],
    is_all: bool,
    block: &mut [u8],
) -> Option<Vec<u8>>
    requires fit { (stored : ℕ) × FitInto (length whole.items) stored refs.now from.now.instances }
    requires forms { All (λ ref. IfSome ref.form IsForm) refs.now }
    requires block { 1 ≤ length block.old }
    ensures some { IfSome result (λ octets. (is_all ≡ true) × (length octets.items ≡ length whole.items) × IsWhole octets.items (outside refs.now whole.items) refs.now (octets_in from.now.instances (kept_in refs.now from.now.instances whole.items))) }
    ensures none { IfNone result (is_all ≡ false) }
{
    if !is_all {
        return None;
    }
    let mut whole = whole;
    write_texts(&mut whole, refs, from.instances.as_slice(), block);
    Some(whole)
}

/// The octets of a message without attachments that was read: its header, and behind it the rest of the region. None if and only if
/// it isn't the one that is stored there.
fn message_alone(
    from: &StoredAt,
    head: &[u8],
    read: Vec<u8>,
    total: usize,
    refs: Vec<ExtRef>,
) -> Option<Vec<u8>>
    requires alone { from.now.instances ≡ [] }
    requires cut { IsCut head.now read.items }
    requires total { total ≡ octets_to_read from.now }
    requires empty { refs.items ≡ [] }
    requires room { length from.now.instances ≤ vec_capacity refs }
    ensures some { IfSome result (λ octets. HoldsWhole from.now (head.now ++ read.items) octets.items) }
    ensures none { IfNone result ((octets : List ℕ) → HoldsWhole from.now (head.now ++ read.items) octets → ⊥) }
{
    let behind = (from.size as usize).checked_sub(HEADER)?;
    if head.len() + read.len() != total {
        return None;
    }
    let (size, _) = stored_message(from, head, &read[..behind], refs)?;
    body_alone(read, size, from.listed as usize)
}

/// The body of a message without attachments, if it has the size that is told.
fn body_alone(read: Vec<u8>, size: usize, listed: usize) -> Option<Vec<u8>>
    requires { size ≤ length read.items }
    ensures some { IfSome result (λ octets. (size ≡ listed) × (octets.items ≡ take size read.items)) }
    ensures none { IfNone result (size ≡ listed → ⊥) }
{
    if size != listed {
        return None;
    }
    let mut octets = read;
    octets.truncate(size);
    Some(octets)
}

/// How many octets the body of the one message has that a header and what follows it are, and its references, where it is the one
/// that is stored there.
pub fn stored_message(
    from: &StoredAt,
    head: &[u8],
    behind: &[u8],
    refs: Vec<ExtRef>,
) -> Option<(usize, Vec<ExtRef>)>
    requires head { length head.now ≡ 30 }
    requires empty { refs.items ≡ [] }
    requires room { length from.now.instances ≤ vec_capacity refs }
    ensures some { IfSome result (λ x. (x.0 ≤ length behind.now) × ((s : IsStoredMessage from.now (head.now ++ behind.now)) × (take x.0 behind.now ≡ s.message.body) × (x.0 ≡ length s.message.body) × (x.1.items ≡ s.meta.refs))) }
    ensures none { IfNone result (IsStoredMessage from.now (head.now ++ behind.now) → ⊥) }
{
    let size = header_size(head)?;
    let (_, block) = behind.split_at_checked(size as usize)?;
    let brief = read_brief(lines_in(block)?, refs)?;
    if !is_told(&brief, from, u64::from(size)) {
        return None;
    }
    Some((size as usize, brief.refs))
}

/// Whether the lines of a message, whose body has so many octets, tell what is kept of it.
fn is_told(brief: &Brief, from: &StoredAt, size: u64) -> bool
    ensures { IsTrue result ↔ IsToldByLines brief.now from.now size }
{
    has_guid(brief, from.guid)
        && has_size(brief, size, u64::from(from.listed))
        && name_instances(&brief.refs, from.instances.as_slice())
}

fn has_guid(brief: &Brief, guid: Guid) -> bool
    ensures { IsTrue result ↔ (brief.now.guid ≡ Some guid) }
{
    match brief.guid {
        Some(found) => found.0 == guid.0,
        None => false,
    }
}

/// Whether the whole message has so many octets, where the stored body has `size`.
fn has_size(brief: &Brief, size: u64, listed: u64) -> bool
    ensures { IsTrue result ↔ (option_map_or (λ whole. whole) brief.now.physical size ≡ listed) }
{
    match brief.physical {
        Some(whole) => whole == listed,
        None => size == listed,
    }
}

/// Whether references name these instances, in order, one for each.
fn name_instances(refs: &[ExtRef], rows: &[InstRow]) -> bool
    ensures { IsTrue result ↔ NameInstances refs.now rows.now }
{
    let mut refs = refs;
    let mut rows = rows;
    while let Some((reference, others)) = refs.split_first() {
        let Some((row, behind)) = rows.split_first() else {
            return false;
        };
        if reference.hash.0 != row.hash.0 || reference.id.0 != row.id.0 {
            return false;
        }
        refs = others;
        rows = behind;
    }
    rows.is_empty()
}
