// A region that is laid out, in which the GUID and the ids of instances are set.
ghost use Rattle.std.specs.Prelude.{◌≡◌, ◌≤◌, ◌+◌, ◌++◌, ℕ, List, All, length};
ghost use Rattle.mdbox_base.specs.declared.ids.InstId.{InstId as InstIdValue};
ghost use Rattle.attach_detach.specs.declared.message.Detached.{Detached as DetachedValue};
ghost use Rattle.attach_detach.specs.declared.message.Prepared.{Prepared};
ghost use Rattle.saved_message.specs.Laid.{AreSixteen, IsLaid, laid_of};
ghost use Rattle.saved_message.specs.References.{HasReferencesAt, marked};
ghost use Rattle.saved_message.specs.Region.{references_naming};
ghost use Rattle.saved_message.specs.Saved.{ids_in};

use crate::digits::{DIGITS, put_digits};
use crate::texts::Texts;
use mdbox_base::{Guid, InstId, InstRow};
use std::marker::Model;

/// How many octets stand before the body, and between body and metadata lines.
const AROUND_BODY: usize = 34;

/// A region that is laid out, with zeros in place of what isn't known yet. Setting this takes no memory. Where GUID and
/// references begin is told from the last of its texts on.
#[derive(Drop)]
pub struct Laid {
    texts: Texts,
    guid_at: usize,
    refs_at: usize,
    sizes: Vec<usize>,
}

impl Model for Laid {
    ghost use Rattle.std.specs.Prelude.{◌++◌};
    ghost use Rattle.saved_message.specs.Laid.{LaidValue, laid_of};

    ghost Value = { LaidValue };

    ghost view = { λ s. laid_of (s.texts.front.items ++ s.texts.body) s.texts.back.items s.guid_at s.refs_at s.sizes.items };
}

impl Laid {
    /// The region of a message, by how many octets its body, the lines before the GUID's and the mailbox's name have, and
    /// by the sizes of its references.
    pub fn of(texts: Texts, body: usize, before: usize, name: usize, sizes: Vec<usize>) -> Laid
        requires short { body + before + name ≤ 4294967295 }
        requires texts { length texts.front.items + length texts.body ≤ 30 + body }
        ensures { result ≡ record { region = (texts.front.items ++ texts.body) ++ texts.back.items; guid_at = 34 + body + before + 1; refs_at = 34 + body + before + 1 + 32 + 3 + name; sizes = sizes.items } }
    {
        let guid_at = AROUND_BODY + body + before + 1 - (texts.front.len() + texts.body.length());
        let refs_at = guid_at + DIGITS + 3 + name;
        Laid {
            texts,
            guid_at,
            refs_at,
            sizes,
        }
    }

    /// The region's octets, in three texts that stand one behind another.
    pub fn texts(&self) -> (&[u8], &[u8], &[u8])
        ensures { (result.0.now ++ result.1.now) ++ result.2.now ≡ self.now.region }
    {
        let texts = &self.texts;
        (
            texts.front.as_slice(),
            texts.body.as_slice(),
            texts.back.as_slice(),
        )
    }

    /// How many octets the region has.
    pub fn length(&self) -> u32
        requires { length self.now.region ≤ 4294967295 }
        ensures { result ≡ length self.now.region }
    {
        let (front, body, back) = self.texts();
        (front.len() + body.len() + back.len()) as u32
    }

    /// Sets the ids of the instances in the references, one behind another.
    pub fn set_ids(&mut self, rows: &[InstRow])
        requires laid { (name : List ℕ) × (time : ℕ) × (prepared : Prepared) × (ids : List InstIdValue) × (guid : List ℕ) × IsLaid name time prepared ids guid self.old × (length rows.now ≡ length prepared.parts) }
        ensures set { (name : List ℕ) (time : ℕ) (prepared : Prepared) (ids : List InstIdValue) (guid : List ℕ) → IsLaid name time prepared ids guid self.old → IsLaid name time prepared (ids_in rows.now) guid self.new }
        ensures size { length self.new.region ≡ length self.old.region }
        ensures ids { All (λ row. AreSixteen row.id.0) rows.now }
    {
        put_ids(
            &mut self.texts.back,
            self.refs_at,
            self.sizes.as_slice(),
            rows,
        );
    }

    /// Sets the GUID.
    pub fn set_guid(&mut self, guid: Guid)
        requires laid { (name : List ℕ) × (time : ℕ) × (prepared : Prepared) × (ids : List InstIdValue) × (old : List ℕ) × IsLaid name time prepared ids old self.old }
        ensures set { (name : List ℕ) (time : ℕ) (prepared : Prepared) (ids : List InstIdValue) (old : List ℕ) → IsLaid name time prepared ids old self.old → IsLaid name time prepared ids guid.0 self.new }
        ensures size { length self.new.region ≡ length self.old.region }
        ensures guid { AreSixteen guid.0 }
    {
        let Guid(octets) = guid;
        put_digits(&mut self.texts.back, self.guid_at, octets);
    }
}

/// Sets the ids in references of these sizes, with one octet before each, that stand here one behind another.
fn put_ids(region: &mut [u8], start: usize, sizes: &[usize], rows: &[InstRow])
    requires standing { (front : List ℕ) × (parts : List DetachedValue) × (ids : List InstIdValue) × (back : List ℕ) × (mark : ℕ) × HasReferencesAt front parts ids back mark start sizes.now region.old × (length rows.now ≡ length parts) }
    ensures set { (front : List ℕ) (parts : List DetachedValue) (ids : List InstIdValue) (back : List ℕ) (mark : ℕ) → HasReferencesAt front parts ids back mark start sizes.now region.old → length rows.now ≡ length parts → region.new ≡ front ++ (marked mark (references_naming parts (ids_in rows.now)) ++ back) }
    ensures size { length region.new ≡ length region.old }
    ensures ids { All (λ row. AreSixteen row.id.0) rows.now }
{
    let mut at = start;
    for (index, row) in rows.iter().enumerate() {
        let InstId(id) = row.id;
        let end = at + 1 + sizes[index];
        put_digits(region, end - DIGITS, id);
        at = end;
    }
}
