// A stored body, spread over the octets of its whole.
ghost use Rattle.std.specs.Prelude.{◌≡◌, ◌≤◌, ◌+◌, ◌-◌, ◌++◌, ◌∷◌, ℕ, List, length, take, drop, None};
ghost use Rattle.model_attach.specs.Rejoined.{IsWhole, first_bad, found_size};
ghost use Rattle.attach_join.specs.Spread.{outside, InRow, RangesAreFilled};
ghost use Rattle.mdbox_base.specs.declared.metadata.ExtRef.{ExtRef as ExtRefValue};

use mdbox_base::ExtRef;

/// Moves a stored body, which is the first octets of its whole's buffer, to where it stands in the whole. What the ranges of the
/// references have then isn't said.
pub fn spread(buffer: &mut [u8], stored: usize, refs: &[ExtRef])
    requires ranges { first_bad 0 stored refs.now ≡ None }
    requires size { found_size stored refs.now ≡ length buffer.old }
    ensures outside { outside refs.now buffer.new ≡ take stored buffer.old }
    ensures size { length buffer.new ≡ length buffer.old }
{
    let mut end = buffer.len();
    let mut left = stored;
    let mut rest = refs;
    while let Some((reference, front)) = rest.split_last() {
        let start = reference.start as usize;
        let behind = start + reference.count as usize;
        let moved = end - behind;
        move_to(buffer, left - moved, left, behind);
        left -= moved;
        end = start;
        rest = front;
    }
}

/// Moves the octets between two places to one behind.
fn move_to(buffer: &mut [u8], from: usize, to: usize, place: usize)
    requires order { from ≤ to }
    requires up { from ≤ place }
    requires within { place + (to - from) ≤ length buffer.old }
    ensures front { take from buffer.new ≡ take from buffer.old }
    ensures back { drop place buffer.new ≡ take (to - from) (drop from buffer.old) ++ drop (place + (to - from)) buffer.old }
    ensures size { length buffer.new ≡ length buffer.old }
{
    buffer.copy_within(from..to, place);
}

/// What is written into the range of one reference leaves what is outside of all ranges.
pub fn outside_stays()
    ensures { (before : List ExtRefValue) (ref : ExtRefValue) (after : List ExtRefValue) (front mid new back : List ℕ) → InRow 0 (before ++ ref ∷ after) → length front ≡ ref.start → length mid ≡ ref.count → length new ≡ ref.count
        → outside (before ++ ref ∷ after) (front ++ (new ++ back)) ≡ outside (before ++ ref ∷ after) (front ++ (mid ++ back)) }
{}

/// A text whose outside is a stored body, and whose ranges have the texts of the instances, is the whole of these.
pub fn filled_is_whole()
    ensures { (refs : List ExtRefValue) (instances : List (List ℕ)) (whole body : List ℕ) → outside refs whole ≡ body → RangesAreFilled 0 refs instances whole → IsWhole whole body refs instances }
{}
