// The head of a log, as octets.
ghost use Rattle.std.specs.Prelude.{◌≡◌, ◌≢◌, ◌+◌, ◌<◌, ◌≤◌, ◌^◌, length, take, drop, ◌⊎◌, MatchOption, MatchResult, position, Some, None, not, ◌==◌, []};
ghost use Rattle.model_logs.specs.declared.log_head.LogKind.{LogKind};
ghost use Rattle.std.specs.Int.{w32, from_be_bytes};
ghost use Rattle.std.specs.List.{zip};
ghost use Rattle.mdbox_base.specs.Words.{IsOctets};
ghost use Rattle.gate_log.specs.Log.{log_text};
ghost use Rattle.model_logs.specs.LogFile.{IsVersionOf, HeadFits, head_octets, kind_letter, IsHeadDamaged};

use crate::gate::CLOSED;
use mdbox_base::StoreId;
use model_logs::{LogHead, LogKind};

/// How many octets a head has.
pub const HEAD_SIZE: usize = 25;

/// Where the digit of the version stands.
const VERSION_PLACE: usize = 7;

/// Where the letter of the kind stands.
const KIND_PLACE: usize = 16;

/// What every log begins with. The digit of its version follows.
const MAGIC: [u8; 7] = *b"MDBXLOG";

/// The octets of a head.
pub fn head_text(head: LogHead) -> [u8; 25]
    requires version { IsVersionOf head.kind head.version }
    ensures { result ≡ head_octets head }
{
    fits(head);
    let mut text = [0; HEAD_SIZE];
    let digit = b'0' + head.version;
    text[..8].copy_from_slice(&[b'M', b'D', b'B', b'X', b'L', b'O', b'G', digit]);
    text[8..16].copy_from_slice(&head.store.0);
    text[16] = head.kind.letter();
    text[17..21].copy_from_slice(&head.number.to_be_bytes());
    text[21..].copy_from_slice(&head.generation.to_be_bytes());
    text
}

/// The octets of a log without entries: its head and a closed gate.
pub fn first_text(head: LogHead) -> [u8; 26]
    requires version { IsVersionOf head.kind head.version }
    ensures text { result ≡ log_text head [] }
    ensures fits { HeadFits head }
{
    fits(head);
    let mut text = [CLOSED; 26];
    text[..25].copy_from_slice(&head_text(head));
    text
}

/// A head fits its octets, where its kind may have its version.
pub fn fits(head: LogHead)
    requires version { IsVersionOf head.kind head.version }
    ensures { HeadFits head }
{
    ranges(head.store.0, head.number, head.generation)
}

fn ranges(store: [u8; 8], number: u32, generation: u32)
    ensures store { length store ≡ 8 }
    ensures octets { IsOctets store }
    ensures number { number < 2 ^ 32 }
    ensures generation { generation < 2 ^ 32 }
{
    let _octets = store.as_slice();
}

/// The version with this digit.
fn version_with(digit: u8) -> Option<u8>
    ensures { MatchOption result ((digit ≢ 49) × (digit ≢ 50)) (λ version. (48 + version ≡ digit) × ((version ≡ 1) ⊎ (version ≡ 2))) }
{
    match digit {
        b'1' => Some(1),
        b'2' => Some(2),
        _ => None,
    }
}

/// The kind with this letter, which a log of this version may have.
fn kind_with(letter: u8, version: u8) -> Option<LogKind>
    requires { (version ≡ 1) ⊎ (version ≡ 2) }
    ensures { MatchOption result ((kind : LogKind) → IsVersionOf kind version → kind_letter kind ≢ letter) (λ kind. IsVersionOf kind version × (kind_letter kind ≡ letter)) }
{
    match letter {
        b'R' if version == 1 => Some(LogKind::Root),
        b'M' if version == 1 => Some(LogKind::Map),
        b'B' => Some(LogKind::Box),
        _ => None,
    }
}

/// The first place where two texts differ, as far as both go.
fn first_difference(octets: &[u8], wanted: &[u8]) -> Option<usize>
    ensures { result ≡ position (λ pair. not (pair.0 == pair.1)) (zip octets.now wanted.now) }
{
    octets
        .iter()
        .zip(wanted.iter())
        .position(|(octet, wanted)| *octet != *wanted)
}

/// Finds the damage of a log that is to have this head, where its head or its first gate isn't whole.
pub fn check_head(octets: &[u8], head: LogHead) -> Result<(), u64>
    requires version { IsVersionOf head.kind head.version }
    ensures { MatchResult result (λ _. HeadFits head × (25 < length octets.now) × (take 25 octets.now ≡ head_octets head)) (λ place. IsHeadDamaged (Some head) octets.now place) }
{
    fits(head);
    match first_difference(octets, &head_text(head)) {
        Some(place) => Err(place as u64),
        None if octets.len() <= HEAD_SIZE => Err(octets.len() as u64),
        None => Ok(()),
    }
}

/// The head that octets begin with, where a gate follows it.
pub fn read_head(octets: &[u8]) -> Result<LogHead, u64>
    ensures { MatchResult result (λ head. HeadFits head × (25 < length octets.now) × (take 25 octets.now ≡ head_octets head)) (λ place. IsHeadDamaged None octets.now place) }
{
    if let Some(place) = first_difference(octets, &MAGIC) {
        return Err(place as u64);
    }
    if octets.len() <= VERSION_PLACE {
        return Err(octets.len() as u64);
    }
    let Some(version) = version_with(octets[VERSION_PLACE]) else {
        return Err(VERSION_PLACE as u64);
    };
    if octets.len() <= KIND_PLACE {
        return Err(octets.len() as u64);
    }
    let Some(kind) = kind_with(octets[KIND_PLACE], version) else {
        return Err(KIND_PLACE as u64);
    };
    if octets.len() <= HEAD_SIZE {
        return Err(octets.len() as u64);
    }
    let (text, _) = octets.split_at(HEAD_SIZE);
    Ok(head_in(text, version, kind))
}

/// The head that these octets spell.
fn head_in(text: &[u8], version: u8, kind: LogKind) -> LogHead
    requires { length text.now ≡ 25 }
    ensures version { result.version ≡ version }
    ensures store { result.store.0 ≡ take 8 (drop 8 text.now) }
    ensures kind { result.kind ≡ kind }
    ensures number { result.number ≡ from_be_bytes w32 (take 4 (drop 17 text.now)) }
    ensures generation { result.generation ≡ from_be_bytes w32 (drop 21 text.now) }
{
    let mut store = [0; 8];
    store.copy_from_slice(&text[8..16]);
    LogHead {
        version,
        store: StoreId(store),
        kind,
        number: number_in(&text[17..21]),
        generation: number_in(&text[21..]),
    }
}

/// The number that 4 octets spell.
fn number_in(text: &[u8]) -> u32
    requires { length text.now ≡ 4 }
    ensures { result ≡ from_be_bytes w32 text.now }
{
    let mut bytes = [0; 4];
    bytes.copy_from_slice(text);
    u32::from_be_bytes(bytes)
}
