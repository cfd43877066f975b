// Symbols of base64, written two at a time.
ghost use Rattle.std.specs.Prelude.{◌≡◌, ◌≤◌, ◌<◌, ◌+◌, ◌*◌, ◌/◌, ◌%◌, ◌++◌, length, take, drop};
ghost use Rattle.b64_lines.specs.Pairs.{ArePairs, pair_of, symbols_of};

/// How many octets the pairs of symbols have.
pub const PAIRS: usize = 8_192;
/// The symbols of the standard alphabet.
const SYMBOLS: [u8; 64] = *b"ABCDEFGHIJKLMNOPQRSTUVWXYZabcdefghijklmnopqrstuvwxyz0123456789+/";

/// Two symbols for each twelve bits, one pair behind another.
pub fn symbol_pairs() -> [u8; PAIRS]
    ensures { ArePairs result }
{
    let mut pairs = [0; PAIRS];
    for bits in 0..PAIRS / 2 {
        let both = [SYMBOLS[bits / 64], SYMBOLS[bits % 64]];
        pairs[2 * bits..2 * bits + 2].copy_from_slice(&both);
    }
    pairs
}

/// Writes the symbols of octets at a place, four for each three, and answers where they end.
pub fn put_groups(into: &mut [u8], at: usize, octets: &[u8], pairs: &[u8; PAIRS]) -> usize
    requires pairs { ArePairs pairs.now }
    requires groups { length octets.now % 3 ≡ 0 }
    requires room { at + length (symbols_of octets.now) ≤ length into.old }
    ensures put { take result into.new ≡ take at into.old ++ symbols_of octets.now }
    ensures behind { drop result into.new ≡ drop result into.old }
    ensures end { result ≡ at + length (symbols_of octets.now) }
    ensures size { length into.new ≡ length into.old }
{
    let mut at = at;
    let mut rest = octets;
    while let [a, b, c, others @ ..] = rest {
        let (first, second) = bits_of(*a, *b, *c);
        put_pair(into, at, first, pairs);
        put_pair(into, at + 2, second, pairs);
        at += 4;
        rest = others;
    }
    at
}

/// The bits of three octets, twelve and twelve.
fn bits_of(a: u8, b: u8, c: u8) -> (usize, usize)
    ensures bits { (result.0 ≡ a * 16 + b / 16) × (result.1 ≡ b % 16 * 256 + c) }
    ensures few { (result.0 < 4096) × (result.1 < 4096) }
    ensures octets { (a < 256) × (b < 256) × (c < 256) }
{
    let (a, b, c) = (usize::from(a), usize::from(b), usize::from(c));
    (a * 16 + b / 16, b % 16 * 256 + c)
}

/// Writes the symbols of twelve bits at a place.
fn put_pair(into: &mut [u8], at: usize, bits: usize, pairs: &[u8; PAIRS])
    requires pairs { ArePairs pairs.now }
    requires bits { bits < 4096 }
    requires room { at + 2 ≤ length into.old }
    ensures put { take (at + 2) into.new ≡ take at into.old ++ pair_of bits }
    ensures behind { drop (at + 2) into.new ≡ drop (at + 2) into.old }
    ensures size { length into.new ≡ length into.old }
{
    into[at..at + 2].copy_from_slice(&pairs[2 * bits..2 * bits + 2]);
}
