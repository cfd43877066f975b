// The virtual size.
ghost use Rattle.std.specs.Prelude.{◌≡◌, ◌≤◌, ◌+◌, ◌++◌, ℕ, List, length};
ghost use Rattle.model_attach.specs.VirtualSize.{bare_breaks};

/// So many octets are counted at once that their number fits an octet: the compiler then counts sixteen in one step.
const PIECE: usize = 240;

/// How many LFs of a message have no CR directly before them.
pub fn bare_breaks(message: &[u8]) -> u32
    requires { length message.now ≤ 67108864 }
    ensures count { result ≡ bare_breaks 0 message.now }
    ensures small { result ≤ length message.now }
{
    let mut bare = 0;
    let mut before = 0;
    let mut rest = message;
    while rest.len() > PIECE {
        let (piece, behind) = rest.split_at(PIECE);
        let (count, last) = bare_in(before, piece);
        bare += u32::from(count);
        before = last;
        rest = behind;
    }
    let (count, _) = bare_in(before, rest);
    bare + u32::from(count)
}

/// How many LFs of a piece that stands behind an octet have no CR directly before them, and the octet that then stands
/// before what follows.
fn bare_in(before: u8, piece: &[u8]) -> (u8, u8)
    requires { length piece.now ≤ PIECE }
    ensures count { (rest : List ℕ) → bare_breaks before (piece.now ++ rest) ≡ result.0 + bare_breaks result.1 rest }
    ensures small { result.0 ≤ length piece.now }
{
    let mut bare = 0;
    let mut last = before;
    for octet in piece {
        if *octet == b'\n' && last != b'\r' {
            bare += 1;
        }
        last = *octet;
    }
    (bare, last)
}
