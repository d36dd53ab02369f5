// Bad codes: why a code that was read is not tight, and where it stands.
ghost use Rattle.std.specs.Prelude.{◌≡◌, ◌≤◌};
ghost use Rattle.code.specs.Reasons.{reason_of};

use crate::Code;
use bits::BitPosition;

// Why a code is bad: it is 2^bits or more; it is long where the short form fits; it has more zeros than the limit. Where two hold, the first is given.
#[derive(Clone, Copy)]
pub enum Reason {
    Large,
    Escape,
    Zeros,
}

// A bad code: its line of six rows, its pass, 1 to 6, its colour line and position, its first bit, and why it is bad.
#[derive(Clone, Copy)]
pub struct BadSpot {
    pub line: usize,
    pub pass: usize,
    pub colour: usize,
    pub position: usize,
    pub at: BitPosition,
    pub reason: Reason,
}

// Why a code that was read is bad, if it is.
pub fn reason_of(m: u32, k: u32, limit: u32, c: Code) -> Option<Reason>
    requires { k ≤ 15 }
    ensures { result ≡ reason_of m k limit c }
{
    let value = c.value;
    let zeros = c.zeros;
    if m < value {
        return Some(Reason::Large);
    }
    if zeros < (limit as u64) {
        return None;
    }
    if value >> k < limit {
        return Some(Reason::Escape);
    }
    if (limit as u64) < zeros {
        return Some(Reason::Zeros);
    }
    None
}
