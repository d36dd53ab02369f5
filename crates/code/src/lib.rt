// Document 01, Code and Tight block: what is read of a code, whether it is long, whether it is tight and why not (`reasons`), and the
// way from a code to a sample and back (`samples`).
#![tactic(auto)]

ghost use Rattle.std.specs.Prelude.{◌≡◌, ◌/◌, ◌^◌, ◌<◌, ◌≤◌, ◌&&◌, ◌==◌, nat_le, Some};
ghost use Rattle.code.specs.Tight.{is_tight};
ghost use Rattle.code.specs.Inside.{taken_of};

use bits::BitPosition;

mod reasons;
mod samples;

pub use reasons::{BadSpot, Reason, reason_of};
pub use samples::{choice, code_near, moved, residual_size, sample, wrap};

// A code that was read: the zeros before its one bit, its value, whether it has no bit that it could do without, whether it is long, how many
// bits it used, and the position after it.
#[derive(Clone, Copy)]
pub struct Code {
    pub zeros: u64,
    pub value: u32,
    pub minimal: bool,
    pub long: bool,
    pub used: u64,
    pub after: BitPosition,
}

// Where a reading is: the next bit, whether all codes so far were tight, and how many of them were long.
#[derive(Clone, Copy)]
pub struct Place {
    pub at: BitPosition,
    pub tight: bool,
    pub long: u64,
}

// Whether a code with so many zeros is long.
pub fn is_long(limit: u32, zeros: u64) -> bool
    ensures { result ≡ nat_le limit zeros }
{
    limit as u64 <= zeros
}

// Whether a long code with so many zeros is needed for that value: a short code would have as many zeros or more.
pub fn is_needed(k: u32, limit: u32, zeros: u64, value: u32) -> bool
    requires { k ≤ 15 }
    ensures { result ≡ (zeros == limit && nat_le limit (value / 2 ^ k)) }
{
    if zeros == limit as u64 {
        return limit <= (value >> k);
    }
    false
}

// Whether a code is tight.
pub fn is_tight(m: u32, code: Code) -> bool
    ensures { result ≡ is_tight m code }
{
    (code.value <= m) & code.minimal
}

// What a pass takes of a code that was read: its value, and where the reading is after it. All codes are tight then if it is, and there is one
// long code more if it is long.
pub fn take(m: u32, tight: bool, long: u64, c: Code) -> (u32, Place)
    requires { long < 2 ^ 63 }
    ensures { Some result ≡ taken_of m tight long (Some c) }
{
    let still_tight = tight & is_tight(m, c);
    let now_long = long + u64::from(c.long);
    let place = Place {
        at: c.after,
        tight: still_tight,
        long: now_long,
    };
    (c.value, place)
}
