// Item 6: bits and long codes of lines. It is apart from `read_block` because four must-fail edits would each check that crate again.
#![tactic(auto)]

ghost use Rattle.std.specs.Prelude.{◌≡◌, ◌+◌, ◌-◌, ◌^◌, ◌≤◌, ◌<◌};
ghost use Rattle.line_totals.specs.Totals.{no_totals};
ghost use Rattle.line_totals.specs.Inside.{with_line};

#[derive(Clone, Copy)]
pub struct Totals {
    pub bits: u64,
    pub long: u64,
}

// How many lines, from the first on, have only tight codes, and the totals of these lines.
#[derive(Clone, Copy)]
pub struct TightLines {
    pub lines: usize,
    pub totals: Totals,
}

// Those of no line, with which a block starts and a call that is refused ends.
pub fn none() -> Totals
    ensures { result ≡ no_totals }
{
    Totals { bits: 0, long: 0 }
}

// What was counted from the bit position `at` on, where the long codes are counted from there.
pub fn since(totals: Totals, at: u64) -> Totals
    ensures { result ≡ record { bits = totals.bits - at; long = totals.long } }
{
    let long = totals.long;
    if totals.bits < at {
        return Totals { bits: 0, long };
    }
    Totals {
        bits: totals.bits - at,
        long,
    }
}

// The tight lines after line n, up to which the totals are these.
pub fn with_line(before: TightLines, n: usize, tight: bool, totals: Totals) -> TightLines
    requires { (before.lines ≤ n) × (n < 2 ^ 16) }
    ensures { (result ≡ with_line before n tight totals) × (result.lines ≤ n + 1) }
{
    if tight {
        if before.lines == n {
            return TightLines {
                lines: n + 1,
                totals,
            };
        }
    }
    before
}
