// The records of a plan, counted: how many good ones it starts with, and which lines two records hold, or none.
ghost use Rattle.std.specs.Prelude.{◌≡◌, ◌+◌, ◌^◌, ◌≤◌, ◌<◌, get_or, set, MatchOption};
ghost use Rattle.base_plan.specs.Inside.{IsRead, Marked, Balanced, amiss_in};
ghost use Rattle.base_plan.specs.Counts.{is_amiss};

// How many good records there are from the start on, and where they end.
#[derive(Clone, Copy)]
pub struct Read {
    pub records: usize,
    pub end: usize,
}

// One more at a line.
fn count(at: &mut [usize; 2732], line: usize)
    requires { (line < 2732) × (get_or at.old line 0 + 1 < 2 ^ 64) }
    ensures { at.new ≡ set at.old line (get_or at.old line 0 + 1) }
{
    at[line] = at[line] + 1;
}

// Reads the good records that a plan starts with. Of each the line with which it begins and the line after its last are counted.
pub fn read_records(
    d: &[u8],
    lines: usize,
    begins: &mut [usize; 2732],
    ends: &mut [usize; 2732],
) -> Read
    requires { (lines ≤ 2731) × Marked d.now 0 begins.old ends.old }
    ensures { IsRead d.now lines result × Marked d.now result.records begins.new ends.new }
{
    let mut records = 0usize;
    let mut at = 0usize;

    // No `for`: each record says where the next one starts.
    while at < d.len() {
        let Some(row) = crate::records::read_row(d, at, lines) else {
            return Read { records, end: at };
        };
        count(begins, row.first);
        count(ends, row.last + 1);
        at = row.next;
        records += 1;
    }
    Read { records, end: at }
}

fn is_amiss(twice: bool, count: usize) -> bool
    ensures { result ≡ is_amiss twice count }
{
    if twice {
        return 2 <= count;
    }
    count == 0
}

// The lowest line that two records hold or, if `twice` is not said, that none holds.
pub fn first_amiss(
    begins: &[usize; 2732],
    ends: &[usize; 2732],
    lines: usize,
    twice: bool,
) -> Option<usize>
    requires { (lines ≤ 2731) × Balanced begins.now ends.now }
    ensures { let first = amiss_in twice begins.now ends.now lines in
        MatchOption result (lines ≤ first) (λ n. (n ≡ first) × (n < lines)) }
{
    let mut held = 0usize;
    for n in 0..lines {
        held = held + begins[n] - ends[n];
        if is_amiss(twice, held) {
            return Some(n);
        }
    }
    None
}
