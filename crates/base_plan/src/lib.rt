// Item 7: a plan of bases is text that gives each line of six rows its base, one record a line, three tab-separated decimal fields. An
// accepted plan yields the base bytes of a lossy stream.
#![tactic(auto)]

ghost use Rattle.std.specs.Prelude.{◌≡◌, ◌≤◌, length, Ok};
ghost use Rattle.base_plan.specs.Plans.{plan_answer, answer_in, planned_answer, BasesAfter};

use stream::{FujiHeader, Refusal};

mod counts;
mod records;

// A plan for as many lines as there are bytes: refusals 18, 19, 20.
fn plan_lines(d: &[u8], bases: &mut [u8]) -> Result<(), Refusal>
    requires { length bases.old ≤ 2731 }
    ensures answer { result ≡ plan_answer d.now (length bases.old) }
    ensures bases { BasesAfter d.now bases.old bases.new result }
{
    let lines = bases.len();
    let mut begins = [0usize; 2732];
    let mut ends = [0usize; 2732];
    let read = counts::read_records(d, lines, &mut begins, &mut ends);
    let records = read.records;
    if read.end < d.len() {
        return Err(Refusal::BadRecord(records + 1));
    }
    if let Some(twice) = counts::first_amiss(&begins, &ends, lines, true) {
        return Err(Refusal::HeldTwice(twice));
    }
    if let Some(none) = counts::first_amiss(&begins, &ends, lines, false) {
        return Err(Refusal::NotHeld(none));
    }
    records::write_bases(d, records, bases);
    Ok(())
}

// A plan for a header that parses: refusals 16 and 17 first.
fn plan_in(h: FujiHeader, d: &[u8], bases: &mut [u8]) -> Result<(), Refusal>
    requires { h.lines ≤ 2731 }
    ensures answer { result ≡ answer_in d.now (length bases.old) (Ok h) }
    ensures bases { BasesAfter d.now bases.old bases.new result }
{
    let lossless = h.lossless;
    let lines = h.lines as usize;
    if lossless {
        return Err(Refusal::Lossless);
    }
    if bases.len() == lines {
        return plan_lines(d, bases);
    }
    Err(Refusal::WrongBases)
}

// The bases of a lossy header's lines, as the plan says: byte n is the base of the one record that holds line n. Of the header the first 16 bytes
// count. Refusals 1, 2, 16, 17, 18, 19 and 20; each leaves the bytes as they were.
pub fn plan_bases(header: &[u8], plan: &[u8], bases: &mut [u8]) -> Result<(), Refusal>
    ensures answer { result ≡ planned_answer header.now plan.now (length bases.old) }
    ensures bases { BasesAfter plan.now bases.old bases.new result }
{
    let h = FujiHeader::parse(header)?;
    plan_in(h, plan, bases)
}
