// Item 12: every bit string up to a greatest length that is one tight lossless code, for a bench that tests bit readers by hand.
#![tactic(auto)]

ghost use Rattle.std.specs.Prelude.{◌≡◌, ◌+◌, ◌*◌, ◌/◌, ◌%◌, ◌^◌, ◌≤◌, ◌<◌, length};
ghost use Rattle.short_codes.specs.Sheets.{in_sheet, count_of, listed_answer, ListAfter};
ghost use Rattle.short_codes.specs.Inside.{Bounded, Filled};

use stream::Refusal;

// Not `(1..=16).contains(&longest)`: tried, and the proof does not close, since the tests of `in_sheet` nest the other way.
fn in_sheet(depth: u32, k: u32, longest: u32) -> bool
    ensures { result ≡ in_sheet depth k longest }
{
    ((depth == 12) | (depth == 14) | (depth == 16)) & (k <= 15) & (1 <= longest) & (longest <= 16)
}

// The strings of the sheet: those of the codes from 0 on.
fn count_of(depth: u32, k: u32, longest: u32) -> u32
    requires { (depth ≤ 16) × (k ≤ 15) × (longest ≤ 16) }
    ensures { (result ≡ count_of depth k longest) × (result ≤ 2 ^ 20) }
{
    let room = longest.saturating_sub(k) * (numbers::power(k) as u32);
    room.min(numbers::power(depth) as u32)
}

// The entry of a code with so many low bits: its zeros, a one and the low bits, as length and value.
fn entry(k: u32, code: u32) -> u32
    requires { (k ≤ 15) × (code / 2 ^ k < 16) }
    ensures { result ≡ 65536 * (code / 2 ^ k + 1 + k) + (2 ^ k + code % 2 ^ k) }
{
    let one = numbers::power(k) as u32;
    65536 * (code / one + 1 + k) + (one + code % one)
}

// The sheet, at the start of a list that has room for it.
fn fill(depth: u32, k: u32, longest: u32, list: &mut [u32], count: u32)
    requires { Bounded depth k longest × (count ≡ count_of depth k longest) × (count ≤ length list.old) }
    ensures { Filled depth k longest list.old list.new }
{
    for code in 0..count {
        list[code as usize] = entry(k, code);
    }
}

// Lists every bit string of at most `longest` bits that is one tight lossless code, as 65,536·length + value, by length and then by value. The
// count, how many strings the sheet has, is given whether or not they were written; a list that is shorter is left as it was. Refusal 24.
pub fn short_codes(depth: u32, k: u32, longest: u32, list: &mut [u32]) -> Result<usize, Refusal>
    ensures { (result ≡ listed_answer depth k longest) × ListAfter depth k longest list.old list.new }
{
    if !in_sheet(depth, k, longest) {
        return Err(Refusal::OutsideSheet);
    }
    let count = count_of(depth, k, longest);
    if list.len() < count as usize {
        return Ok(count as usize);
    }
    fill(depth, k, longest, list, count);
    Ok(count as usize)
}
