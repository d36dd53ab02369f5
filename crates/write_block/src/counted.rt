// What follows once the bits of a set are counted: an answer, or the walk that stores them; and whether there is room for them whatever they are.
ghost use Rattle.std.specs.Prelude.{◌≡◌, ◌^◌, ◌≤◌, ◌<◌};
ghost use Rattle.bits.specs.BitLists.{block_bytes};
ghost use Rattle.write_block.specs.Counted.{is_ample, length_next, next_of};

use bits::BitPosition;
use stream::Refusal;

// Whether a set is to be written, and no block of so many lines is longer than the output, whatever its samples are.
pub fn is_ample(measure: bool, bits: u32, lines: usize, room: usize) -> bool
    requires { (bits ≤ 16) × (lines < 2 ^ 16) }
    ensures { result ≡ is_ample measure bits lines room }
{
    if measure {
        return false;
    }
    !limits::is_short(room, limits::most_bytes(lines, bits as usize))
}

// What follows then: an answer, or the walk that stores the bits, which end here. Not a `Result`: neither is an error.
#[derive(Clone, Copy)]
pub enum Next {
    Answer(Result<usize, Refusal>),
    Store(BitPosition),
}

// The bytes of a tight block that has bits up to this position.
pub fn block_bytes(at: BitPosition) -> usize
    ensures { result ≡ block_bytes at.0 }
{
    let end = at.block_bytes();
    end.0
}

fn length_next(end: BitPosition, measure: bool, room: usize) -> Next
    ensures { result ≡ length_next end measure room }
{
    let needed = block_bytes(end);
    if measure {
        return Next::Answer(Ok(needed));
    }
    if limits::is_short(room, needed) {
        return Next::Answer(Err(Refusal::ShortOutput));
    }
    Next::Store(end)
}

// Refusal 12 comes first. A set that is only measured needs no room for its block.
pub fn after_counting(counted: Result<BitPosition, usize>, measure: bool, room: usize) -> Next
    ensures { result ≡ next_of counted measure room }
{
    match counted {
        Err(j) => Next::Answer(Err(Refusal::NotPredicted(j))),
        Ok(end) => length_next(end, measure, room),
    }
}
