// Ranges of a stream: cut to its end, and the bytes that lie in one.
ghost use Rattle.std.specs.Prelude.{◌≡◌, ◌+◌, ◌^◌, ◌<◌};
ghost use Rattle.stream.specs.Ranges.{cut, part_of};
ghost use Rattle.stream.specs.Inside.{cut_range, Inside};

use crate::header::Refusal;
use bits::ByteOffset;

// Cut to the stream's end.
pub fn cut(d: &[u8], at: usize) -> usize
    ensures { result ≡ cut d.now at }
{
    if at < d.len() {
        return at;
    }
    d.len()
}

// The range of so many bytes from `start` on, its start and its end cut.
pub fn cut_range(d: &[u8], start: usize, size: usize) -> Result<(ByteOffset, usize), Refusal>
    requires { start + size < 2 ^ 64 }
    ensures { result ≡ cut_range d.now start size }
{
    let from = cut(d, start);
    let to = cut(d, start + size);
    Ok((ByteOffset(from), to - from))
}

// The part of the stream that a range says, an offset and a length; none of it where the call was refused.
pub fn part(d: &[u8], r: Result<(ByteOffset, usize), Refusal>) -> &[u8]
    requires { Inside d.now r }
    ensures { result.now ≡ part_of d.now r }
{
    match r {
        Ok((from, n)) => {
            let start = from.0;
            let end = start + n;
            &d[start..end]
        }
        Err(_) => &d[..0],
    }
}
