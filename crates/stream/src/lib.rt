// Document 01, Stream and Refusals: the header, sizes, base rows, the bytes of a block, and the list of refusals with their numbers.
#![tactic(auto)]

ghost use Rattle.std.specs.Prelude.{◌≡◌, ◌+◌, ◌*◌, ◌^◌, ◌≤◌, ◌<◌, length, MatchOption, Ok};
ghost use Rattle.stream.specs.Headers.{parse_of, width_answer};
ghost use Rattle.stream.specs.Inside.{Ruled};
ghost use Rattle.stream.specs.Ranges.{part_of, Short};
ghost use Rattle.stream.specs.Lengths.{bound_answer, length_word};
ghost use Rattle.stream.specs.Streams.{size_of, row_length, row_start, first_short, open_in, open_of, sizes_before};
ghost use Rattle.stream.specs.Inside.{Opened};
ghost use Rattle.stream.specs.Streams.{block_start, range_in, range_of, row_in, row_of};

use bits::ByteOffset;

mod header;
mod ranges;
mod words;

pub use header::{FujiHeader, Refusal};
pub use words::{header_words, refusal_in, refusal_words};

// A block's length for C, 0 where it is refused.
pub fn length_word(a: Result<usize, Refusal>) -> [usize; 1]
    ensures { result ≡ length_word a }
{
    match a {
        Ok(n) => [n],
        Err(_) => [0],
    }
}

// The columns of block i, if it is there.
fn columns(h: FujiHeader, i: u32) -> Result<u32, Refusal>
    requires { Ruled h }
    ensures { result ≡ width_answer (Ok h) i }
{
    let blocks = h.blocks;
    let width = h.width;
    if blocks <= i {
        return Err(Refusal::NoBlock);
    }
    Ok(limits::block_columns(width, blocks, i))
}

// The columns of block i.
pub fn block_width(d: &[u8], i: u32) -> Result<u32, Refusal>
    ensures { result ≡ width_answer (parse_of d.now) i }
{
    let h = FujiHeader::parse(d)?;
    columns(h, i)
}

fn bound_in(h: FujiHeader) -> Result<usize, Refusal>
    requires { Ruled h }
    ensures { result ≡ bound_answer (Ok h) }
{
    let lossless = h.lossless;
    let lines = h.lines as usize;
    let bits = h.bits as usize;
    if !lossless {
        return Err(Refusal::Lossy);
    }
    Ok(limits::most_bytes(lines, bits))
}

// A length that no tight block under this header exceeds: a line has 4608 codes, and each has at most 4·bits bits.
pub fn length_bound(d: &[u8]) -> Result<usize, Refusal>
    ensures { result ≡ bound_answer (parse_of d.now) }
{
    let h = FujiHeader::parse(d)?;
    bound_in(h)
}

// The size of block b.
fn size_of(d: &[u8], b: usize) -> usize
    requires { (b < 16) × (20 + 4 * b ≤ length d.now) }
    ensures { (result ≡ size_of d.now b) × (result < 2 ^ 32) }
{
    let i = 16 + 4 * b;
    (header::pair(d, i) * 0x1_0000 + header::pair(d, i + 2)) as usize
}

// The bytes of a base row: one for each line, none if the stream is lossless.
pub fn row_length(h: FujiHeader) -> usize
    ensures { (result ≡ row_length h) × (result ≤ h.lines) }
{
    let lossless = h.lossless;
    if lossless {
        return 0;
    }
    h.lines as usize
}

// Where base row b starts.
pub fn row_start(h: FujiHeader, b: usize) -> usize
    requires { Ruled h × (b ≤ 16) }
    ensures { (result ≡ row_start h b) × (result < 2 ^ 16) }
{
    let blocks = h.blocks as usize;
    16 + limits::padded(4 * blocks) + b * limits::padded(row_length(h))
}

// The lowest block whose base row is not whole.
fn first_short(d: &[u8], h: FujiHeader) -> Option<usize>
    requires { Ruled h }
    ensures { MatchOption result (h.blocks ≤ first_short d.now h) (λ b. (b ≡ first_short d.now h) × (b < h.blocks)) }
{
    let row = row_length(h);
    for b in 0..h.blocks as usize {
        if limits::ends_past(d.len(), row_start(h, b), row) {
            return Some(b);
        }
    }
    None
}

// Whether the sizes and the base rows are there.
fn open_in(d: &[u8], h: FujiHeader) -> Result<FujiHeader, Refusal>
    requires { Ruled h }
    ensures { result ≡ open_in d.now (Ok h) }
{
    let blocks = h.blocks as usize;
    let lossless = h.lossless;
    if d.len() < 16 + 4 * blocks {
        return Err(Refusal::ShortSizes);
    }
    if lossless {
        return Ok(h);
    }
    if let Some(b) = first_short(d, h) {
        return Err(Refusal::ShortBases(b));
    }
    Ok(h)
}

// Opens a stream: its header, once the sizes and, if it is lossy, all base rows are there.
pub fn open(d: &[u8]) -> Result<FujiHeader, Refusal>
    ensures { result ≡ open_of d.now }
{
    let h = FujiHeader::parse(d)?;
    open_in(d, h)
}

// The sizes of the blocks before block b, added.
#[tactic(auto, unfolding(crate::specs::Streams::sizes_before))]
fn sizes_before(d: &[u8], b: usize) -> usize
    requires { (b ≤ 16) × (16 + 4 * b ≤ length d.now) }
    ensures { (result ≡ sizes_before d.now b) × (result ≤ b * 2 ^ 32) }
{
    let mut sum = 0usize;
    for i in 0..b {
        sum += size_of(d, i);
    }
    sum
}

// Where block b would start.
fn block_start(d: &[u8], h: FujiHeader, b: usize) -> usize
    requires { Opened d.now h × (b ≤ h.blocks) }
    ensures { (result ≡ block_start d.now h b) × (result < 2 ^ 37) }
{
    let blocks = h.blocks as usize;
    row_start(h, blocks) + sizes_before(d, b)
}

// The range of block b, if it is there.
fn range_in(d: &[u8], h: FujiHeader, b: usize) -> Result<(ByteOffset, usize), Refusal>
    requires { Opened d.now h }
    ensures { (result ≡ range_in d.now b (Ok h)) × Short result }
{
    let blocks = h.blocks as usize;
    if blocks <= b {
        return Err(Refusal::NoBlock);
    }
    let start = block_start(d, h, b);
    let size = size_of(d, b);
    ranges::cut_range(d, start, size)
}

// Where block b lies in the stream.
pub fn block_range(d: &[u8], b: usize) -> Result<(ByteOffset, usize), Refusal>
    ensures { (result ≡ range_of d.now b) × Short result }
{
    let h = open(d)?;
    range_in(d, h, b)
}

// The range of base row b, if it is there.
fn row_in(d: &[u8], h: FujiHeader, b: usize) -> Result<(ByteOffset, usize), Refusal>
    requires { Ruled h }
    ensures { result ≡ row_in d.now b (Ok h) }
{
    let blocks = h.blocks as usize;
    if blocks <= b {
        return Err(Refusal::NoBlock);
    }
    let from = ranges::cut(d, row_start(h, b));
    Ok((ByteOffset(from), row_length(h)))
}

// Where the base row of block b lies in the stream.
pub fn base_row_range(d: &[u8], b: usize) -> Result<(ByteOffset, usize), Refusal>
    ensures { result ≡ row_of d.now b }
{
    let h = open(d)?;
    row_in(d, h, b)
}

// The bytes of block b; none if the call is refused, and `block_range` says why.
pub fn block_bytes(d: &[u8], b: usize) -> &[u8]
    ensures { (result.now ≡ part_of d.now (range_of d.now b)) × (length result.now < 2 ^ 32) }
{
    ranges::part(d, block_range(d, b))
}

// The base row of block b, a byte for each line; none in a lossless stream.
pub fn base_row(d: &[u8], b: usize) -> &[u8]
    ensures { result.now ≡ part_of d.now (row_of d.now b) }
{
    ranges::part(d, base_row_range(d, b))
}
