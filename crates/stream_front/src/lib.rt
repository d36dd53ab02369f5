// Whole streams: what is before the blocks of a stream: the header, the sizes and the base rows.
#![tactic(auto)]

ghost use Rattle.std.specs.Prelude.{◌≡◌, ◌++◌, ◌+◌, ◌*◌, ◌^◌, ◌≤◌, ◌<◌, length, get_or, drop, MatchOption};
ghost use Rattle.stream.specs.Headers.{parse_of};
ghost use Rattle.stream.specs.Inside.{Ruled};
ghost use Rattle.stream.specs.Streams.{padded, row_length, row_start};
ghost use Rattle.stream_front.specs.Fronts.{size_byte, row_byte, front_byte, front_bytes, sum_of, first_long, front_answer, front_out, LeftFront};

use stream::{FujiHeader, Refusal, row_length};

// How many bytes stand before the blocks.
pub fn front_length(h: FujiHeader) -> usize
    requires { Ruled h }
    ensures { (result ≡ row_start h h.blocks) × (result < 2 ^ 16) }
{
    let blocks = h.blocks as usize;
    stream::row_start(h, blocks)
}

// Byte j of the four of a size.
fn size_byte(n: usize, j: usize) -> u8
    ensures { result ≡ size_byte n j }
{
    if j == 0 {
        return (n / 0x100_0000 % 256) as u8;
    }
    if j == 1 {
        return (n / 0x1_0000 % 256) as u8;
    }
    if j == 2 {
        return (n / 0x100 % 256) as u8;
    }
    (n % 256) as u8
}

// Byte i of the base rows, each filled.
fn row_byte(rows: &[u8], row: usize, full: usize, blocks: usize, i: usize) -> u8
    requires { (row ≤ full) × ((full < 2 ^ 16) × ((blocks ≤ 16) × ((i < blocks * full) × (length rows.now ≡ blocks * row)))) }
    ensures { result ≡ row_byte rows.now row full i }
{
    let b = i / full;
    let k = i % full;
    if k < row {
        return rows[b * row + k];
    }
    0
}

// Byte i of what stands before the blocks.
fn front_byte(header: &[u8], h: FujiHeader, rows: &[u8], lengths: &[usize], i: usize) -> u8
    requires ruled { Ruled h × ((16 ≤ length header.now) × (i < row_start h h.blocks)) }
    requires lengths_len { (length lengths.now ≡ h.blocks) × (length rows.now ≡ h.blocks * row_length h) }
    ensures { result ≡ front_byte header.now h rows.now lengths.now i }
{
    let blocks = h.blocks as usize;
    let row = row_length(h);
    let start = 16 + limits::padded(4 * blocks);
    if i < 16 {
        return header[i];
    }
    if i < 16 + 4 * blocks {
        let b = (i - 16) / 4;
        return size_byte(lengths[b], (i - 16) % 4);
    }
    if i < start {
        return 0;
    }
    row_byte(rows, row, limits::padded(row), blocks, i - start)
}

// The bytes of blocks of these lengths, one after the other.
fn sum_of(lengths: &[usize]) -> usize
    requires { (length lengths.now ≤ 16) × (length lengths.now ≤ first_long lengths.now) }
    ensures { (result ≡ sum_of lengths.now (length lengths.now)) × (result ≤ length lengths.now * 2 ^ 32) }
{
    lengths.iter().sum()
}

// The lowest block of 2^32 bytes or more.
fn first_long(lengths: &[usize]) -> Option<usize>
    ensures { let first = first_long lengths.now in
        MatchOption result (length lengths.now ≤ first) (λ b. (b ≡ first) × (b < length lengths.now)) }
{
    for (b, length) in lengths.iter().enumerate() {
        if 0xFFFF_FFFF < *length {
            return Some(b);
        }
    }
    None
}

// What stands before the blocks goes to the start of the output.
fn fill_front(
    header: &[u8],
    h: FujiHeader,
    rows: &[u8],
    lengths: &[usize],
    out: &mut [u8],
    n: usize,
)
    requires ruled { Ruled h × ((16 ≤ length header.now) × ((n ≡ row_start h h.blocks) × (n ≤ length out.old))) }
    requires lengths_len { (length lengths.now ≡ h.blocks) × (length rows.now ≡ h.blocks * row_length h) }
    ensures { out.new ≡ front_bytes header.now h rows.now lengths.now ++ drop n out.old }
{
    for i in 0..n {
        out[i] = front_byte(header, h, rows, lengths, i);
    }
}

// The same under this header, or a refusal.
fn put_in(
    header: &[u8],
    h: FujiHeader,
    rows: &[u8],
    lengths: &[usize],
    out: &mut [u8],
) -> Result<usize, Refusal>
    requires { Ruled h × (16 ≤ length header.now) }
    ensures { (result ≡ front_answer h rows.now lengths.now (length out.old))
        × (out.new ≡ front_out result (front_bytes header.now h rows.now lengths.now) out.old) }
{
    let blocks = h.blocks as usize;
    let row = row_length(h);
    if lengths.len() != blocks {
        return Err(Refusal::WrongLengths);
    }
    if rows.len() != blocks * row {
        return Err(Refusal::WrongBases);
    }
    if let Some(long) = first_long(lengths) {
        return Err(Refusal::LongBlock(long));
    }
    let n = front_length(h);
    if out.len() < n {
        return Err(Refusal::ShortOutput);
    }
    fill_front(header, h, rows, lengths, out, n);
    Ok(n + sum_of(lengths))
}

// The header's bytes, the sizes and the rows go to the start of the output, and the answer is the length of the whole stream.
// Refusals, in this order: 1 and 2; 25 where there is not one length for each block; 17 where the rows have not one byte for each
// line of each block (a lossless header has none); 26 for the lowest block of 2^32 bytes or more; 13 for an output shorter than
// what stands before the blocks. Each leaves the output as it was.
pub fn put_front(
    header: &[u8],
    rows: &[u8],
    lengths: &[usize],
    out: &mut [u8],
) -> Result<usize, Refusal>
    ensures { LeftFront header.now rows.now lengths.now (parse_of header.now) out.old
        out.new result }
{
    let h = FujiHeader::parse(header)?;
    put_in(header, h, rows, lengths, out)
}
