// A stream: its header, and where its blocks and base rows lie.
ghost use Rattle.std.specs.Prelude.{◌≡◌};
ghost use Rattle.stream.specs.Headers.{parse_of, width_answer};
ghost use Rattle.stream.specs.Refusals.{refusal_in};
ghost use Rattle.stream.specs.Streams.{open_of, range_of, row_of};
ghost use Rattle.fuji_compressed.specs.Streams.{parsed_words, ranged_words, width_words};

use bits::ByteOffset;
use stream::{FujiHeader, Refusal};

fn parsed_words(p: Result<FujiHeader, Refusal>) -> [usize; 9]
    ensures { result ≡ parsed_words p }
{
    match p {
        Ok(h) => stream::header_words(h),
        Err(_) => [0; 9],
    }
}

fn ranged_words(r: Result<(ByteOffset, usize), Refusal>) -> [usize; 2]
    ensures { result ≡ ranged_words r }
{
    match r {
        Ok((from, n)) => [from.0, n],
        Err(_) => [0; 2],
    }
}

fn width_words(c: Result<u32, Refusal>) -> [usize; 1]
    ensures { result ≡ width_words c }
{
    match c {
        Ok(n) => [n as usize],
        Err(_) => [0; 1],
    }
}

// The header alone.
#[unsafe(no_mangle)]
pub extern "C" fn fuji_parse(d: &[u8], header: &mut [usize; 9], refusal: &mut [usize; 4])
    ensures { (header.new ≡ parsed_words (parse_of d.now))
        × (refusal.new ≡ refusal_in (parse_of d.now)) }
{
    let x = FujiHeader::parse(d);
    *header = parsed_words(x);
    *refusal = stream::refusal_in(&x);
}

// The header of a stream that opens.
#[unsafe(no_mangle)]
pub extern "C" fn fuji_open(d: &[u8], header: &mut [usize; 9], refusal: &mut [usize; 4])
    ensures { (header.new ≡ parsed_words (open_of d.now))
        × (refusal.new ≡ refusal_in (open_of d.now)) }
{
    let x = stream::open(d);
    *header = parsed_words(x);
    *refusal = stream::refusal_in(&x);
}

// The columns of block i.
#[unsafe(no_mangle)]
pub extern "C" fn fuji_block_width(
    d: &[u8],
    i: u32,
    width: &mut [usize; 1],
    refusal: &mut [usize; 4],
)
    ensures { let answer = width_answer (parse_of d.now) i in
        (width.new ≡ width_words answer) × (refusal.new ≡ refusal_in answer) }
{
    let x = stream::block_width(d, i);
    *width = width_words(x);
    *refusal = stream::refusal_in(&x);
}

// Where block b lies in the stream: an offset and a length.
#[unsafe(no_mangle)]
pub extern "C" fn fuji_block_range(
    d: &[u8],
    b: usize,
    range: &mut [usize; 2],
    refusal: &mut [usize; 4],
)
    ensures { (range.new ≡ ranged_words (range_of d.now b))
        × (refusal.new ≡ refusal_in (range_of d.now b)) }
{
    let x = stream::block_range(d, b);
    *range = ranged_words(x);
    *refusal = stream::refusal_in(&x);
}

// Where the base row of block b lies in the stream.
#[unsafe(no_mangle)]
pub extern "C" fn fuji_base_row_range(
    d: &[u8],
    b: usize,
    range: &mut [usize; 2],
    refusal: &mut [usize; 4],
)
    ensures { (range.new ≡ ranged_words (row_of d.now b))
        × (refusal.new ≡ refusal_in (row_of d.now b)) }
{
    let x = stream::base_row_range(d, b);
    *range = ranged_words(x);
    *refusal = stream::refusal_in(&x);
}
