// A refusal and a header as the numbers that C gets.
ghost use Rattle.std.specs.Prelude.{◌≡◌};
ghost use Rattle.stream.specs.Refusals.{refusal_words, refusal_in};
ghost use Rattle.stream.specs.Words.{header_words};

use crate::header::{FujiHeader, Refusal};

// A refusal for C: its number, and the block, the line and the index that it names, 0 where it names none.
pub fn refusal_words(r: Refusal) -> [usize; 4]
    ensures { result ≡ refusal_words r }
{
    match r {
        Refusal::ShortHeader => [1, 0, 0, 0],
        Refusal::BadHeader => [2, 0, 0, 0],
        Refusal::ShortSizes => [3, 0, 0, 0],
        Refusal::ShortBases(b) => [4, b, 0, 0],
        Refusal::NoBlock => [5, 0, 0, 0],
        Refusal::WrongSize => [6, 0, 0, 0],
        Refusal::OutsideImage => [7, 0, 0, 0],
        Refusal::Lossy => [8, 0, 0, 0],
        Refusal::WrongCount => [9, 0, 0, 0],
        Refusal::ShortScratch => [10, 0, 0, 0],
        Refusal::AboveLargest(i) => [11, 0, 0, i],
        Refusal::NotPredicted(i) => [12, 0, 0, i],
        Refusal::ShortOutput => [13, 0, 0, 0],
        Refusal::Truncated(b, l) => [14, b, l, 0],
        Refusal::NotTight(l) => [15, 0, l, 0],
        Refusal::Lossless => [16, 0, 0, 0],
        Refusal::WrongBases => [17, 0, 0, 0],
        Refusal::BadRecord(i) => [18, 0, 0, i],
        Refusal::HeldTwice(l) => [19, 0, l, 0],
        Refusal::NotHeld(l) => [20, 0, l, 0],
        Refusal::BadState => [21, 0, 0, 0],
        Refusal::OtherState => [22, 0, 0, 0],
        Refusal::NoEntry(b, l) => [23, b, l, 0],
        Refusal::OutsideSheet => [24, 0, 0, 0],
        Refusal::WrongLengths => [25, 0, 0, 0],
        Refusal::LongBlock(b) => [26, b, 0, 0],
    }
}

// The words of an answer's refusal, all 0 where nothing is refused.
pub fn refusal_in<T>(a: &Result<T, Refusal>) -> [usize; 4]
    ensures { result ≡ refusal_in a.now }
{
    match a {
        Ok(_) => [0; 4],
        Err(r) => refusal_words(*r),
    }
}

// The fields of a header in their order, a flag as 0 or 1.
pub fn header_words(h: FujiHeader) -> [usize; 9]
    ensures { result ≡ header_words h }
{
    [
        usize::from(h.lossless),
        usize::from(h.xtrans),
        h.bits as usize,
        h.height as usize,
        h.rounded_width as usize,
        h.width as usize,
        h.block_size as usize,
        h.blocks as usize,
        h.lines as usize,
    ]
}
