// Reading a block, and reading it tightly.
ghost use Rattle.std.specs.Prelude.{◌≡◌};
ghost use Rattle.read_block.specs.Lent.{Scratch};
ghost use Rattle.read_block.specs.Words.{answer_words, totals_words, ToldRead, ToldTight};

use read_block::{Counted, read_block, read_tight};
use statistics::Record;

// Bits and long codes.
pub(crate) fn totals_words(a: Counted) -> [usize; 2]
    ensures { result ≡ totals_words a.totals }
{
    let totals = a.totals;
    [totals.bits as usize, totals.long as usize]
}

pub(crate) fn counted_refusal(a: Counted) -> [usize; 4]
    ensures { result ≡ answer_words a.answer }
{
    stream::refusal_in(&a.answer)
}

// `read_block` for C.
#[unsafe(no_mangle)]
pub extern "C" fn fuji_read_block(
    d: &[u8],
    b: usize,
    lines: &mut [u16],
    rs: &mut [Record],
    totals: &mut [usize; 2],
    refusal: &mut [usize; 4],
)
    ensures { let before : Scratch = record { lines = lines.old; records = rs.old } in
        let after : Scratch = record { lines = lines.new; records = rs.new } in
        ToldRead d.now b before after totals.new refusal.new }
{
    let a = read_block(d, b, lines, rs);
    *totals = totals_words(a);
    *refusal = counted_refusal(a);
}

// `read_tight` for C.
#[unsafe(no_mangle)]
pub extern "C" fn fuji_read_tight(
    d: &[u8],
    b: usize,
    lines: &mut [u16],
    rs: &mut [Record],
    totals: &mut [usize; 2],
    refusal: &mut [usize; 4],
)
    ensures { let before : Scratch = record { lines = lines.old; records = rs.old } in
        let after : Scratch = record { lines = lines.new; records = rs.new } in
        ToldTight d.now b before after totals.new refusal.new }
{
    let a = read_tight(d, b, lines, rs);
    *totals = totals_words(a);
    *refusal = counted_refusal(a);
}
