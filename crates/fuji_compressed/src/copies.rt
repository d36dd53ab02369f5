// Colour lines out of a stream, the front of a stream, and whole streams made of a stream: the tight one, and lossy working copies.
ghost use Rattle.read_set.specs.HandedSets.{Sets};
ghost use Rattle.read_set.specs.Words.{ToldSet};
ghost use Rattle.stream_front.specs.Words.{ToldFront};
ghost use Rattle.stream_copies.specs.MadeStreams.{Lent};
ghost use Rattle.stream_copies.specs.Words.{ToldTightened, ToldCopy};

use crate::reading::{counted_refusal, totals_words};
use read_set::read_set;
use statistics::Record;
use stream_copies::{lossy_copy, tighten};

// `read_set` for C.
#[unsafe(no_mangle)]
pub extern "C" fn fuji_read_set(
    d: &[u8],
    b: usize,
    set: &mut [u16],
    lines: &mut [u16],
    rs: &mut [Record],
    totals: &mut [usize; 2],
    refusal: &mut [usize; 4],
)
    ensures { let before : Sets = record { set = set.old; lines = lines.old; records = rs.old } in
        let after : Sets = record { set = set.new; lines = lines.new; records = rs.new } in
        ToldSet d.now b before after totals.new refusal.new }
{
    let a = read_set(d, b, set, lines, rs);
    *totals = totals_words(a);
    *refusal = counted_refusal(a);
}

// `put_front` for C.
#[unsafe(no_mangle)]
pub extern "C" fn fuji_put_front(
    header: &[u8],
    rows: &[u8],
    lengths: &[usize],
    out: &mut [u8],
    size: &mut [usize; 1],
    refusal: &mut [usize; 4],
)
    ensures { ToldFront header.now rows.now lengths.now out.old out.new size.new
        refusal.new }
{
    let a = stream_front::put_front(header, rows, lengths, out);
    *size = stream::length_word(a);
    *refusal = stream::refusal_in(&a);
}

// `tighten` for C.
#[unsafe(no_mangle)]
pub extern "C" fn fuji_tighten(
    d: &[u8],
    out: &mut [u8],
    set: &mut [u16],
    lines: &mut [u16],
    rs: &mut [Record],
    size: &mut [usize; 1],
    refusal: &mut [usize; 4],
)
    ensures { let before : Lent = record { out = out.old; set = set.old; lines = lines.old; records = rs.old } in
        let after : Lent = record { out = out.new; set = set.new; lines = lines.new; records = rs.new } in
        ToldTightened d.now before after size.new refusal.new }
{
    let a = tighten(d, out, set, lines, rs);
    *size = stream::length_word(a);
    *refusal = stream::refusal_in(&a);
}

// `lossy_copy` for C.
#[unsafe(no_mangle)]
pub extern "C" fn fuji_lossy_copy(
    d: &[u8],
    bases: &[u8],
    out: &mut [u8],
    set: &mut [u16],
    lines: &mut [u16],
    rs: &mut [Record],
    size: &mut [usize; 1],
    refusal: &mut [usize; 4],
)
    ensures { let before : Lent = record { out = out.old; set = set.old; lines = lines.old; records = rs.old } in
        let after : Lent = record { out = out.new; set = set.new; lines = lines.new; records = rs.new } in
        ToldCopy d.now bases.now before after size.new refusal.new }
{
    let a = lossy_copy(d, bases, out, set, lines, rs);
    *size = stream::length_word(a);
    *refusal = stream::refusal_in(&a);
}
