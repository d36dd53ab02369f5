// The state between two lines of a block: stored, and taken up again.
ghost use Rattle.image_region.specs.declared.Rect.{Rect};
ghost use Rattle.read_block.specs.Lent.{Buffers, Outputs};
ghost use Rattle.saved_state.specs.Words.{ToldStored, ToldResumed};

use crate::reading::{counted_refusal, totals_words};
use image_region::Rect;
use saved_state::{resume_region, store_checkpoint};
use statistics::Record;

// `store_checkpoint` for C.
#[unsafe(no_mangle)]
pub extern "C" fn fuji_store_checkpoint(
    d: &[u8],
    b: usize,
    line: usize,
    state: &mut [u8],
    lines: &mut [u16],
    rs: &mut [Record],
    totals: &mut [usize; 2],
    refusal: &mut [usize; 4],
)
    ensures { let before : Outputs = record { out = state.old; lines = lines.old; records = rs.old } in
        let after : Outputs = record { out = state.new; lines = lines.new; records = rs.new } in
        ToldStored d.now b line before after totals.new refusal.new }
{
    let a = store_checkpoint(d, b, line, state, lines, rs);
    *totals = totals_words(a);
    *refusal = counted_refusal(a);
}

// `resume_region` for C.
#[unsafe(no_mangle)]
pub extern "C" fn fuji_resume_region(
    d: &[u8],
    b: usize,
    state: &[u8],
    x: usize,
    y: usize,
    width: usize,
    height: usize,
    tile: &[u8; 36],
    image: &mut [u16],
    lines: &mut [u16],
    rs: &mut [Record],
    totals: &mut [usize; 2],
    refusal: &mut [usize; 4],
)
    ensures { let r : Rect = record { x = x; y = y; width = width; height = height } in
        let before : Buffers = record { image = image.old; lines = lines.old; records = rs.old } in
        let after : Buffers = record { image = image.new; lines = lines.new; records = rs.new } in
        ToldResumed d.now b state.now r tile.now before after totals.new refusal.new }
{
    let r = Rect {
        x,
        y,
        width,
        height,
    };
    let a = resume_region(d, b, state, r, *tile, image, lines, rs);
    *totals = totals_words(a);
    *refusal = counted_refusal(a);
}
