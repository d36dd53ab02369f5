// Writing a block, without loss and with it, and measuring what would be written.
ghost use Rattle.read_block.specs.Lent.{Scratch, Outputs};
ghost use Rattle.write_block.specs.Words.{ToldWritten, ToldLossy, ToldMeasured};

use statistics::Record;
use write_block::{measure_block, write_block, write_lossy};

// `write_block` for C.
#[unsafe(no_mangle)]
pub extern "C" fn fuji_write_block(
    header: &[u8],
    samples: &[u16],
    out: &mut [u8],
    lines: &mut [u16],
    rs: &mut [Record],
    size: &mut [usize; 1],
    refusal: &mut [usize; 4],
)
    ensures { let before : Outputs = record { out = out.old; lines = lines.old; records = rs.old } in
        let after : Outputs = record { out = out.new; lines = lines.new; records = rs.new } in
        ToldWritten header.now samples.now before after size.new refusal.new }
{
    let a = write_block(header, samples, out, lines, rs);
    *size = stream::length_word(a);
    *refusal = stream::refusal_in(&a);
}

// `write_lossy` for C.
#[unsafe(no_mangle)]
pub extern "C" fn fuji_write_lossy(
    header: &[u8],
    bases: &[u8],
    samples: &[u16],
    out: &mut [u8],
    lines: &mut [u16],
    rs: &mut [Record],
    size: &mut [usize; 1],
    refusal: &mut [usize; 4],
)
    ensures { let before : Outputs = record { out = out.old; lines = lines.old; records = rs.old } in
        let after : Outputs = record { out = out.new; lines = lines.new; records = rs.new } in
        ToldLossy header.now bases.now samples.now before after size.new refusal.new }
{
    let a = write_lossy(header, bases, samples, out, lines, rs);
    *size = stream::length_word(a);
    *refusal = stream::refusal_in(&a);
}

// `measure_block` for C.
#[unsafe(no_mangle)]
pub extern "C" fn fuji_measure_block(
    header: &[u8],
    samples: &[u16],
    lines: &mut [u16],
    rs: &mut [Record],
    size: &mut [usize; 1],
    refusal: &mut [usize; 4],
)
    ensures { let before : Scratch = record { lines = lines.old; records = rs.old } in
        let after : Scratch = record { lines = lines.new; records = rs.new } in
        ToldMeasured header.now samples.now before after size.new refusal.new }
{
    let a = measure_block(header, samples, lines, rs);
    *size = stream::length_word(a);
    *refusal = stream::refusal_in(&a);
}
