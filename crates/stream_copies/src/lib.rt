// Whole streams: the tight stream of a stream, and a lossy working copy.
#![tactic(auto)]

ghost use Rattle.std.specs.Prelude.{true, false, [], ◌++◌, ◌≡◌, ◌+◌, ◌*◌, ◌≤◌, ◌<◌, length, take, drop, replicate, Ok};
ghost use Rattle.image_map.specs.Places.{width_of};
ghost use Rattle.colour_lines.specs.Sets.{set_size};
ghost use Rattle.stream.specs.Headers.{parse_of};
ghost use Rattle.stream.specs.Inside.{Ruled};
ghost use Rattle.stream.specs.Streams.{open_of};
ghost use Rattle.admission.specs.Beginnings.{ScratchFits};
ghost use Rattle.read_block.specs.Lent.{Outputs};
ghost use Rattle.write_block.specs.WrittenAnswers.{SetWriting};
ghost use Rattle.stream_front.specs.Fronts.{LeftFront};
ghost use Rattle.theorem_whole_streams.specs.Kinds.{flagged, with_flag};
ghost use Rattle.stream_copies.specs.MadeStreams.{Lent, is_tight_call, bases_of, new_header, new_front, with_room, making_begins, LeftMade};
ghost use Rattle.stream_copies.specs.Inside.{RowsFit};
ghost use Rattle.stream_copies.specs.Inside.{BlockPut, BlocksMade};

use read_block::Counted;
use read_set::read_set;
use statistics::Record;
use stream::{FujiHeader, Refusal};
use write_block::{write_block, write_lossy};

// The first 16 bytes of a stream with this lossless flag.
fn flagged(d: &[u8], lossless: bool) -> [u8; 16]
    requires { 16 ≤ length d.now }
    ensures { result ≡ flagged lossless d.now }
{
    let mut head = [0u8; 16];
    head.copy_from_slice(&d[..16]);
    head[2] = u8::from(lossless);
    head
}

// Zeros up to n: a stream whose making is refused on the way does not open.
fn clear_front(out: &mut [u8], n: usize)
    requires { n ≤ length out.old }
    ensures { out.new ≡ replicate n 0 ++ drop n out.old }
{
    out[..n].fill(0);
}

// The header that the new stream has.
fn kind_of(h: FujiHeader, lossless: bool) -> FujiHeader
    ensures { result ≡ with_flag lossless h }
{
    FujiHeader { lossless, ..h }
}

// A set of block b of the new stream becomes its block, at the start of the output.
fn write_new(
    head: &[u8],
    rows: &[u8],
    h: FujiHeader,
    b: usize,
    set: &[u16],
    out: &mut [u8],
    lines: &mut [u16],
    rs: &mut [Record],
) -> Result<usize, Refusal>
    requires head_value { (parse_of head.now ≡ Ok (new_header h rows.now)) × (RowsFit h rows.now × (b < h.blocks)) }
    requires ruled { Ruled h × (length set.now ≡ set_size (width_of h.xtrans) h.lines) }
    requires scratch_fits { ScratchFits h (length lines.old) (length rs.old) }
    ensures { let before : Outputs = record { out = out.old; lines = lines.old; records = rs.old } in
        let after : Outputs = record { out = out.new; lines = lines.new; records = rs.new } in
        SetWriting (bases_of h rows.now b) set.now (new_header h rows.now) before after result }
{
    if rows.is_empty() {
        return write_block(head, set, out, lines, rs);
    }
    let n = h.lines as usize;
    let first = b * n;
    let end = first + n;
    write_lossy(head, &rows[first..end], set, out, lines, rs)
}

// The set of block b, and its block at `at` of the output: its length, or a refusal.
fn put_block(
    d: &[u8],
    head: &[u8],
    rows: &[u8],
    h: FujiHeader,
    b: usize,
    out: &mut [u8],
    at: usize,
    set: &mut [u16],
    lines: &mut [u16],
    rs: &mut [Record],
) -> Result<usize, Refusal>
    requires d_value { (open_of d.now ≡ Ok h) × (head.now ≡ flagged (is_tight_call rows.now) d.now) }
    requires rows_fit { RowsFit h rows.now × ((b < h.blocks) × (at ≤ length out.old)) }
    requires set_len { (length set.old ≡ set_size (width_of h.xtrans) h.lines) × ScratchFits h (length lines.old) (length rs.old) }
    ensures { let before : Outputs = record { out = out.old; lines = lines.old; records = rs.old } in
        let after : Outputs = record { out = out.new; lines = lines.new; records = rs.new } in
        BlockPut d.now h rows.now b at before after result }
{
    read_set(d, b, set, lines, rs).answer?;
    write_new(head, rows, h, b, set, &mut out[at..], lines, rs)
}

// What stands before the blocks, once their lengths are known.
fn finish(
    head: &[u8],
    rows: &[u8],
    lengths: &[usize],
    blocks: usize,
    out: &mut [u8],
) -> Result<usize, Refusal>
    requires { blocks ≤ length lengths.now }
    ensures { LeftFront head.now rows.now (take blocks lengths.now) (parse_of head.now) out.old
        out.new result }
{
    stream_front::put_front(head, rows, &lengths[0..blocks], out)
}

// All blocks behind `front` zeros, and then what stands before them.
fn make_in(
    d: &[u8],
    rows: &[u8],
    h: FujiHeader,
    out: &mut [u8],
    set: &mut [u16],
    lines: &mut [u16],
    rs: &mut [Record],
    front: usize,
) -> Result<usize, Refusal>
    requires d_value { (open_of d.now ≡ Ok h) × RowsFit h rows.now }
    requires set_len { (length set.old ≡ set_size (width_of h.xtrans) h.lines) × ScratchFits h (length lines.old) (length rs.old) }
    requires front_value { (front ≡ new_front h rows.now) × ((front ≤ length out.old) × (take front out.old ≡ replicate front 0)) }
    ensures { let before : Outputs = record { out = out.old; lines = lines.old; records = rs.old } in
        let after : Outputs = record { out = out.new; lines = lines.new; records = rs.new } in
        BlocksMade d.now h rows.now before after result }
{
    let head = flagged(d, rows.len() == 0);
    let blocks = h.blocks as usize;
    let mut lengths = [0usize; 16];
    let mut at = front;
    for b in 0..blocks {
        let n = put_block(d, &head, rows, h, b, out, at, set, lines, rs)?;
        lengths[b] = n;
        at += n;
    }
    finish(&head, rows, &lengths, blocks, out)
}

// Refusals 9 and 10, and 13 for what stands before the blocks.
fn room_begins(
    h: FujiHeader,
    tight: bool,
    room: usize,
    count: usize,
    samples: usize,
    records: usize,
) -> Result<FujiHeader, Refusal>
    requires { Ruled h }
    ensures { result ≡ with_room h tight room count samples records }
{
    if count != read_set::set_size(h) {
        return Err(Refusal::WrongCount);
    }
    let g = admission::with_scratch(h, samples, records)?;
    if room < stream_front::front_length(kind_of(g, tight)) {
        return Err(Refusal::ShortOutput);
    }
    Ok(g)
}

// No rows: the tight stream; else the lossy one with these bases.
fn make(
    d: &[u8],
    rows: &[u8],
    h: FujiHeader,
    out: &mut [u8],
    set: &mut [u16],
    lines: &mut [u16],
    rs: &mut [Record],
) -> Result<usize, Refusal>
    requires { (open_of d.now ≡ Ok h) × RowsFit h rows.now }
    ensures { let before : Lent = record { out = out.old; set = set.old; lines = lines.old; records = rs.old } in
        let after : Lent = record { out = out.new; set = set.new; lines = lines.new; records = rs.new } in
        LeftMade d.now rows.now
        (with_room h (is_tight_call rows.now) (length before.out) (length before.set) (length before.lines) (length before.records))
        before after result }
{
    let tight = rows.len() == 0;
    let g = room_begins(h, tight, out.len(), set.len(), lines.len(), rs.len())?;
    let front = stream_front::front_length(kind_of(g, tight));
    clear_front(out, front);
    let made = make_in(d, rows, g, out, set, lines, rs, front);
    colour_lines::clear(set);
    made
}

// The tight stream of the stream d, lossless or lossy, goes to the start of the output, and the answer is its length.
pub fn tighten(
    d: &[u8],
    out: &mut [u8],
    set: &mut [u16],
    lines: &mut [u16],
    rs: &mut [Record],
) -> Result<usize, Refusal>
    ensures { let before : Lent = record { out = out.old; set = set.old; lines = lines.old; records = rs.old } in
        let after : Lent = record { out = out.new; set = set.new; lines = lines.new; records = rs.new } in
        LeftMade d.now [] (making_begins false (open_of d.now) [] before) before after result }
{
    let h = stream::open(d)?;
    make(d, &d[0..0], h, out, set, lines, rs)
}

// A lossy working copy: `bases` has a byte for each line of each block, block after block.
pub fn lossy_copy(
    d: &[u8],
    bases: &[u8],
    out: &mut [u8],
    set: &mut [u16],
    lines: &mut [u16],
    rs: &mut [Record],
) -> Result<usize, Refusal>
    ensures { let before : Lent = record { out = out.old; set = set.old; lines = lines.old; records = rs.old } in
        let after : Lent = record { out = out.new; set = set.new; lines = lines.new; records = rs.new } in
        LeftMade d.now bases.now (making_begins true (open_of d.now) bases.now before) before after result }
{
    let h = stream::open(d)?;
    let blocks = h.blocks as usize;
    let count = h.lines as usize;
    if bases.len() != blocks * count {
        return Err(Refusal::WrongBases);
    }
    make(d, bases, h, out, set, lines, rs)
}
