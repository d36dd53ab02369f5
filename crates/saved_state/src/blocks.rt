// The state of a block after a line: stored, and gone on from.
ghost use Rattle.std.specs.Prelude.{◌≡◌, true, false, cond, ◌+◌, ◌-◌, ◌*◌, ◌^◌, ◌≤◌, ◌<◌, length, replicate, Ok};
ghost use Rattle.statistics.specs.declared.Record.{Record};
ghost use Rattle.colour_lines.specs.ColourLines.{zero_lines};
ghost use Rattle.image_map.specs.Places.{width_of};
ghost use Rattle.pass_steps.specs.Contexts.{Depth};
ghost use Rattle.stream.specs.Streams.{open_of};
ghost use Rattle.image_region.specs.Regions.{line_count};
ghost use Rattle.image_region.specs.Inside.{Accepted};
ghost use Rattle.saved_state.specs.Checkpoints.{size_of_checkpoint, checkpoint_of, loaded_record, Saved};
ghost use Rattle.line_totals.specs.Totals.{no_totals};
ghost use Rattle.read_block.specs.Lent.{Buffers, Outputs};
ghost use Rattle.read_block.specs.Inside.{ScratchOf};
ghost use Rattle.read_block.specs.Records.{table, start_record, clear_records};
ghost use Rattle.read_block.specs.Totals.{refused_by};
ghost use Rattle.saved_state.specs.Storing.{stored_counted, stored_out, LeftStored};
ghost use Rattle.saved_state.specs.Resuming.{is_touched, checked_in, Resumed, LeftResumed};
ghost use Rattle.saved_state.specs.Calls.{place_at, PartWanted, since_counted, store_judged, ResumedIn, StoredWalk};

use crate::load::Bounds;
use bits::BitPosition;
use cameras::base_of;
use code::Place;
use image_map::{Part, Showing, width};
use image_region::Rect;
use read_block::{
    Counted, Walked, clear_records, line_count, load_set, no_part, read_answer, read_lines,
    refused, start_place, start_record, start_records, update,
};
use statistics::Record;
use stream::{FujiHeader, Refusal};

// Refused once scratch is the call's: it is left cleared, and nothing was counted.
fn refuse(lines: &mut [u16], rs: &mut [Record], x: Refusal) -> Counted
    requires { length rs.old ≡ 336 }
    ensures value { result ≡ refused_by x }
    ensures lines_after { (lines.new ≡ replicate (length lines.old) 0) × (rs.new ≡ clear_records) }
{
    colour_lines::clear(lines);
    clear_records(rs);
    refused(x)
}

// ---- going on

// The records that stored bytes hold.
fn load_records(rs: &mut [Record], s: &[u8], lossless: bool, bits: u32, base: u32)
    requires in_bounds { (1707 ≤ length s.now) × (length rs.old ≡ 336) }
    requires depth { Depth bits × (base < 256) }
    ensures { rs.new ≡ table (λ j. loaded_record lossless (start_record bits base j) s.now j) 336 }
{
    for j in 0..336 {
        let start = start_record(bits, base, j);
        let r = crate::load::load_record(s, j, lossless, start);
        update(rs, j, r);
    }
}

// What the stored bytes s are to block b.
fn checked_in(d: &[u8], h: FujiHeader, b: usize, s: &[u8]) -> Result<(usize, u64), Refusal>
    requires { open_of d.now ≡ Ok h }
    ensures { result ≡ checked_in d.now b h s.now }
{
    let block = stream::block_bytes(d, b);
    let bounds = Bounds {
        w: width(h.xtrans),
        bits: h.bits,
        lines: line_count(h),
        bytes: block.len(),
    };
    crate::load::check(s, bounds, d, b)
}

fn is_touched(r: Rect, b: usize) -> bool
    requires { (1 ≤ r.width) × (1 ≤ r.height) }
    ensures { result ≡ is_touched r b }
{
    let span = image_region::span_of(r);
    (span.first <= b) & (b <= span.last)
}

// How many lines of block b a region wants from line k on: none if it does not touch the block.
fn lines_wanted(r: Rect, b: usize, k: usize) -> usize
    requires { (1 ≤ r.width) × (1 ≤ r.height) }
    ensures { result ≡ cond (is_touched r b) (line_count r - k) 0 }
{
    if is_touched(r, b) {
        let span = image_region::span_of(r);
        return span.lines.saturating_sub(k);
    }
    0
}

// Where they go.
fn part_wanted(r: Rect, b: usize) -> Part
    requires { (1 ≤ r.width) × ((1 ≤ r.height) × (b < 2 ^ 32)) }
    ensures { PartWanted r b result }
{
    if is_touched(r, b) {
        return image_region::part(r, b);
    }
    no_part()
}

// A place to go on from: codes are counted from there.
fn place_at(at: u64) -> Place
    ensures { result ≡ place_at at }
{
    let at = BitPosition(at);
    Place {
        at,
        tight: true,
        long: 0,
    }
}

fn resume_answer(b: usize, at: u64, got: Walked) -> Counted
    ensures { result ≡ since_counted b at got }
{
    let all = read_answer(b, got);
    let answer = all.answer;
    let totals = line_totals::since(all.totals, at);
    Counted { answer, totals }
}

// The lines from line k on, from the state that s holds.
fn resume_lines(
    d: &[u8],
    h: FujiHeader,
    b: usize,
    s: &[u8],
    k: usize,
    at: u64,
    r: Rect,
    tile: [u8; 36],
    image: &mut [u16],
    lines: &mut [u16],
    rs: &mut [Record],
) -> Counted
    requires d_value { (open_of d.now ≡ Ok h) × Accepted h r (length image.old) }
    requires b_lt_blocks { (b < h.blocks) × (checked_in d.now b h s.now ≡ Ok (k, at)) }
    requires scratch_of { ScratchOf h.xtrans lines.old rs.old }
    ensures resumed { Resumed d.now b h s.now r tile (Ok (k, at)) image.old image.new result }
    ensures lines_after { (lines.new ≡ zero_lines (width_of h.xtrans)) × (rs.new ≡ clear_records) }
{
    let block = stream::block_bytes(d, b);
    let bases = stream::base_row(d, b);
    let places = image_map::xtrans_places();
    let part = part_wanted(r, b);
    let showing = Showing {
        xtrans: h.xtrans,
        places: &places,
        tile,
        part,
    };
    let more = lines_wanted(r, b, k);
    colour_lines::clear(lines);
    load_records(rs, s, h.lossless, h.bits, base_of(bases, 0));
    crate::load::load_lines(s, lines, width(h.xtrans));
    let got = read_lines(
        block,
        bases,
        lines,
        rs,
        image,
        h.bits,
        &showing,
        k,
        place_at(at),
        more,
        false,
        &cameras::no_entries(),
    );
    colour_lines::clear(lines);
    clear_records(rs);
    resume_answer(b, at, got)
}

fn resume_in(
    d: &[u8],
    h: FujiHeader,
    b: usize,
    s: &[u8],
    r: Rect,
    tile: [u8; 36],
    image: &mut [u16],
    lines: &mut [u16],
    rs: &mut [Record],
) -> Counted
    requires d_value { (open_of d.now ≡ Ok h) × ((b < h.blocks) × Accepted h r (length image.old)) }
    requires scratch_of { ScratchOf h.xtrans lines.old rs.old }
    ensures resumed_in { ResumedIn d.now b h s.now r tile image.old image.new result }
    ensures lines_after { (lines.new ≡ zero_lines (width_of h.xtrans)) × (rs.new ≡ clear_records) }
{
    match checked_in(d, h, b, s) {
        Err(x) => refuse(lines, rs, x),
        Ok((k, at)) => resume_lines(d, h, b, s, k, at, r, tile, image, lines, rs),
    }
}

// An empty region.
fn nothing_counted() -> Counted
    ensures { result ≡ record { answer = Ok tt; totals = no_totals } }
{
    let answer = Ok(());
    let totals = line_totals::none();
    Counted { answer, totals }
}

// Goes on in block b of the stream d from a stored state, and fills what the region has of the block from the state's next line on. Of the lent scratch
// only the first part is used.
pub fn resume_region(
    d: &[u8],
    b: usize,
    state: &[u8],
    r: Rect,
    tile: [u8; 36],
    image: &mut [u16],
    lines: &mut [u16],
    rs: &mut [Record],
) -> Counted
    ensures { let before : Buffers = record { image = image.old; lines = lines.old; records = rs.old } in
        let after : Buffers = record { image = image.new; lines = lines.new; records = rs.new } in
        LeftResumed d.now b state.now r tile before after result }
{
    let begins = admission::resume_begins(d, b, r, image.len(), lines.len(), rs.len());
    match begins {
        Err(x) => refused(x),
        Ok(begun) => {
            let Some(h) = begun else {
                return nothing_counted();
            };
            let used = admission::samples_needed(h.xtrans);
            resume_in(
                d,
                h,
                b,
                state,
                r,
                tile,
                image,
                &mut lines[0..used],
                &mut rs[0..336],
            )
        }
    }
}

// ---- storing

// Refusals 21 and 13.
fn store_judged(h: FujiHeader, line: usize, room: usize) -> Result<(), Refusal>
    ensures { result ≡ store_judged h line room }
{
    if line_count(h) <= line {
        return Err(Refusal::BadState);
    }
    if room < 1707 + 12 * width(h.xtrans) {
        return Err(Refusal::ShortOutput);
    }
    Ok(())
}

// The state that scratch holds after this line.
fn put_state(
    state: &mut [u8],
    d: &[u8],
    h: FujiHeader,
    b: usize,
    line: usize,
    at: u64,
    lines: &[u16],
    rs: &[Record],
)
    requires in_bounds { (16 ≤ length d.now) × (line < 2 ^ 16) }
    requires scratch_of { ScratchOf h.xtrans lines.now rs.now × (size_of_checkpoint (width_of h.xtrans) ≤ length state.old) }
    ensures { let z : Saved = record { stream = d.now; block = b; line = line; at = at; records = rs.now; lines = lines.now } in
        state.new ≡ checkpoint_of h.lossless (width_of h.xtrans) z state.old }
{
    let lossless = h.lossless;
    crate::head::store_head(state, d, b, line, at);
    for g in 0..3 {
        crate::store::store_set(state, g, load_set(rs, g), lossless);
    }
    crate::store::store_lines(state, lines, width(h.xtrans));
}

// The state after a walk, if all of its lines were read.
fn put_walked(
    state: &mut [u8],
    d: &[u8],
    h: FujiHeader,
    b: usize,
    line: usize,
    got: Walked,
    lines: &[u16],
    rs: &[Record],
)
    requires in_bounds { (16 ≤ length d.now) × (line < 2 ^ 16) }
    requires scratch_of { ScratchOf h.xtrans lines.now rs.now × (size_of_checkpoint (width_of h.xtrans) ≤ length state.old) }
    ensures { StoredWalk d.now b line h got lines.now rs.now state.old state.new }
{
    match got {
        Err((_, _)) => {}
        Ok((totals, _)) => {
            put_state(state, d, h, b, line, totals.bits, lines, rs);
        }
    }
}

// Lines 0 to `line` of block b, and the state after them.
fn store_state(
    d: &[u8],
    h: FujiHeader,
    b: usize,
    line: usize,
    state: &mut [u8],
    lines: &mut [u16],
    rs: &mut [Record],
) -> Counted
    requires d_value { (open_of d.now ≡ Ok h) × (store_judged h line (length state.old) ≡ Ok tt) }
    requires scratch_of { ScratchOf h.xtrans lines.old rs.old }
    ensures value { result ≡ stored_counted d.now b h line (length state.old) }
    ensures state_after { state.new ≡ stored_out result.answer d.now b h line state.old }
    ensures lines_after { (lines.new ≡ zero_lines (width_of h.xtrans)) × (rs.new ≡ clear_records) }
{
    let block = stream::block_bytes(d, b);
    let bases = stream::base_row(d, b);
    let places = image_map::xtrans_places();
    let showing = Showing {
        xtrans: h.xtrans,
        places: &places,
        tile: [0u8; 36],
        part: no_part(),
    };
    let mut nothing = [0u16; 1];
    colour_lines::clear(lines);
    start_records(rs, h.bits, base_of(bases, 0));
    let got = read_lines(
        block,
        bases,
        lines,
        rs,
        &mut nothing,
        h.bits,
        &showing,
        0,
        start_place(),
        line + 1,
        false,
        &cameras::no_entries(),
    );
    put_walked(state, d, h, b, line, got, lines, rs);
    colour_lines::clear(lines);
    clear_records(rs);
    read_answer(b, got)
}

fn store_in(
    d: &[u8],
    h: FujiHeader,
    b: usize,
    line: usize,
    state: &mut [u8],
    lines: &mut [u16],
    rs: &mut [Record],
) -> Counted
    requires d_value { open_of d.now ≡ Ok h }
    requires scratch_of { ScratchOf h.xtrans lines.old rs.old }
    ensures value { result ≡ stored_counted d.now b h line (length state.old) }
    ensures state_after { state.new ≡ stored_out result.answer d.now b h line state.old }
    ensures lines_after { (lines.new ≡ zero_lines (width_of h.xtrans)) × (rs.new ≡ clear_records) }
{
    let judged = store_judged(h, line, state.len());
    match judged {
        Err(x) => refuse(lines, rs, x),
        Ok(()) => store_state(d, h, b, line, state, lines, rs),
    }
}

// Stores the state of block b of the stream d after a line, as bytes. Of the lent scratch only the first part is used.
pub fn store_checkpoint(
    d: &[u8],
    b: usize,
    line: usize,
    state: &mut [u8],
    lines: &mut [u16],
    rs: &mut [Record],
) -> Counted
    ensures { let before : Outputs = record { out = state.old; lines = lines.old; records = rs.old } in
        let after : Outputs = record { out = state.new; lines = lines.new; records = rs.new } in
        LeftStored d.now b line before after result }
{
    let begins = admission::block_begins(d, b, false, lines.len(), rs.len());
    match begins {
        Err(x) => refused(x),
        Ok(h) => {
            let used = admission::samples_needed(h.xtrans);
            store_in(d, h, b, line, state, &mut lines[0..used], &mut rs[0..336])
        }
    }
}
