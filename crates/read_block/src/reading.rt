// Reading a block: six passes make a line, and lines make a block.
ghost use Rattle.std.specs.Prelude.{true, ◌≡◌, ◌+◌, ◌^◌, ◌≤◌, ◌<◌, length};
ghost use Rattle.quantiser.specs.Quantisers.{main_of};
ghost use Rattle.cameras.specs.Entries.{AllNumbered};
ghost use Rattle.image_map.specs.Places.{width_of};
ghost use Rattle.image_map.specs.Inside.{Fits};
ghost use Rattle.pass_steps.specs.Values.{quantisers_of};
ghost use Rattle.pass_steps.specs.Contexts.{Depth};
ghost use Rattle.read_block.specs.Lent.{Buffers};
ghost use Rattle.read_block.specs.Records.{is_restarted, clear_records};
ghost use Rattle.read_block.specs.Walks.{start_place, totals_at, AllInRange, IsWalked};
ghost use Rattle.read_block.specs.declared.Form.{Form};
ghost use Rattle.read_block.specs.WindowedLines.{samples_in, ScratchIn, zeros_in, PassPlaced, LineReadIn, OnlyLine, ShownIn};
ghost use Rattle.read_block.specs.WindowedLines.{LinesReadOn, Stands};

use crate::Walked;
use crate::records::{clear_records, load_set, restart_main, start_records, store_set};
use bits::{BitPosition, is_past};
use cameras::{Entries, base_of};
use code::Place;
use image_map::{Showing, width};
use line_totals::{TightLines, Totals};
use pass_steps::Quantisers;
use quantiser::Quantiser;
use statistics::Record;

pub fn is_restarted(bases: &[u8], n: usize) -> bool
    ensures { result ≡ is_restarted bases.now n }
{
    if n == 0 {
        return true;
    }
    base_of(bases, n) != base_of(bases, n - 1)
}

// A line's quantisers, the main one of which is given.
fn quantisers_with(m: Quantiser, bits: u32, base: u32) -> Quantisers
    requires { Depth bits × (m ≡ main_of bits base) }
    ensures { result ≡ quantisers_of bits base }
{
    let a = Quantiser::flat(bits, 1);
    let b = Quantiser::flat(bits, 2);
    let c = Quantiser::flat(bits, 3);
    Quantisers {
        base,
        totals: [m.total, a.total, b.total, c.total],
        raws: [m.raw, a.raw, b.raw, c.raw],
        limits: [m.limit, a.limit, b.limit, c.limit],
    }
}

pub fn quantisers_of(bits: u32, base: u32) -> Quantisers
    requires { Depth bits × (base < 256) }
    ensures { result ≡ quantisers_of bits base }
{
    quantisers_with(Quantiser::main(bits, base), bits, base)
}

// The same, with the main quantiser from its entry.
fn quantisers_in(entries: Entries, bits: u32, base: u32) -> Quantisers
    requires depth { Depth bits × (base < 256) }
    requires all_numbered { AllNumbered entries.all }
    ensures { result ≡ quantisers_of bits base }
{
    quantisers_with(cameras::main_in(entries, bits, base), bits, base)
}

// Where a block starts.
pub fn start_place() -> Place
    ensures { result ≡ start_place }
{
    let at = BitPosition(0);
    Place {
        at,
        tight: true,
        long: 0,
    }
}

// What was counted up to there.
fn totals_at(place: Place) -> Totals
    ensures { result ≡ totals_at place }
{
    let at = place.at;
    Totals {
        bits: at.0,
        long: place.long,
    }
}

// No line yet, where this was counted before.
fn no_lines(totals: Totals) -> TightLines
    ensures { result ≡ record { lines = 0; totals = totals } }
{
    TightLines { lines: 0, totals }
}

// The two colour lines of pass i of line n, to the image, in windows. The plan is asked for again: what is kept of it through the pass makes the pass
// longer.
fn emit_pass_at(lines: &[u16], image: &mut [u16], showing: &Showing, n: usize, i: usize)
    requires n_bound { (n < 2 ^ 16) × ((i < 6) × (length lines.now ≡ samples_in true showing.now.xtrans)) }
    requires fits { Fits showing.now.part image.old }
    ensures { PassPlaced true showing.now.xtrans (width_of showing.now.xtrans) showing.now.tile lines.now
        showing.now.part n i image.old image.new }
{
    let p = pass_schedule::plan_at(i, showing.xtrans);
    let h = read_pass::window_plan(p, true);
    showing.emit_pass(lines, image, n, p.first, h.first, p.second, h.second);
}

// Line n: six passes, each on the records of its set. It answers where the reading is after it, or None where the line is truncated. In windows each
// colour line goes to the image when its pass has ended. `windowed` says how much scratch was lent, as in `ScratchIn` and `Held`: no step to run.
fn line(
    block: &[u8],
    from: Place,
    lines: &mut [u16],
    rs: &mut [Record],
    image: &mut [u16],
    bits: u32,
    qs: Quantisers,
    showing: &Showing,
    n: usize,
    windowed: bool,
) -> Option<Place>
    requires block_len_bound { (length block.now < 2 ^ 32) × ScratchIn windowed showing.now.xtrans lines.old rs.old }
    requires depth { Depth bits × ((qs.base < 256) × (qs ≡ quantisers_of bits qs.base)) }
    requires all_in_range { AllInRange rs.old × (from.long ≤ from.at.0) }
    requires n_bound { (n < 2 ^ 16) × Fits showing.now.part image.old }
    ensures fact { let before : Buffers = record { image = image.old; lines = lines.old; records = rs.old } in
        let after : Buffers = record { image = image.new; lines = lines.new; records = rs.new } in
        let form : Form = record { bits = bits; xtrans = showing.now.xtrans } in
        LineReadIn windowed form qs block.now from showing.now.tile showing.now.part n before after result }
    ensures all_in_range_2 { AllInRange rs.new × OnlyLine windowed showing.now.part n image.old image.new }
{
    let xtrans = showing.xtrans;
    let w = width(xtrans);
    let mut place = from;
    for i in 0..6 {
        let p = pass_schedule::plan_at(i, xtrans);
        let h = read_pass::window_plan(p, windowed);
        colour_lines::enter(lines, w, h.first, h.second, windowed);
        let set = load_set(rs, p.set);
        let done = read_pass::pass(block, place, lines, set, w, h, qs, bits)?;
        store_set(rs, p.set, done.set);
        place = done.place;
        if windowed {
            emit_pass_at(lines, image, showing, n, i);
        }
    }
    let at = place.at;
    if is_past(block, at) {
        return None;
    }
    Some(place)
}

// `more` lines of a block from line `first` on, each put into the image as soon as it is read. They begin at this place, with what scratch
// holds, and leave in it what the last of them left. In windows a truncated line's rows become 0. A line's main quantiser is that of its entry; whoever
// has no entries gives none.
pub fn read_lines(
    block: &[u8],
    bases: &[u8],
    lines: &mut [u16],
    rs: &mut [Record],
    image: &mut [u16],
    bits: u32,
    showing: &Showing,
    first: usize,
    from: Place,
    more: usize,
    windowed: bool,
    entries: &Entries,
) -> Walked
    requires block_len_bound { (length block.now < 2 ^ 32) × ScratchIn windowed showing.now.xtrans lines.old rs.old }
    requires depth { Depth bits × (first + more < 2 ^ 16) }
    requires fits { Fits showing.now.part image.old }
    requires all_numbered { AllNumbered entries.now.all }
    requires all_in_range { AllInRange rs.old × ((from.long ≤ from.at.0) × Stands windowed showing.now.xtrans lines.old) }
    ensures { let before : Buffers = record { image = image.old; lines = lines.old; records = rs.old } in
        let after : Buffers = record { image = image.new; lines = lines.new; records = rs.new } in
        let form : Form = record { bits = bits; xtrans = showing.now.xtrans } in
        LinesReadOn windowed form bases.now block.now showing.now.tile showing.now.part first from more before after result }
{
    let w = width(showing.xtrans);
    let mut place = from;
    let mut tight_lines = no_lines(totals_at(from));
    for i in 0..more {
        let n = first + i;
        if !windowed {
            colour_lines::turn(lines, w);
        }
        let base = base_of(bases, n);
        if is_restarted(bases, n) {
            restart_main(rs, bits, base);
        }
        let got = line(
            block,
            place,
            lines,
            rs,
            image,
            bits,
            quantisers_in(*entries, bits, base),
            showing,
            n,
            windowed,
        );
        let Some(after) = got else {
            if windowed {
                showing.part.zero_line(image, n);
            }
            return Err((n, totals_at(place)));
        };
        place = after;
        tight_lines = line_totals::with_line(tight_lines, i, place.tight, totals_at(place));
        if !windowed {
            showing.emit_line(lines, image, n);
        }
    }
    Ok((totals_at(place), tight_lines))
}

// A walk over the first `count` lines of a block: the one reading that all calls share. Lines that are read go to the part of the image; whoever
// wants none gives an empty part. Scratch is cleared afterwards, whatever it held before.
pub fn walk(
    block: &[u8],
    bases: &[u8],
    lines: &mut [u16],
    rs: &mut [Record],
    image: &mut [u16],
    bits: u32,
    showing: &Showing,
    count: usize,
    windowed: bool,
    entries: Entries,
) -> Walked
    requires block_len_bound { (length block.now < 2 ^ 32) × ScratchIn windowed showing.now.xtrans lines.old rs.old }
    requires depth { Depth bits × (count < 2 ^ 16) }
    requires fits { Fits showing.now.part image.old }
    requires all_numbered { AllNumbered entries.all }
    ensures walked { IsWalked (record { bits = bits; xtrans = showing.now.xtrans }) bases.now block.now count result }
    ensures shown_in { let form : Form = record { bits = bits; xtrans = showing.now.xtrans } in
        ShownIn windowed form bases.now block.now showing.now.tile showing.now.part result count image.old image.new }
    ensures lines_after { (lines.new ≡ zeros_in windowed showing.now.xtrans) × (rs.new ≡ clear_records) }
{
    colour_lines::clear(lines);
    start_records(rs, bits, base_of(bases, 0));
    let walked = read_lines(
        block,
        bases,
        lines,
        rs,
        image,
        bits,
        showing,
        0,
        start_place(),
        count,
        windowed,
        &entries,
    );
    colour_lines::clear(lines);
    clear_records(rs);
    walked
}
