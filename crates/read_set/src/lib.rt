// Whole streams: the colour lines of a block are handed out, as the set that the writer takes.
#![tactic(auto)]

ghost use Rattle.std.specs.Prelude.{◌≡◌, ◌+◌, ◌*◌, ◌^◌, ◌≤◌, ◌<◌, length, take, drop, Ok};
ghost use Rattle.colour_lines.specs.ColourLines.{zero_lines};
ghost use Rattle.colour_lines.specs.Sets.{line_size, set_size};
ghost use Rattle.image_map.specs.Places.{width_of};
ghost use Rattle.pass_steps.specs.Contexts.{Depth};
ghost use Rattle.stream.specs.Streams.{open_of};
ghost use Rattle.read_block.specs.Images.{form_of, bytes_in, bases_in, lines_read};
ghost use Rattle.read_block.specs.Inside.{ScratchOf};
ghost use Rattle.read_block.specs.Records.{clear_records};
ghost use Rattle.read_block.specs.Walks.{IsWalked};
ghost use Rattle.read_set.specs.HandedSets.{set_with, put_over, Sets, set_begins, LeftSet};
ghost use Rattle.read_set.specs.Inside.{twelve, next_place};

pub use admission::set_size;
use bits::BitPosition;
use code::Place;
use colour_lines::{line_of_rank, start_of};
use image_map::{Showing, width};
use read_block::{
    Counted, Form, Walked, clear_records, form_of, line_count, read_lines, start_records,
};
use statistics::Record;
use stream::{FujiHeader, Refusal};

// So many samples go from one list to another. Sample by sample: of `copy_from_slice` LLVM makes a call of memmove, which
// the library must not need.
fn copy_samples(from: &[u16], at: usize, n: usize, to: &mut [u16], start: usize)
    requires { (at + n ≤ length from.now) × (start + n ≤ length to.old) }
    ensures { to.new ≡ put_over to.old start (take n (drop at from.now)) }
{
    for j in 0..n {
        to[start + j] = from[at + j];
    }
}

// The twelve colour lines of line n, without guards, go to their places in the set.
fn keep_line(lines: &[u16], w: usize, n: usize, set: &mut [u16])
    requires { (w ≤ 512) × ((n < 2 ^ 16) × ((length lines.now ≡ 18 * (w + 2)) × ((n + 1) * line_size w ≤ length set.old))) }
    ensures { set.new ≡ put_over set.old (n * line_size w) (twelve w lines.now) }
{
    let first = n * (12 * w);
    for c in 0..12 {
        let from = start_of(w, line_of_rank(c)) + 1;
        copy_samples(lines, from, w, set, first + c * w);
    }
}

// Where the next line begins, after one line that was read.
fn next_place(all: line_totals::Totals, tight: line_totals::TightLines) -> Place
    ensures { result ≡ next_place all tight }
{
    let at = BitPosition(all.bits);
    Place {
        at,
        tight: tight.lines == 1,
        long: all.long,
    }
}

// All lines of a block, each kept as soon as it is read.
fn read_kept(
    block: &[u8],
    bases: &[u8],
    lines: &mut [u16],
    rs: &mut [Record],
    set: &mut [u16],
    form: Form,
    count: usize,
) -> Walked
    requires block_len_bound { (length block.now < 2 ^ 32) × ScratchOf form.xtrans lines.old rs.old }
    requires depth { Depth form.bits × ((count < 2 ^ 16) × (length set.old ≡ set_size (width_of form.xtrans) count)) }
    ensures walked { IsWalked form bases.now block.now count result }
    ensures set_after { let n = lines_read form bases.now block.now count in
        set.new ≡ put_over set.old 0 (set_with form bases.now n block.now) }
{
    let w = width(form.xtrans);
    let places = image_map::xtrans_places();
    let showing = Showing {
        xtrans: form.xtrans,
        places: &places,
        tile: [0u8; 36],
        part: read_block::no_part(),
    };
    let mut nothing = [0u16; 1];
    let mut place = read_block::start_place();
    let mut tight = line_totals::TightLines {
        lines: 0,
        totals: line_totals::none(),
    };
    let mut all = line_totals::none();
    colour_lines::clear(lines);
    start_records(rs, form.bits, cameras::base_of(bases, 0));
    for n in 0..count {
        let got = read_lines(
            block,
            bases,
            lines,
            rs,
            &mut nothing,
            form.bits,
            &showing,
            n,
            place,
            1,
            false,
            &cameras::no_entries(),
        );
        let Ok((more, clean)) = got else {
            return got;
        };
        keep_line(lines, w, n, set);
        place = next_place(more, clean);
        tight = line_totals::with_line(tight, n, place.tight, more);
        all = more;
    }
    Ok((all, tight))
}

fn read_in(
    d: &[u8],
    h: FujiHeader,
    b: usize,
    set: &mut [u16],
    lines: &mut [u16],
    rs: &mut [Record],
) -> Walked
    requires d_value { open_of d.now ≡ Ok h }
    requires scratch_of { ScratchOf h.xtrans lines.old rs.old × (length set.old ≡ set_size (width_of h.xtrans) h.lines) }
    ensures walked { IsWalked (form_of h) (bases_in d.now b) (bytes_in d.now b) h.lines result }
    ensures set_after { let n = lines_read (form_of h) (bases_in d.now b) (bytes_in d.now b) h.lines in
        set.new ≡ put_over set.old 0 (set_with (form_of h) (bases_in d.now b) n (bytes_in d.now b)) }
    ensures lines_after { (lines.new ≡ zero_lines (width_of h.xtrans)) × (rs.new ≡ clear_records) }
{
    let form = form_of(h);
    let count = line_count(h);
    let block = stream::block_bytes(d, b);
    let bases = stream::base_row(d, b);
    let got = read_kept(block, bases, lines, rs, set, form, count);
    colour_lines::clear(lines);
    clear_records(rs);
    got
}

// Refusals 1 to 5, then 9 for a set of another size, then 10.
fn set_begins(
    d: &[u8],
    b: usize,
    count: usize,
    samples: usize,
    records: usize,
) -> Result<FujiHeader, Refusal>
    ensures { result ≡ set_begins d.now b count samples records }
{
    let h = stream::open(d)?;
    if (h.blocks as usize) <= b {
        return Err(Refusal::NoBlock);
    }
    if count != set_size(h) {
        return Err(Refusal::WrongCount);
    }
    admission::with_scratch(h, samples, records)
}

// The set of block b of the stream d, lossless or lossy. A truncated line and those after it leave their part of the set as it was.
pub fn read_set(
    d: &[u8],
    b: usize,
    set: &mut [u16],
    lines: &mut [u16],
    rs: &mut [Record],
) -> Counted
    ensures { let before : Sets = record { set = set.old; lines = lines.old; records = rs.old } in
        let after : Sets = record { set = set.new; lines = lines.new; records = rs.new } in
        LeftSet d.now b (set_begins d.now b (length before.set) (length before.lines) (length before.records))
        before after result }
{
    let begins = set_begins(d, b, set.len(), lines.len(), rs.len());
    match begins {
        Err(x) => read_block::refused(x),
        Ok(h) => {
            let used = admission::samples_needed(h.xtrans);
            let got = read_in(d, h, b, set, &mut lines[0..used], &mut rs[0..336]);
            read_block::read_answer(b, got)
        }
    }
}
