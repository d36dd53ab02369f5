// Document 01, Tight block, and Items 2, 4 and 5: a set of colour lines becomes a block, tight if lossless, or is only measured.
#![tactic(auto)]

ghost use Rattle.std.specs.Prelude.{◌≡◌, true, false, [], ◌+◌, ◌*◌, ◌^◌, ◌≤◌, ◌<◌, length, None};
ghost use Rattle.colour_lines.specs.ColourLines.{zero_lines};
ghost use Rattle.image_map.specs.Places.{width_of};
ghost use Rattle.pass_steps.specs.Values.{quantisers_of};
ghost use Rattle.pass_steps.specs.Contexts.{Depth};
ghost use Rattle.quantiser.specs.Quantisers.{largest};
ghost use Rattle.colour_lines.specs.Sets.{line_size, set_size};
ghost use Rattle.write_pass.specs.Puts.{Room, Within};
ghost use Rattle.read_block.specs.Records.{clear_records};
ghost use Rattle.read_block.specs.Walks.{AllInRange};
ghost use Rattle.admission.specs.Inside.{FitsOn};
ghost use Rattle.admission.specs.Writings.{writing_begins, lossy_begins};
ghost use Rattle.read_block.specs.Lent.{Outputs, Scratch};
ghost use Rattle.read_block.specs.Inside.{ScratchOf};
ghost use Rattle.write_block.specs.WrittenBlocks.{is_strict, write_lines, written_block};
ghost use Rattle.write_block.specs.Inside.{SetWanted};
ghost use Rattle.write_block.specs.WrittenAnswers.{measured_answer, set_answer};
ghost use Rattle.write_block.specs.WrittenAnswers.{LeftWritten, LeftLossy, LeftMeasured};
ghost use Rattle.write_block.specs.WriterParts.{passes_from, LineWritten, SetWritten, room_for, output_of, RightPasses, Storable, Stored, LeftBy};

use admission::first_above;
use bits::BitPosition;
use cameras::base_of;
use counted::Next;
use image_map::width;
use pass_steps::Quantisers;
use read_block::{
    Form, clear_records, form_of, is_restarted, line_count, load_set, quantisers_of, restart_main,
    start_records, store_set,
};
use statistics::Record;
use stream::{FujiHeader, Refusal};

mod counted;

// A lossless block has no bases, and its set is held to the predictions of interpolated samples. So `strict` is a fact of the stream, as in the
// definitions: no step to run.
fn is_strict(bases: &[u8]) -> bool
    ensures { result ≡ is_strict bases.now }
{
    bases.len() == 0
}

// Line n: six passes, each on the records of its set.
fn write_line(
    samples: &[u16],
    n: usize,
    out: &mut [u8],
    store: bool,
    from: BitPosition,
    lines: &mut [u16],
    rs: &mut [Record],
    form: Form,
    qs: Quantisers,
    strict: bool,
) -> Result<BitPosition, usize>
    requires n_bound { (n < 2 ^ 16) × (((n + 1) * line_size (width_of form.xtrans) ≤ length samples.now) × SetWanted form samples.now) }
    requires depth { Depth form.bits × ScratchOf form.xtrans lines.old rs.old }
    requires within { Within (largest form.bits) lines.old × AllInRange rs.old }
    requires from_bound { (from.0 < 2 ^ 58) × Room store out.old from.0 (passes_from form qs.base strict samples.now n 6 lines.old rs.old).bits }
    requires base_bound { (qs.base < 256) × (qs ≡ quantisers_of form.bits qs.base) }
    ensures fact { let written = passes_from form qs.base strict samples.now n 6 lines.old rs.old in
        LineWritten written from.0 store out.old lines.new rs.new out.new result }
    ensures all_in_range { AllInRange rs.new }
{
    let bits = form.bits;
    let xtrans = form.xtrans;
    let w = width(xtrans);
    let mut at = from;
    for i in 0..6 {
        let p = pass_schedule::plan_at(i, xtrans);
        colour_lines::set_guards(lines, w, p.first);
        colour_lines::set_guards(lines, w, p.second);
        let set = load_set(rs, p.set);
        let done = write_pass::write_pass(
            samples, n, out, store, at, lines, set, w, p, qs, bits, strict,
        )?;
        let new = done.set;
        store_set(rs, p.set, new);
        at = done.at;
    }
    Ok(at)
}

// All lines of a set. Scratch is left as it is then.
fn write_lines(
    samples: &[u16],
    out: &mut [u8],
    store: bool,
    lines: &mut [u16],
    rs: &mut [Record],
    form: Form,
    bases: &[u8],
    count: usize,
) -> Result<BitPosition, usize>
    requires count_bound { (count < 2 ^ 16) × ((length samples.now ≡ set_size (width_of form.xtrans) count) × SetWanted form samples.now) }
    requires depth { Depth form.bits × ScratchOf form.xtrans lines.old rs.old }
    requires room { Room store out.old 0 (write_lines form bases.now samples.now count).bits }
    ensures { SetWritten (write_lines form bases.now samples.now count) store out.old out.new result }
{
    let bits = form.bits;
    let w = width(form.xtrans);
    let strict = is_strict(bases);
    colour_lines::clear(lines);
    start_records(rs, bits, base_of(bases, 0));
    let mut at = BitPosition(0);
    for n in 0..count {
        colour_lines::turn(lines, w);
        let base = base_of(bases, n);
        if is_restarted(bases, n) {
            restart_main(rs, bits, base);
        }
        at = write_line(
            samples,
            n,
            out,
            store,
            at,
            lines,
            rs,
            form,
            quantisers_of(bits, base),
            strict,
        )?;
    }
    Ok(at)
}

// A walk over a set: its bits are counted, or stored too. Scratch is cleared afterwards, whatever it held before.
fn write_walk(
    samples: &[u16],
    out: &mut [u8],
    store: bool,
    lines: &mut [u16],
    rs: &mut [Record],
    form: Form,
    bases: &[u8],
    count: usize,
) -> Result<BitPosition, usize>
    requires count_bound { (count < 2 ^ 16) × ((length samples.now ≡ set_size (width_of form.xtrans) count) × SetWanted form samples.now) }
    requires depth { Depth form.bits × ScratchOf form.xtrans lines.old rs.old }
    requires room { Room store out.old 0 (write_lines form bases.now samples.now count).bits }
    ensures set_written { SetWritten (write_lines form bases.now samples.now count) store out.old out.new result }
    ensures lines_after { (lines.new ≡ zero_lines (width_of form.xtrans)) × (rs.new ≡ clear_records) }
{
    let done = write_lines(samples, out, store, lines, rs, form, bases, count);
    colour_lines::clear(lines);
    clear_records(rs);
    done
}

// Line n of a lossless set: whether its interpolated samples are their predictions.
fn look_line(samples: &[u16], n: usize, lines: &mut [u16], form: Form) -> bool
    requires n_bound { (n < 2 ^ 16) × (((n + 1) * line_size (width_of form.xtrans) ≤ length samples.now) × SetWanted form samples.now) }
    requires depth { Depth form.bits × ((length lines.old ≡ 18 * (width_of form.xtrans + 2)) × Within (largest form.bits) lines.old) }
    ensures { result ≡ true → RightPasses form samples.now n 6 lines.old lines.new }
{
    let bits = form.bits;
    let xtrans = form.xtrans;
    let w = width(xtrans);
    for i in 0..6 {
        let p = pass_schedule::plan_at(i, xtrans);
        colour_lines::set_guards(lines, w, p.first);
        colour_lines::set_guards(lines, w, p.second);
        if !write_pass::look_pass(samples, n, lines, w, p, bits) {
            return false;
        }
    }
    true
}

// All lines.
fn look_lines(samples: &[u16], lines: &mut [u16], form: Form, count: usize) -> bool
    requires count_bound { (count < 2 ^ 16) × ((length samples.now ≡ set_size (width_of form.xtrans) count) × SetWanted form samples.now) }
    requires depth { Depth form.bits × (length lines.old ≡ 18 * (width_of form.xtrans + 2)) }
    ensures { result ≡ true → (write_lines form [] samples.now count).wrong ≡ None }
{
    let w = width(form.xtrans);
    colour_lines::clear(lines);
    for n in 0..count {
        colour_lines::turn(lines, w);
        if !look_line(samples, n, lines, form) {
            return false;
        }
    }
    true
}

// Whether no sample of a set is wrong. Bayer has codes alone, and only a set without bases is held to predictions: so only lossless X-Trans sets are
// looked at.
fn is_right(samples: &[u16], lines: &mut [u16], form: Form, bases: &[u8], count: usize) -> bool
    requires count_bound { (count < 2 ^ 16) × ((length samples.now ≡ set_size (width_of form.xtrans) count) × SetWanted form samples.now) }
    requires depth { Depth form.bits × (length lines.old ≡ 18 * (width_of form.xtrans + 2)) }
    ensures { result ≡ true → (write_lines form bases.now samples.now count).wrong ≡ None }
{
    if form.xtrans & is_strict(bases) {
        return look_lines(samples, lines, form, count);
    }
    true
}

// Whether nothing of a set can be refused any more, so that its bits need not be counted before they are stored. Where it is not, the walk that counts says
// what is refused.
fn is_sure(
    samples: &[u16],
    lines: &mut [u16],
    form: Form,
    bases: &[u8],
    count: usize,
    measure: bool,
    room: usize,
) -> bool
    requires count_bound { (count < 2 ^ 16) × ((length samples.now ≡ set_size (width_of form.xtrans) count) × SetWanted form samples.now) }
    requires depth { Depth form.bits × (length lines.old ≡ 18 * (width_of form.xtrans + 2)) }
    ensures { result ≡ true → (measure ≡ false) × Storable form bases.now count samples.now room }
{
    if counted::is_ample(measure, form.bits, count, room) {
        return is_right(samples, lines, form, bases, count);
    }
    false
}

// A set of which no sample is wrong, and whose block the output has room for: its bits are stored.
fn write_stored(
    samples: &[u16],
    out: &mut [u8],
    lines: &mut [u16],
    rs: &mut [Record],
    form: Form,
    bases: &[u8],
    count: usize,
) -> Result<usize, Refusal>
    requires count_bound { (count < 2 ^ 16) × ((length samples.now ≡ set_size (width_of form.xtrans) count) × SetWanted form samples.now) }
    requires depth { Depth form.bits × ScratchOf form.xtrans lines.old rs.old }
    requires storable { Storable form bases.now count samples.now (length out.old) }
    ensures stored { Stored (written_block form bases.now count samples.now) out.old out.new result }
    ensures lines_after { (lines.new ≡ zero_lines (width_of form.xtrans)) × (rs.new ≡ clear_records) }
{
    let done = write_walk(samples, out, true, lines, rs, form, bases, count);
    match done {
        Err(j) => Err(Refusal::NotPredicted(j)),
        Ok(end) => {
            bits::fill_tail(out, end);
            Ok(counted::block_bytes(end))
        }
    }
}

// A set whose samples with a code are in range. Its bits are stored at once where nothing can be refused any more; else they are counted first, and
// stored only where they can be and are to be.
fn write_measured(
    samples: &[u16],
    out: &mut [u8],
    measure: bool,
    lines: &mut [u16],
    rs: &mut [Record],
    form: Form,
    bases: &[u8],
    count: usize,
) -> Result<usize, Refusal>
    requires count_bound { (count < 2 ^ 16) × ((length samples.now ≡ set_size (width_of form.xtrans) count) × SetWanted form samples.now) }
    requires depth { Depth form.bits × ScratchOf form.xtrans lines.old rs.old }
    ensures fact { let block = written_block form bases.now count samples.now in
        (result ≡ measured_answer form bases.now count samples.now (room_for measure block out.old))
        × (out.new ≡ output_of measure result block out.old) }
    ensures lines_after { (lines.new ≡ zero_lines (width_of form.xtrans)) × (rs.new ≡ clear_records) }
{
    if is_sure(samples, lines, form, bases, count, measure, out.len()) {
        return write_stored(samples, out, lines, rs, form, bases, count);
    }
    let counted = write_walk(samples, out, false, lines, rs, form, bases, count);
    let next = counted::after_counting(counted, measure, out.len());
    match next {
        Next::Answer(a) => a,
        Next::Store(_) => write_stored(samples, out, lines, rs, form, bases, count),
    }
}

// A set of the right size. Its samples are looked at first: all of them, or with bases those that have a code.
fn write_set(
    samples: &[u16],
    out: &mut [u8],
    measure: bool,
    lines: &mut [u16],
    rs: &mut [Record],
    form: Form,
    bases: &[u8],
    count: usize,
) -> Result<usize, Refusal>
    requires count_bound { (count < 2 ^ 16) × (length samples.now ≡ set_size (width_of form.xtrans) count) }
    requires depth { Depth form.bits × ScratchOf form.xtrans lines.old rs.old }
    ensures fact { let block = written_block form bases.now count samples.now in
        (result ≡ set_answer form bases.now count samples.now (room_for measure block out.old))
        × (out.new ≡ output_of measure result block out.old) }
    ensures lines_after { (lines.new ≡ zero_lines (width_of form.xtrans)) × (rs.new ≡ clear_records) }
{
    let m = quantiser::largest(form.bits);
    if let Some(i) = first_above(samples, m, form.xtrans, is_strict(bases)) {
        colour_lines::clear(lines);
        clear_records(rs);
        return Err(Refusal::AboveLargest(i));
    }
    write_measured(samples, out, measure, lines, rs, form, bases, count)
}

// Writing with bases, without and measuring are one call, which goes on the first part of the lent scratch.
fn write_in(
    begins: Result<FujiHeader, Refusal>,
    bases: &[u8],
    samples: &[u16],
    out: &mut [u8],
    measure: bool,
    lines: &mut [u16],
    rs: &mut [Record],
) -> Result<usize, Refusal>
    requires { FitsOn begins (length samples.now) (length lines.old) (length rs.old) }
    ensures { let before : Outputs = record { out = out.old; lines = lines.old; records = rs.old } in
        let after : Outputs = record { out = out.new; lines = lines.new; records = rs.new } in
        LeftBy measure bases.now samples.now begins before after result }
{
    let h = begins?;
    let used = admission::samples_needed(h.xtrans);
    let form = form_of(h);
    let count = line_count(h);
    write_set(
        samples,
        out,
        measure,
        &mut lines[0..used],
        &mut rs[0..336],
        form,
        bases,
        count,
    )
}

// The writer: the tight block of a set of colour lines goes to the start of the output, and the answer is its length. Of the header the first
// 16 bytes count, and of the lent scratch only the first part is used. A refused call leaves the output as it was.
pub fn write_block(
    header: &[u8],
    samples: &[u16],
    out: &mut [u8],
    lines: &mut [u16],
    rs: &mut [Record],
) -> Result<usize, Refusal>
    ensures { let t = samples.now in
        let before : Outputs = record { out = out.old; lines = lines.old; records = rs.old } in
        let after : Outputs = record { out = out.new; lines = lines.new; records = rs.new } in
        LeftWritten t (writing_begins header.now (length t) (length before.lines) (length before.records)) before after result }
{
    let begins = admission::writing_begins(header, samples.len(), lines.len(), rs.len());
    write_in(begins, &header[0..0], samples, out, false, lines, rs)
}

// The lossy writer: one base for each line of six rows, and samples at interpolated positions are ignored. Else it is as the writer.
pub fn write_lossy(
    header: &[u8],
    bases: &[u8],
    samples: &[u16],
    out: &mut [u8],
    lines: &mut [u16],
    rs: &mut [Record],
) -> Result<usize, Refusal>
    ensures { let s = bases.now in
        let t = samples.now in
        let before : Outputs = record { out = out.old; lines = lines.old; records = rs.old } in
        let after : Outputs = record { out = out.new; lines = lines.new; records = rs.new } in
        let begins = lossy_begins header.now (length s) (length t) (length before.lines) (length before.records) in
        LeftLossy s t begins before after result }
{
    let begins = admission::lossy_begins(header, bases.len(), samples.len(), lines.len(), rs.len());
    write_in(begins, bases, samples, out, false, lines, rs)
}

// The length that the writer would answer, with no output to write to: refused as the writer refuses, but never for a short output.
pub fn measure_block(
    header: &[u8],
    samples: &[u16],
    lines: &mut [u16],
    rs: &mut [Record],
) -> Result<usize, Refusal>
    ensures { let t = samples.now in
        let before : Scratch = record { lines = lines.old; records = rs.old } in
        let after : Scratch = record { lines = lines.new; records = rs.new } in
        LeftMeasured t (writing_begins header.now (length t) (length before.lines) (length before.records)) before after result }
{
    let mut nothing = [0u8; 1];
    let begins = admission::writing_begins(header, samples.len(), lines.len(), rs.len());
    write_in(
        begins,
        &header[0..0],
        samples,
        &mut nothing,
        true,
        lines,
        rs,
    )
}
