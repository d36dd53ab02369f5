// Decoding for one of two cameras, which share 16 quantiser entries.
ghost use Rattle.std.specs.Prelude.{◌≡◌, length, false, Ok};
ghost use Rattle.stream.specs.Streams.{open_of};
ghost use Rattle.image_region.specs.Inside.{Accepted};
ghost use Rattle.cameras.specs.Entries.{mended, handed_back, AllNumbered};
ghost use Rattle.admission.specs.Beginnings.{region_begins};
ghost use Rattle.read_block.specs.Walks.{shown_lines};
ghost use Rattle.read_block.specs.Lent.{Buffers};
ghost use Rattle.read_block.specs.Records.{clear_records};
ghost use Rattle.read_block.specs.Sharing.{shared_answer, last_entries, PicturedShared, is_refused, LeftShared};
ghost use Rattle.read_block.specs.WindowedLines.{ScratchIn, zeros_in};

use crate::decoding::judged;
use crate::reading::walk;
use crate::{SharedAnswer, Walked};
use cameras::{Camera, Entries};
use image_map::Showing;
use image_region::Rect;
use statistics::Record;
use stream::{FujiHeader, Refusal};

// How many lines a walk over `count` of them has read.
fn lines_read(got: Walked, count: usize) -> usize
    ensures { result ≡ shown_lines got count }
{
    match got {
        Ok((_, _)) => count,
        Err((n, _)) => n,
    }
}

// What a call hands back with its answer.
fn handed_back(camera: Camera, entries: Entries, answer: Result<(), Refusal>) -> SharedAnswer
    ensures { (result.answer ≡ answer) × (result.entries.all ≡ handed_back camera (is_refused answer) entries.all) }
{
    match answer {
        Ok(()) => {
            let entries = cameras::handed_back(camera, entries, false);
            SharedAnswer { answer, entries }
        }
        Err(_) => {
            let entries = cameras::handed_back(camera, entries, true);
            SharedAnswer { answer, entries }
        }
    }
}

// The blocks that the region touches, until a line has no entry. Each line's entry is taken before its first bit: taking does not depend on what is
// read, so that the entries of a block's lines are found before the walk over it, and those of lines that it did not come to are left again.
fn decode_shared_blocks(
    camera: Camera,
    mut held: Entries,
    d: &[u8],
    h: FujiHeader,
    r: Rect,
    tile: [u8; 36],
    image: &mut [u16],
    lines: &mut [u16],
    rs: &mut [Record],
) -> SharedAnswer
    requires d_value { (open_of d.now ≡ Ok h) × Accepted h r (length image.old) }
    requires scratch_in { ScratchIn false h.xtrans lines.old rs.old × AllNumbered held.all }
    ensures answer_value { (result.answer ≡ shared_answer camera d.now h r held.all)
        × (result.entries.all ≡ last_entries camera d.now h r held.all) }
    ensures pictured_shared { PicturedShared camera d.now h r tile held.all image.old image.new }
    ensures lines_after { (lines.new ≡ zeros_in false h.xtrans) × (rs.new ≡ clear_records) }
{
    let span = image_region::span_of(r);
    let count = span.lines;
    let end = span.last + 1;
    let places = image_map::xtrans_places();
    let mut answer = Ok(());
    for b in span.first..end {
        let block = stream::block_bytes(d, b);
        let bases = stream::base_row(d, b);
        let part = image_region::part(r, b);
        let showing = Showing {
            xtrans: h.xtrans,
            places: &places,
            tile,
            part,
        };
        let took = cameras::take_lines(camera, held, h.bits, bases, count);
        let found = took.lines;
        let got = walk(
            block,
            bases,
            lines,
            rs,
            image,
            h.bits,
            &showing,
            found,
            false,
            took.entries,
        );
        let read = lines_read(got, found);
        held = cameras::after_block(camera, held, h.bits, bases, found, read);
        if cameras::is_stopped(read, found, count) {
            let answer = Err(Refusal::NoEntry(b, found));
            return SharedAnswer {
                answer,
                entries: held,
            };
        }
        answer = judged(answer, b, got);
    }
    SharedAnswer {
        answer,
        entries: held,
    }
}

// `decode_region` for one of two cameras: each line needs an entry for its depth and base.
pub fn decode_region_shared(
    camera: Camera,
    entries: Entries,
    d: &[u8],
    r: Rect,
    tile: [u8; 36],
    image: &mut [u16],
    lines: &mut [u16],
    rs: &mut [Record],
) -> SharedAnswer
    ensures { let before : Buffers = record { image = image.old; lines = lines.old; records = rs.old } in
        let after : Buffers = record { image = image.new; lines = lines.new; records = rs.new } in
        let begins = region_begins d.now r (length before.image) (length before.lines) (length before.records) in
        LeftShared camera d.now r tile begins entries.all before after result.answer result.entries.all }
{
    let begins = admission::region_begins(d, r, image.len(), lines.len(), rs.len());
    let sound = cameras::mended(entries);
    match begins {
        Err(x) => handed_back(camera, sound, Err(x)),
        Ok(begun) => {
            let Some(h) = begun else {
                return handed_back(camera, sound, Ok(()));
            };
            let used = admission::samples_needed(h.xtrans);
            let got = decode_shared_blocks(
                camera,
                sound,
                d,
                h,
                r,
                tile,
                image,
                &mut lines[0..used],
                &mut rs[0..336],
            );
            handed_back(camera, got.entries, got.answer)
        }
    }
}
