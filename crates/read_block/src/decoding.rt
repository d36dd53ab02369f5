// Decoding: a region, or the whole picture, block by block.
ghost use Rattle.std.specs.Prelude.{◌≡◌, ◌+◌, ◌-◌, length, Ok};
ghost use Rattle.read_block.specs.Records.{clear_records};
ghost use Rattle.read_block.specs.Images.{or_else, answer_of, Left};
ghost use Rattle.read_block.specs.Inside.{walked_answer};
ghost use Rattle.read_block.specs.Lent.{Buffers};
ghost use Rattle.read_block.specs.WindowedImages.{LeftWindowed};
ghost use Rattle.read_block.specs.WindowedLines.{ScratchIn, zeros_in, PicturedIn};
ghost use Rattle.stream.specs.Streams.{open_of};
ghost use Rattle.image_region.specs.Regions.{first_block, last_block};
ghost use Rattle.image_region.specs.Inside.{Accepted};
ghost use Rattle.admission.specs.Beginnings.{region_begins, windowed_begins, whole_of, image_begins};

use crate::Walked;
use crate::reading::walk;
use image_map::Showing;
use image_region::Rect;
use statistics::Record;
use stream::{FujiHeader, Refusal};

// The answer after block b: that of the blocks before it, if one of them failed.
pub(crate) fn judged(before: Result<(), Refusal>, b: usize, got: Walked) -> Result<(), Refusal>
    ensures { result ≡ or_else before (walked_answer b got) }
{
    before?;
    match got {
        Ok(_) => Ok(()),
        Err((n, _)) => Err(Refusal::Truncated(b, n)),
    }
}

// The blocks that the region touches, each put into the image. All are tried.
fn decode_blocks(
    d: &[u8],
    h: FujiHeader,
    r: Rect,
    tile: [u8; 36],
    image: &mut [u16],
    lines: &mut [u16],
    rs: &mut [Record],
    windowed: bool,
) -> Result<(), Refusal>
    requires d_value { (open_of d.now ≡ Ok h) × Accepted h r (length image.old) }
    requires scratch_in { ScratchIn windowed h.xtrans lines.old rs.old }
    ensures value { (result ≡ answer_of d.now h r (last_block r + 1 - first_block r))
        × PicturedIn windowed d.now h r tile (last_block r + 1) image.old image.new }
    ensures lines_after { (lines.new ≡ zeros_in windowed h.xtrans) × (rs.new ≡ clear_records) }
{
    let span = image_region::span_of(r);
    let count = span.lines;
    let end = span.last + 1;
    let places = image_map::xtrans_places();
    let mut answer = Ok(());
    for b in span.first..end {
        let block = stream::block_bytes(d, b);
        let bases = stream::base_row(d, b);
        let part = image_region::part(r, b);
        let showing = Showing {
            xtrans: h.xtrans,
            places: &places,
            tile,
            part,
        };
        let got = walk(
            block,
            bases,
            lines,
            rs,
            image,
            h.bits,
            &showing,
            count,
            windowed,
            cameras::no_entries(),
        );
        answer = judged(answer, b, got);
    }
    answer
}

// Decodes a region of the stream d into an image that holds the region alone, row after row. Of the lent scratch only the first part is used.
// What the three calls have in common is `decode_blocks`: how they begin and what they promise differs.
pub fn decode_region(
    d: &[u8],
    r: Rect,
    tile: [u8; 36],
    image: &mut [u16],
    lines: &mut [u16],
    rs: &mut [Record],
) -> Result<(), Refusal>
    ensures { let before : Buffers = record { image = image.old; lines = lines.old; records = rs.old } in
        let after : Buffers = record { image = image.new; lines = lines.new; records = rs.new } in
        let begins = region_begins d.now r (length before.image) (length before.lines) (length before.records) in
        Left d.now r tile begins before after result }
{
    let Some(h) = admission::region_begins(d, r, image.len(), lines.len(), rs.len())? else {
        return Ok(());
    };
    let used = admission::samples_needed(h.xtrans);
    decode_blocks(
        d,
        h,
        r,
        tile,
        image,
        &mut lines[0..used],
        &mut rs[0..336],
        false,
    )
}

// `decode_region` in windows: of each colour only three lines are kept, so that half the samples of scratch are enough. A truncated line's rows
// become 0.
pub fn decode_region_windowed(
    d: &[u8],
    r: Rect,
    tile: [u8; 36],
    image: &mut [u16],
    lines: &mut [u16],
    rs: &mut [Record],
) -> Result<(), Refusal>
    ensures { let before : Buffers = record { image = image.old; lines = lines.old; records = rs.old } in
        let after : Buffers = record { image = image.new; lines = lines.new; records = rs.new } in
        let begins = windowed_begins d.now r (length before.image) (length before.lines) (length before.records) in
        LeftWindowed d.now r tile begins before after result }
{
    let Some(h) = admission::windowed_begins(d, r, image.len(), lines.len(), rs.len())? else {
        return Ok(());
    };
    let used = admission::window_samples(h.xtrans);
    decode_blocks(
        d,
        h,
        r,
        tile,
        image,
        &mut lines[0..used],
        &mut rs[0..336],
        true,
    )
}

// Decodes the whole picture of the stream d, whose size the caller names.
pub fn decode(
    d: &[u8],
    width: usize,
    height: usize,
    tile: [u8; 36],
    image: &mut [u16],
    lines: &mut [u16],
    rs: &mut [Record],
) -> Result<(), Refusal>
    ensures { let before : Buffers = record { image = image.old; lines = lines.old; records = rs.old } in
        let after : Buffers = record { image = image.new; lines = lines.new; records = rs.new } in
        let begins = image_begins d.now width height (length before.image) (length before.lines) (length before.records) in
        Left d.now (whole_of width height) tile begins before after result }
{
    let Some(h) = admission::image_begins(d, width, height, image.len(), lines.len(), rs.len())?
    else {
        return Ok(());
    };
    let r = admission::whole(width, height);
    let used = admission::samples_needed(h.xtrans);
    decode_blocks(
        d,
        h,
        r,
        tile,
        image,
        &mut lines[0..used],
        &mut rs[0..336],
        false,
    )
}
