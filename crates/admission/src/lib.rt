// Document 01, Refusals in checking order: how each call begins, judged from the stream and the sizes of what is lent before any buffer is
// touched.
#![tactic(auto)]

ghost use Rattle.std.specs.Prelude.{◌≡◌, ◌+◌, ◌*◌, ◌^◌, ◌≤◌, ◌<◌};
ghost use Rattle.image_region.specs.Regions.{checked_of};
ghost use Rattle.image_map.specs.Places.{width_of};
ghost use Rattle.admission.specs.Beginnings.{samples_needed, is_short_scratch, with_scratch, with_region, region_begins};
ghost use Rattle.admission.specs.Beginnings.{whole_of, is_whole, with_size, image_begins, windowed_begins, with_block, block_begins};

use image_region::Rect;
use stream::{FujiHeader, Refusal};

mod largest;
mod resuming;
mod writing;

pub use largest::first_above;
pub use resuming::resume_begins;
pub use writing::{lossy_begins, set_size, writing_begins};

// The samples of the scratch that a call uses.
pub fn samples_needed(xtrans: bool) -> usize
    ensures { (result ≡ samples_needed xtrans) × (result ≤ 9252) }
{
    18 * (image_map::width(xtrans) + 2)
}

fn is_short_scratch(xtrans: bool, samples: usize, records: usize) -> bool
    ensures { result ≡ is_short_scratch xtrans samples records }
{
    limits::is_short(samples, samples_needed(xtrans)) | limits::is_short(records, 336)
}

// Refusal 10, which comes last.
pub fn with_scratch(h: FujiHeader, samples: usize, records: usize) -> Result<FujiHeader, Refusal>
    ensures { result ≡ with_scratch h samples records }
{
    if is_short_scratch(h.xtrans, samples, records) {
        return Err(Refusal::ShortScratch);
    }
    Ok(h)
}

// ---- decoding

// How decoding begins: a refusal; None where the region is empty and there is nothing to do; or the header of the stream that is read. Refusal 7
// and the empty region come first.
pub fn region_in(
    h: FujiHeader,
    r: Rect,
    image: usize,
    samples: usize,
    records: usize,
) -> Result<Option<FujiHeader>, Refusal>
    ensures { result ≡ with_region h (checked_of h r image) samples records }
{
    match image_region::check(h, r, image)? {
        None => Ok(None),
        Some(_) => Ok(Some(with_scratch(h, samples, records)?)),
    }
}

// A region of the stream d, with an image of so many samples, and scratch of so many samples and records.
pub fn region_begins(
    d: &[u8],
    r: Rect,
    image: usize,
    samples: usize,
    records: usize,
) -> Result<Option<FujiHeader>, Refusal>
    ensures { result ≡ region_begins d.now r image samples records }
{
    let h = stream::open(d)?;
    region_in(h, r, image, samples, records)
}

// The same with windows, which take half the samples.
pub fn windowed_begins(
    d: &[u8],
    r: Rect,
    image: usize,
    samples: usize,
    records: usize,
) -> Result<Option<FujiHeader>, Refusal>
    requires { samples < 2 ^ 62 }
    ensures { result ≡ windowed_begins d.now r image samples records }
{
    region_begins(d, r, image, 2 * samples, records)
}

// The samples that windows take.
pub fn window_samples(xtrans: bool) -> usize
    ensures { (result ≡ 9 * (width_of xtrans + 2)) × (result ≤ 4626) }
{
    9 * (image_map::width(xtrans) + 2)
}

// The whole picture as a region.
pub fn whole(width: usize, height: usize) -> Rect
    ensures { result ≡ whole_of width height }
{
    Rect {
        x: 0,
        y: 0,
        width,
        height,
    }
}

fn is_whole(h: FujiHeader, width: usize, height: usize) -> bool
    ensures { result ≡ is_whole h width height }
{
    limits::is_size(width, height, h.width as usize, h.height as usize)
}

fn image_in(
    h: FujiHeader,
    width: usize,
    height: usize,
    image: usize,
    samples: usize,
    records: usize,
) -> Result<Option<FujiHeader>, Refusal>
    ensures { result ≡ with_size h width height image samples records }
{
    if is_whole(h, width, height) {
        return region_in(h, whole(width, height), image, samples, records);
    }
    Err(Refusal::WrongSize)
}

// The whole picture of the stream d, whose size the caller names.
pub fn image_begins(
    d: &[u8],
    width: usize,
    height: usize,
    image: usize,
    samples: usize,
    records: usize,
) -> Result<Option<FujiHeader>, Refusal>
    ensures { result ≡ image_begins d.now width height image samples records }
{
    let h = stream::open(d)?;
    image_in(h, width, height, image, samples, records)
}

// ---- the reading of one block

fn block_in(
    h: FujiHeader,
    b: usize,
    tight: bool,
    samples: usize,
    records: usize,
) -> Result<FujiHeader, Refusal>
    ensures { result ≡ with_block tight h b samples records }
{
    let blocks = h.blocks as usize;
    let lossless = h.lossless;
    if blocks <= b {
        return Err(Refusal::NoBlock);
    }
    if tight & !lossless {
        return Err(Refusal::Lossy);
    }
    with_scratch(h, samples, records)
}

// The ordinary reading, or the tight one, of block b of the stream d.
pub fn block_begins(
    d: &[u8],
    b: usize,
    tight: bool,
    samples: usize,
    records: usize,
) -> Result<FujiHeader, Refusal>
    ensures { result ≡ block_begins tight d.now b samples records }
{
    let h = stream::open(d)?;
    block_in(h, b, tight, samples, records)
}
