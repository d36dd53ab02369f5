// How a call that goes on in a block begins.
ghost use Rattle.std.specs.Prelude.{◌≡◌, Ok};
ghost use Rattle.admission.specs.Resumings.{with_resumed, resume_begins};

use image_region::Rect;
use stream::{FujiHeader, Refusal};

// Refusal 5 comes before those of the region.
fn resume_in(
    h: FujiHeader,
    b: usize,
    r: Rect,
    image: usize,
    samples: usize,
    records: usize,
) -> Result<Option<FujiHeader>, Refusal>
    ensures { result ≡ with_resumed (Ok h) b r image samples records }
{
    let blocks = h.blocks as usize;
    if b < blocks {
        return crate::region_in(h, r, image, samples, records);
    }
    Err(Refusal::NoBlock)
}

// Going on in block b of the stream d, to fill a region.
pub fn resume_begins(
    d: &[u8],
    b: usize,
    r: Rect,
    image: usize,
    samples: usize,
    records: usize,
) -> Result<Option<FujiHeader>, Refusal>
    ensures { result ≡ resume_begins d.now b r image samples records }
{
    let h = stream::open(d)?;
    resume_in(h, b, r, image, samples, records)
}
