// Decoding with scratch of its own, for whoever has none to lend.
ghost use Rattle.std.specs.Prelude.{length};
ghost use Rattle.read_block.specs.Images.{LeftImage};
ghost use Rattle.admission.specs.Beginnings.{region_begins};

use image_region::Rect;
use read_block::{cleared, decode_region};
use stream::Refusal;

// `decode_region` with scratch of its own, for whoever has none to lend.
pub fn decode_region_alone(
    d: &[u8],
    r: Rect,
    tile: [u8; 36],
    image: &mut [u16],
) -> Result<(), Refusal>
    ensures { let begins = region_begins d.now r (length image.old) 9252 336 in
        LeftImage d.now r tile begins image.old image.new result }
{
    let mut lines = [0u16; 9252];
    let mut rs = [cleared(); 336];
    decode_region(d, r, tile, image, &mut lines, &mut rs)
}
