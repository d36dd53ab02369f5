// How a block is shown.
ghost use Rattle.image_map.specs.Inside.{ArePlaces};

use crate::Part;

// How a block is shown: whether its picture is X-Trans, the table of X-Trans places, the colours of the tile, and the part
// of the image that the block fills.
#[derive(Clone, Copy)]
pub struct Showing<'a> {
    pub xtrans: bool,
    pub places: &'a [u16; 768],
    pub tile: [u8; 36],
    pub part: Part,
    pub ghost are_places: { ArePlaces places.now },
}
