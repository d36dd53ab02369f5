// Document 01, Map: where a sample of the image is in the colour lines, and how a line's rows reach the image.
#![tactic(auto)]

ghost use Rattle.std.specs.Prelude.{◌≡◌, ◌≤◌, ◌<◌};
ghost use Rattle.image_map.specs.Places.{width_of, place_in, colour_line};
ghost use Rattle.image_map.specs.Inside.{ArePlaces};

use places::XTRANS_PLACES;

mod emit;
mod one_row;
mod places;
mod row_samples;
mod showing;
mod zero_rows;

pub use row_samples::RowSamples;
pub use showing::Showing;

// The samples of a colour line.
pub fn width(xtrans: bool) -> usize
    ensures { result ≡ width_of xtrans }
{
    if xtrans { 512 } else { 384 }
}

// The part of an image that a block fills: its columns left to right go to columns start onward of rows that are stride samples long. The
// rows top to bottom of the whole picture are there.
#[derive(Clone, Copy)]
pub struct Part {
    pub left: usize,
    pub right: usize,
    pub start: usize,
    pub stride: usize,
    pub top: usize,
    pub bottom: usize,
}

// The table, to be bound once and lent: a constant array is built anew at each use.
pub fn xtrans_places() -> [u16; 768]
    ensures { ArePlaces result }
{
    XTRANS_PLACES
}

#[tactic(auto, unfolding(crate::specs::Places::place_in))]
pub fn place_in(xtrans: bool, places: &[u16; 768], p: usize) -> usize
    requires { (p < 768) × ArePlaces places.now }
    ensures { result ≡ place_in xtrans p }
{
    if xtrans {
        return usize::from(places[p]);
    }
    p / 2
}

pub fn colour_line(t: u8, r: usize) -> usize
    requires { r < 6 }
    ensures { (result ≡ colour_line t r) × (result ≤ 17) }
{
    if t == 0 {
        return 2 + r / 2;
    }
    if t == 2 {
        return 15 + r / 2;
    }
    7 + r
}
