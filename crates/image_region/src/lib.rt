// Document 01, Region: which regions are refused, and which blocks, lines and columns the others touch.
#![tactic(auto)]

ghost use Rattle.std.specs.Prelude.{◌≡◌, ◌^◌, ◌≤◌, ◌<◌};
ghost use Rattle.image_region.specs.Regions.{saturated, right_of, bottom_of, is_outside, is_empty, span_of, checked_of};
ghost use Rattle.image_region.specs.Inside.{part_in};

use image_map::Part;
use stream::{FujiHeader, Refusal};

// A region: its first column and row, and its size.
#[derive(Clone, Copy)]
pub struct Rect {
    pub x: usize,
    pub y: usize,
    pub width: usize,
    pub height: usize,
}

// What a region needs: the blocks first to last, and the first lines of each.
#[derive(Clone, Copy)]
pub struct Span {
    pub first: usize,
    pub last: usize,
    pub lines: usize,
}

impl Rect {
    // The first column that is not the region's.
    pub fn right(self) -> usize
        ensures { result ≡ right_of self }
    {
        self.x.saturating_add(self.width)
    }

    // The first row that is not the region's.
    pub fn bottom(self) -> usize
        ensures { result ≡ bottom_of self }
    {
        self.y.saturating_add(self.height)
    }
}

fn is_empty(r: Rect) -> bool
    ensures { result ≡ is_empty r }
{
    (r.width == 0) | (r.height == 0)
}

// Whether the region passes the picture's edge, or the image is too short for it.
fn is_outside(h: FujiHeader, r: Rect, image_length: usize) -> bool
    ensures { result ≡ is_outside h r image_length }
{
    let columns = h.width as usize;
    let rows = h.height as usize;
    let width = r.width;
    let height = r.height;
    if columns < r.right() {
        return true;
    }
    if rows < r.bottom() {
        return true;
    }
    // The product fits: each side is at most the picture's, which is a u32.
    image_length < width * height
}

// The blocks and lines of a region that is not empty.
#[tactic(auto, unfolding(crate::specs::Regions::span_of))]
pub fn span_of(r: Rect) -> Span
    requires { (1 ≤ r.width) × (1 ≤ r.height) }
    ensures { result ≡ span_of r }
{
    let right = r.right();
    let bottom = r.bottom();
    Span {
        first: r.x / 768,
        last: (right - 1) / 768,
        lines: (bottom - 1) / 6 + 1,
    }
}

// Refusal 7, or what the region needs of the picture with this header; None where it is empty, and nothing is to be done. The image is to hold the
// region alone.
pub fn check(h: FujiHeader, r: Rect, image_length: usize) -> Result<Option<Span>, Refusal>
    ensures { result ≡ checked_of h r image_length }
{
    if is_outside(h, r, image_length) {
        return Err(Refusal::OutsideImage);
    }
    if is_empty(r) {
        return Ok(None);
    }
    Ok(Some(span_of(r)))
}

// The part of the region's image that block b fills.
#[tactic(auto, unfolding(crate::specs::Inside::part_in))]
pub fn part(r: Rect, b: usize) -> Part
    requires { b < 2 ^ 32 }
    ensures { result ≡ part_in r b }
{
    let x = r.x;
    let first = 768 * b;
    Part {
        left: x.saturating_sub(first),
        right: r.right().saturating_sub(first).min(768),
        start: first.saturating_sub(x),
        stride: r.width,
        top: r.y,
        bottom: r.bottom(),
    }
}
