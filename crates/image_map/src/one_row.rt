// One row of a line, from the colour lines to the image.
ghost use Rattle.std.specs.Prelude.{◌≡◌, ◌+◌, ◌-◌, ◌*◌, ◌%◌, ◌≤◌, ◌<◌, length};
ghost use Rattle.image_map.specs.Places.{width_of, colour_line};
ghost use Rattle.image_map.specs.Inside.{RowEmitted};
ghost use Rattle.image_map.specs.Starts.{AreStarts};

use crate::Showing;
use crate::row_samples::RowSamples;

// Where the colour line of a tile's entry t begins in row r, its guard passed; s is what a colour line takes.
fn line_start(t: u8, r: usize, s: usize) -> usize
    requires { (r < 6) × (s ≤ 514) }
    ensures { result ≡ colour_line t r * s + 1 }
{
    crate::colour_line(t, r) * s + 1
}

// Where the colour line of each column of the tile begins.
fn starts_of(tile: [u8; 36], r: usize, s: usize) -> [usize; 6]
    requires { (r < 6) × (s ≤ 514) }
    ensures { AreStarts tile r s result }
{
    let k = 6 * r;
    [
        line_start(tile[k], r, s),
        line_start(tile[k + 1], r, s),
        line_start(tile[k + 2], r, s),
        line_start(tile[k + 3], r, s),
        line_start(tile[k + 4], r, s),
        line_start(tile[k + 5], r, s),
    ]
}

// The column of the tile after c, counted on: a division by 6 would cost more than all else.
fn next_column(c: usize) -> usize
    requires { c < 6 }
    ensures { result ≡ (c + 1) % 6 }
{
    if c == 5 { 0 } else { c + 1 }
}

impl Showing<'_> {
    // Row r of a line, in the columns of the part, to the image from `at` on.
    pub(crate) fn emit_row(&self, lines: &[u16], image: &mut [u16], at: usize, r: usize)
        requires r_bound { (r < 6) × ((self.now.part.left ≤ self.now.part.right) × (self.now.part.right ≤ 768)) }
        requires in_bounds { (18 * (width_of self.now.xtrans + 2) ≤ length lines.now)
            × (at + (self.now.part.right - self.now.part.left) ≤ length image.old) }
        ensures { RowEmitted self.now.xtrans (width_of self.now.xtrans) self.now.tile lines.now r
            self.now.part.left self.now.part.right at image.old image.new }
    {
        let xtrans = self.xtrans;
        let left = self.part.left;
        let right = self.part.right;
        let w = crate::width(xtrans);
        let starts = starts_of(self.tile, r, w + 2);
        let row = RowSamples {
            lines,
            xtrans,
            places: self.places,
            starts,
        };

        // No `for`: the steps are six columns, where a whole tile begins, and else one.
        let mut column = left % 6;
        let mut p = left;
        while p < right {
            let i = at + (p - left);
            if (column == 0) & (p + 6 <= right) {
                row.emit_three(image, i, 0, p);
                row.emit_three(image, i + 3, 3, p + 3);
                p += 6;
            } else {
                row.emit_sample(image, i, column, p);
                column = next_column(column);
                p += 1;
            }
        }
    }
}
