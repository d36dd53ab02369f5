// The lines of a block to the image: all rows of a line at once, or, where only the last three lines of each colour are kept, a colour line when its
// pass has ended.
ghost use Rattle.std.specs.Prelude.{true, ◌≡◌, ◌+◌, ◌-◌, ◌*◌, ◌%◌, ◌^◌, ◌≤◌, ◌<◌, length};
ghost use Rattle.image_map.specs.Places.{width_of};
ghost use Rattle.image_map.specs.Inside.{emitted_sample, Emitted, Fits};
ghost use Rattle.image_map.specs.Rows.{RowsPut};
ghost use Rattle.image_map.specs.Windows.{ColumnEmitted, CellEmitted, ColourEmitted, PassEmitted};

use crate::Showing;

// The first column from `left` on that stands in column c of the tile.
fn first_column(left: usize, c: usize) -> usize
    requires { (left ≤ 768) × (c < 6) }
    ensures { (result % 6 ≡ c) × ((left ≤ result) × (result < left + 6)) }
{
    left + (c + 6 - left % 6) % 6
}

impl Showing<'_> {
    // Row r of line n, if the part has it, into the image.
    fn emit_part_row(&self, lines: &[u16], image: &mut [u16], n: usize, r: usize)
        requires n_bound { (n < 2 ^ 16) × ((r < 6) × (18 * (width_of self.now.xtrans + 2) ≤ length lines.now)) }
        requires fits { Fits self.now.part image.old }
        ensures { RowsPut (emitted_sample self.now.xtrans (width_of self.now.xtrans) self.now.tile lines.now self.now.part)
            self.now.part (6 * n + r) (6 * n + r + 1) image.old image.new }
    {
        let top = self.part.top;
        let bottom = self.part.bottom;
        let start = self.part.start;
        let stride = self.part.stride;
        let row = 6 * n + r;
        if row < top {
            return;
        }
        if bottom <= row {
            return;
        }
        let at = (row - top) * stride + start;
        self.emit_row(lines, image, at, r);
    }

    // The rows of line n that the part has, into the image.
    pub fn emit_line(&self, lines: &[u16], image: &mut [u16], n: usize)
        requires n_bound { (n < 2 ^ 16) × (18 * (width_of self.now.xtrans + 2) ≤ length lines.now) }
        requires fits { Fits self.now.part image.old }
        ensures { Emitted self.now.xtrans (width_of self.now.xtrans) self.now.tile lines.now self.now.part n
            image.old image.new }
    {
        for r in 0..6 {
            self.emit_part_row(lines, image, n, r);
        }
    }

    // The columns of a row that stand in column c of the tile, from the colour line whose samples begin at `start`, to the
    // image's row from `at` on.
    fn emit_column(&self, lines: &[u16], image: &mut [u16], at: usize, start: usize, c: usize)
        requires c_bound { (c < 6) × ((self.now.part.left ≤ self.now.part.right) × (self.now.part.right ≤ 768)) }
        requires in_bounds { (start + width_of self.now.xtrans ≤ length lines.now)
            × (at + (self.now.part.right - self.now.part.left) ≤ length image.old) }
        ensures { ColumnEmitted self.now.xtrans lines.now start c self.now.part.left self.now.part.right at
            image.old image.new }
    {
        let xtrans = self.xtrans;
        let places = self.places;
        let left = self.part.left;
        let right = self.part.right;
        for p in (first_column(left, c)..right).step_by(6) {
            image[at + (p - left)] = lines[start + crate::place_in(xtrans, places, p)];
        }
    }

    // Cell k of the tile, in the rows of line n, if it shows colour line l, which stands in line `slot` of the windows.
    fn emit_cell(&self, lines: &[u16], image: &mut [u16], n: usize, k: usize, l: usize, slot: usize)
        requires n_bound { (n < 2 ^ 16)
            × ((k < 36) × ((slot ≤ 17) × ((slot + 1) * (width_of self.now.xtrans + 2) ≤ length lines.now))) }
        requires fits { Fits self.now.part image.old }
        ensures { CellEmitted self.now.xtrans (width_of self.now.xtrans) self.now.tile lines.now self.now.part n
            k l slot image.old image.new }
    {
        let r = k / 6;
        let shown = crate::colour_line(self.tile[k], r);
        if shown != l {
            return;
        }
        let top = self.part.top;
        let bottom = self.part.bottom;
        let start = self.part.start;
        let stride = self.part.stride;
        let row = 6 * n + r;
        if row < top {
            return;
        }
        if bottom <= row {
            return;
        }
        let at = (row - top) * stride + start;
        let w = crate::width(self.xtrans);
        self.emit_column(lines, image, at, slot * (w + 2) + 1, k % 6);
    }

    // Colour line l, to the places of line n that show it.
    fn emit_colour(&self, lines: &[u16], image: &mut [u16], n: usize, l: usize, slot: usize)
        requires n_bound { (n < 2 ^ 16)
            × ((slot ≤ 17) × ((slot + 1) * (width_of self.now.xtrans + 2) ≤ length lines.now)) }
        requires fits { Fits self.now.part image.old }
        ensures { ColourEmitted self.now.xtrans (width_of self.now.xtrans) self.now.tile lines.now self.now.part n
            l slot image.old image.new }
    {
        for k in 0..36 {
            self.emit_cell(lines, image, n, k, l, slot);
        }
    }

    // The two lines of a pass.
    pub fn emit_pass(
        &self,
        lines: &[u16],
        image: &mut [u16],
        n: usize,
        first: usize,
        first_slot: usize,
        second: usize,
        second_slot: usize,
    )
        requires n_bound { (n < 2 ^ 16)
            × ((first_slot ≤ 17) × ((first_slot + 1) * (width_of self.now.xtrans + 2) ≤ length lines.now)) }
        requires second_slot_bound { (second_slot ≤ 17)
            × ((second_slot + 1) * (width_of self.now.xtrans + 2) ≤ length lines.now) }
        requires fits { Fits self.now.part image.old }
        ensures { PassEmitted true self.now.xtrans (width_of self.now.xtrans) self.now.tile lines.now self.now.part n
            first first_slot second second_slot image.old image.new }
    {
        self.emit_colour(lines, image, n, first, first_slot);
        self.emit_colour(lines, image, n, second, second_slot);
    }
}
