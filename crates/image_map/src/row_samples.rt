// The samples of a row, and how they go to the image.
ghost use Rattle.std.specs.Prelude.{◌≡◌, ◌+◌, ◌*◌, ◌%◌, ◌≤◌, ◌<◌, length, set};
ghost use Rattle.image_map.specs.Places.{width_of};
ghost use Rattle.image_map.specs.Inside.{ArePlaces};
ghost use Rattle.image_map.specs.Rows.{InLines, sample_by};
ghost use Rattle.image_map.specs.Starts.{three_put};

// The samples of a row: the colour lines, where that of each column of the tile begins, and the table of X-Trans places.
#[derive(Clone, Copy)]
pub struct RowSamples<'a> {
    pub lines: &'a [u16],
    pub xtrans: bool,
    pub places: &'a [u16; 768],
    pub starts: [usize; 6],
    pub ghost all_lines: { 18 * (width_of xtrans + 2) ≤ length lines.now },
    pub ghost are_places: { ArePlaces places.now },
    pub ghost in_lines: { InLines (width_of xtrans) starts },
}

impl RowSamples<'_> {
    // The sample of column p of a block, which stands in this column of the tile.
    pub fn sample_at(&self, column: usize, p: usize) -> u16
        requires { (column ≡ p % 6) × (p < 768) }
        ensures { result ≡ sample_by self.now.lines.now self.now.starts self.now.xtrans p }
    {
        self.lines[self.starts[column] + crate::place_in(self.xtrans, self.places, p)]
    }

    // The sample of column p, to entry i of the image.
    pub(crate) fn emit_sample(&self, image: &mut [u16], i: usize, column: usize, p: usize)
        requires { (column ≡ p % 6) × ((p < 768) × (i < length image.old)) }
        ensures { (image.new ≡ set image.old i (sample_by self.now.lines.now self.now.starts self.now.xtrans p))
            × (length image.new ≡ length image.old) }
    {
        image[i] = self.sample_at(column, p);
    }

    // The samples of three columns, to the image from i on.
    pub(crate) fn emit_three(&self, image: &mut [u16], i: usize, column: usize, p: usize)
        requires { (column ≡ p % 6) × ((column + 3 ≤ 6) × ((p + 3 ≤ 768) × (i + 3 ≤ length image.old))) }
        ensures { (image.new ≡ three_put (sample_by self.now.lines.now self.now.starts self.now.xtrans) i p image.old)
            × (length image.new ≡ length image.old) }
    {
        self.emit_sample(image, i, column, p);
        self.emit_sample(image, i + 1, column + 1, p + 1);
        self.emit_sample(image, i + 2, column + 2, p + 2);
    }
}
