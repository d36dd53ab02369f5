// The rows of a truncated line, which become 0.
ghost use Rattle.std.specs.Prelude.{true, ◌+◌, ◌^◌, ◌<◌};
ghost use Rattle.image_map.specs.Inside.{in_rows, Fits};
ghost use Rattle.image_map.specs.Places.{Changed};
ghost use Rattle.image_map.specs.Zeros.{LineZeroed};

use crate::Part;

impl Part {
    // One row of the whole picture, if the part has it, all 0.
    fn zero_row(self, image: &mut [u16], row: usize)
        requires { Fits self image.old }
        ensures { Changed (in_rows self row (row + 1)) (λ _. 0) image.old image.new }
    {
        let top = self.top;
        let bottom = self.bottom;
        let start = self.start;
        let stride = self.stride;
        let left = self.left;
        let right = self.right;
        if row < top {
            return;
        }
        if bottom <= row {
            return;
        }
        let at = (row - top) * stride + start;
        image[at..at + (right - left)].fill(0);
    }

    // The rows of line n that the part has, all 0.
    pub fn zero_line(self, image: &mut [u16], n: usize)
        requires { (n < 2 ^ 16) × Fits self image.old }
        ensures { LineZeroed true self n image.old image.new }
    {
        for r in 0..6 {
            self.zero_row(image, 6 * n + r);
        }
    }
}
