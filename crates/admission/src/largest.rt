// Refusal 11: a sample of a set that is above the largest, and is not ignored.
ghost use Rattle.std.specs.Prelude.{◌≡◌, true, not, ◌||◌, leb};
ghost use Rattle.colour_lines.specs.Sets.{colour_line_at, position_at};
ghost use Rattle.pass_schedule.specs.Steps.{is_interpolated};
ghost use Rattle.image_map.specs.Places.{width_of};
ghost use Rattle.admission.specs.Above.{is_ignored, first_above};

// Whether index j of an X-Trans set is an interpolated position.
fn is_interpolated_at(j: usize) -> bool
    ensures { result ≡ is_interpolated true (colour_line_at (width_of true) j) (position_at (width_of true) j) }
{
    let w = image_map::width(true);
    let inside = j % (12 * w);
    pass_schedule::is_interpolated(colour_lines::line_of_rank(inside / w), inside % w)
}

// Bayer interpolates nothing.
fn is_ignored(xtrans: bool, strict: bool, j: usize) -> bool
    ensures { result ≡ is_ignored xtrans strict j }
{
    if strict {
        return false;
    }
    if xtrans {
        return is_interpolated_at(j);
    }
    false
}

// A sample v, at index j, that is refused.
fn is_above(v: u16, m: u32, xtrans: bool, strict: bool, j: usize) -> bool
    ensures { result ≡ not (leb v m || is_ignored xtrans strict j) }
{
    if u32::from(v) <= m {
        return false;
    }
    !is_ignored(xtrans, strict, j)
}

// The lowest index of a sample above m that is not ignored.
pub fn first_above(samples: &[u16], m: u32, xtrans: bool, strict: bool) -> Option<usize>
    ensures { result ≡ first_above (is_ignored xtrans strict) m 0 samples.now }
{
    for (i, v) in samples.iter().enumerate() {
        if is_above(*v, m, xtrans, strict, i) {
            return Some(i);
        }
    }
    None
}
