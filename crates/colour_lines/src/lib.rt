// Document 01, Pass and line: the 18 colour lines of a block between passes: guards, the turn to the next line, the layout of a set.
#![tactic(auto)]

ghost use Rattle.std.specs.Prelude.{◌≡◌, ◌+◌, ◌-◌, ◌*◌, ◌≤◌, ◌<◌, length, replicate};
ghost use Rattle.colour_lines.specs.ColourLines.{guarded, moved, turned};
ghost use Rattle.colour_lines.specs.Inside.{shifted, entered};
ghost use Rattle.colour_lines.specs.Sets.{line_of_rank};

// Where a colour line begins, with its left guard.
pub fn start_of(w: usize, line: usize) -> usize
    requires { (w ≤ 512) × (line ≤ 17) }
    ensures { (result ≡ line * (w + 2)) × ((result + (w + 2) ≡ (line + 1) * (w + 2)) × (result + (w + 2) ≤ 18 * (w + 2))) }
{
    let step = w + 2;
    line * step
}

// Where the line above line l begins: it ends where line l begins.
fn start_above(w: usize, l: usize) -> usize
    requires { (w ≤ 512) × ((1 ≤ l) × (l ≤ 17)) }
    ensures { (result ≡ (l - 1) * (w + 2)) × (result + (w + 2) ≡ l * (w + 2)) }
{
    start_of(w, l - 1)
}

// The guards of line l, from the line above it.
#[tactic(auto, unfolding(crate::specs::ColourLines::guarded))]
pub fn set_guards(lines: &mut [u16], w: usize, l: usize)
    requires { (w ≤ 512) × ((1 ≤ l) × ((l ≤ 17) × ((l + 1) * (w + 2) ≤ length lines.old))) }
    ensures { lines.new ≡ guarded w l lines.old }
{
    let above = start_above(w, l);
    let here = start_of(w, l);
    lines[here] = lines[above + 1];
    lines[here + (w + 1)] = lines[above + w];
}

// One line becomes another, further up.
#[tactic(auto, unfolding(crate::specs::ColourLines::moved))]
fn move_line(lines: &mut [u16], w: usize, from: usize, to: usize)
    requires { (w ≤ 512) × ((to < from) × ((from ≤ 17) × ((from + 1) * (w + 2) ≤ length lines.old))) }
    ensures { lines.new ≡ moved w from to lines.old }
{
    let source = start_of(w, from);
    let target = start_of(w, to);
    lines.copy_within(source..source + (w + 2), target);
}

// The turn to the next line.
#[tactic(auto, unfolding(crate::specs::ColourLines::turned))]
pub fn turn(lines: &mut [u16], w: usize)
    requires { (w ≤ 512) × (18 * (w + 2) ≤ length lines.old) }
    ensures { lines.new ≡ turned w lines.old }
{
    move_line(lines, w, 3, 0);
    move_line(lines, w, 4, 1);
    move_line(lines, w, 11, 5);
    move_line(lines, w, 12, 6);
    move_line(lines, w, 16, 13);
    move_line(lines, w, 17, 14);
}

// Room for a new line l of its colour, where three lines of a colour are kept: the two before it go one further up.
#[tactic(auto, unfolding(crate::specs::Inside::shifted))]
fn make_room(lines: &mut [u16], w: usize, l: usize)
    requires { (w ≤ 512) × ((2 ≤ l) × ((l ≤ 17) × ((l + 1) * (w + 2) ≤ length lines.old))) }
    ensures { lines.new ≡ shifted w l lines.old }
{
    move_line(lines, w, l - 1, l - 2);
    move_line(lines, w, l, l - 1);
}

// Before a pass over two lines: their guards are set, and in windows there is room for both.
#[tactic(auto, unfolding(crate::specs::Inside::entered, crate::specs::Inside::roomed))]
pub fn enter(lines: &mut [u16], w: usize, first: usize, second: usize, windowed: bool)
    requires w_bound { (w ≤ 512) × ((2 ≤ first) × ((first ≤ 17) × ((first + 1) * (w + 2) ≤ length lines.old))) }
    requires le_second { (2 ≤ second) × ((second ≤ 17) × ((second + 1) * (w + 2) ≤ length lines.old)) }
    ensures { lines.new ≡ entered windowed w first second lines.old }
{
    if windowed {
        make_room(lines, w, first);
        make_room(lines, w, second);
    }
    set_guards(lines, w, first);
    set_guards(lines, w, second);
}

// All samples 0.
pub fn clear(lines: &mut [u16])
    ensures { lines.new ≡ replicate (length lines.old) 0 }
{
    lines.fill(0);
}

// The colour line with number c among the twelve of a set.
#[tactic(auto, unfolding(crate::specs::Sets::line_of_rank))]
pub fn line_of_rank(c: usize) -> usize
    requires { c < 12 }
    ensures { (result ≡ line_of_rank c) × (result ≤ 17) }
{
    if c < 3 {
        return c + 2;
    }
    if c < 9 {
        return c + 4;
    }
    c + 6
}
