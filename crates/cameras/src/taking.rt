// The lines of a block take their entries of those that two cameras share, and find their main quantisers in them.
ghost use Rattle.std.specs.Prelude.{true, false, ◌≡◌, ◌^◌, ◌≤◌, ◌<◌, get_or, MatchOption};
ghost use Rattle.quantiser.specs.Quantisers.{main_of};
ghost use Rattle.cameras.specs.Entries.{is_pair, held_by, new_entry, pair_in, has_entry, with_entry, after_lines, lines_with_entry};
ghost use Rattle.cameras.specs.declared.Entries.{Entries};
ghost use Rattle.cameras.specs.Entries.{taking_lines, is_stopped, AllNumbered, mended_entry, mended};

use crate::{Camera, Entries, Entry};
use quantiser::Quantiser;

// How many lines of a block have an entry, and the entries after them.
#[derive(Clone, Copy)]
pub struct Took {
    pub lines: usize,
    pub entries: Entries,
}

// The base of line n; a lossless block has none, and base 0 in each line.
pub fn base_of(bases: &[u8], n: usize) -> u32
    ensures { (result ≡ get_or bases.now n 0) × (result < 256) }
{
    if n < bases.len() {
        return u32::from(bases[n]);
    }
    0
}

fn is_pair(e: Entry, bits: u32, base: u32) -> bool
    ensures { result ≡ is_pair bits base e }
{
    let m = e.main;
    crate::is_held(e) & (e.bits == bits) & (m.base == base)
}

// The lowest entry that is in use for the pair.
fn pair_in(entries: Entries, bits: u32, base: u32) -> Option<usize>
    ensures { let i = pair_in bits base entries.all in MatchOption result (i ≡ 16) (λ j. (j ≡ i) × (j < 16)) }
{
    for (i, e) in entries.all.iter().enumerate() {
        if is_pair(*e, bits, base) {
            return Some(i);
        }
    }
    None
}

fn held_by(camera: Camera, e: Entry) -> Entry
    ensures { result ≡ held_by camera e }
{
    match camera {
        Camera::One => Entry { one: true, ..e },
        Camera::Two => Entry { two: true, ..e },
    }
}

fn new_entry(camera: Camera, bits: u32, base: u32) -> Entry
    requires { (12 ≤ bits) × ((bits ≤ 16) × (base < 256)) }
    ensures { result ≡ new_entry camera bits base }
{
    let main = Quantiser::main(bits, base);
    held_by(
        camera,
        Entry {
            bits,
            main,
            one: false,
            two: false,
        },
    )
}

// The entries after a line with this pair, if it has one: one that is in use for it, or else the lowest that nobody holds.
fn take(camera: Camera, entries: Entries, bits: u32, base: u32) -> Option<Entries>
    requires { (12 ≤ bits) × ((bits ≤ 16) × (base < 256)) }
    ensures { let has = has_entry bits base entries.all in
        MatchOption result (has ≡ false) (λ (after : Entries). (has ≡ true) × (after.all ≡ with_entry camera bits base entries.all)) }
{
    let mut after = entries;
    if let Some(i) = pair_in(entries, bits, base) {
        after.all[i] = held_by(camera, after.all[i]);
        return Some(after);
    }
    if let Some(j) = crate::free_in(entries) {
        after.all[j] = new_entry(camera, bits, base);
        return Some(after);
    }
    None
}

// The entries of the first `count` lines of a block, until a line has none.
pub fn take_lines(camera: Camera, entries: Entries, bits: u32, bases: &[u8], count: usize) -> Took
    requires le_bits { (12 ≤ bits) × ((bits ≤ 16) × (count < 2 ^ 16)) }
    requires all_numbered { AllNumbered entries.all }
    ensures lines_value { (result.lines ≡ lines_with_entry camera bits bases.now entries.all count) × (result.lines ≤ count) }
    ensures all_value { (result.entries.all ≡ after_lines camera bits bases.now entries.all result.lines) × AllNumbered result.entries.all }
{
    let mut after = entries;
    for n in 0..count {
        let Some(next) = take(camera, after, bits, base_of(bases, n)) else {
            return Took {
                lines: n,
                entries: after,
            };
        };
        after = next;
    }
    Took {
        lines: count,
        entries: after,
    }
}

// The entries after the block.
// INLINING: not inlined, so that what it works on is not on the stack while a block is read.
#[inline(never)]
pub fn after_block(
    camera: Camera,
    entries: Entries,
    bits: u32,
    bases: &[u8],
    found: usize,
    read: usize,
) -> Entries
    requires le_bits { (12 ≤ bits) × ((bits ≤ 16) × (found < 2 ^ 16)) }
    requires all_numbered { AllNumbered entries.all × (lines_with_entry camera bits bases.now entries.all found ≡ found) }
    ensures { (result.all ≡ after_lines camera bits bases.now entries.all (taking_lines read found)) × AllNumbered result.all }
{
    let took = take_lines(
        camera,
        entries,
        bits,
        bases,
        limits::lines_taking(read, found),
    );
    took.entries
}

// Whether a line of the block has no entry, and all before it were read.
pub fn is_stopped(read: usize, found: usize, count: usize) -> bool
    ensures { result ≡ is_stopped read found count }
{
    limits::is_stopped(read, found, count)
}

// A held entry with the numbers of its pair, or one that nobody holds where there is no such quantiser.
fn mended_entry(e: Entry) -> Entry
    ensures { result ≡ mended_entry e }
{
    if !crate::is_held(e) {
        return e;
    }
    let m = e.main;
    if (12 <= e.bits) & (e.bits <= 16) & (m.base < 256) {
        let main = Quantiser::main(e.bits, m.base);
        return Entry { main, ..e };
    }
    crate::no_entry()
}

// Entries from elsewhere, so that they can do no harm. Those that only these functions wrote stay as they are.
pub fn mended(entries: Entries) -> Entries
    ensures { (result.all ≡ mended entries.all) × AllNumbered result.all }
{
    let mut after = entries;
    for i in 0..16 {
        after.all[i] = mended_entry(after.all[i]);
    }
    after
}

// The main quantiser of a line: that of its entry, or a new one for whoever has no entries.
pub fn main_in(entries: Entries, bits: u32, base: u32) -> Quantiser
    requires le_bits { (12 ≤ bits) × ((bits ≤ 16) × (base < 256)) }
    requires all_numbered { AllNumbered entries.all }
    ensures { result ≡ main_of bits base }
{
    if let Some(i) = pair_in(entries, bits, base) {
        return entries.all[i].main;
    }
    Quantiser::main(bits, base)
}
