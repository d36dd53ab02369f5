// Replay, a program: blocks whose colour lines the original Rust gave. It counts how many readings were compared and how many differ. The
// blocks are in blocks.bin; rust/record-blocks writes them and documents their layout. Each block is read with three tiles of one value,
// which show its red, its green and its blue colour lines. A record whose numbers are out of range differs.
#![tactic(auto)]

ghost use Rattle.std.specs.Prelude.{◌*◌, ◌<◌, ◌≤◌, length};

use image_map::Part;
use read_block::{Form, Walked};
use replay_common::{Outcome, half, read_full, replay, word};
use std::io;
use std::io::Read;

// The most of a block, of its lines and of its image that a record may have.
const BLOCK: usize = 40_000;

const LINES: usize = 3;

const IMAGE: usize = 13_824;

const COLOURS: usize = 36_864;

// A sample of the image as it was before.
const BEFORE: u16 = 0x5a5a;

// Whether the original read all of a block's lines.
#[derive(Clone, Copy)]
enum Kind {
    Whole,
    Truncated,
}

// The kinds' names, in their order.
const NAMES: [&str; 2] = ["readings of whole blocks", "readings of truncated blocks"];

// What a record says of itself: the bytes of its base row and of its block, its lines, and how many of them the original read.
#[derive(Clone, Copy)]
struct Sizes {
    bits: u32,
    xtrans: bool,
    lines: usize,
    bases: usize,
    block: usize,
    read: usize,
    ghost depth: { (12 ≤ bits) × (bits ≤ 16) },
    ghost fits: { (lines ≤ 3) × ((bases ≤ 3) × ((block ≤ 40000) × (read ≤ 3))) },
}

// The sizes of a record that fits the buffers of this program.
fn sizes_of(record: &[u8]) -> Option<Sizes> {
    let bits = word(record, 0);
    let xtrans = word(record, 4) == 1;
    let lines = word(record, 8) as usize;
    let bases = word(record, 12) as usize;
    let block = word(record, 16) as usize;
    let read = word(record, 20) as usize;
    if !(12..=16).contains(&bits)
        || LINES < lines
        || LINES < bases
        || BLOCK < block
        || LINES < read
    {
        return None;
    }
    Some(Sizes {
        bits,
        xtrans,
        lines,
        bases,
        block,
        read,
    })
}

// The place of column x in a colour line, as the rule writes it.
fn place(xtrans: bool, x: usize) -> usize
    requires { x < 768 }
    ensures { result < 512 }
{
    if xtrans {
        2 * (x / 3) + usize::from(x % 3 != 0)
    } else {
        x / 2
    }
}

// The bytes of k recorded colour lines.
fn line_bytes(xtrans: bool, k: usize) -> usize
    requires { k ≤ 36 }
    ensures { result ≤ 1024 * k }
{
    if xtrans { 1024 * k } else { 768 * k }
}

// Which of a line's twelve recorded colour lines row r shows through a tile of that colour.
fn recorded_line(colour: u8, r: usize) -> usize
    requires { r < 6 }
    ensures { result < 12 }
{
    match colour {
        0 => r / 2,
        2 => 9 + r / 2,
        _ => 3 + r,
    }
}

// The sample that the original gave for row y and column x; rows that it did not read are as the image was before.
fn wanted(want: &[u8], s: Sizes, colour: u8, y: usize, x: usize) -> u16
    requires { (y < 18) × (x < 768) }
{
    if 6 * s.read <= y {
        return BEFORE;
    }
    let k = 12 * (y / 6) + recorded_line(colour, y % 6);
    half(want, line_bytes(s.xtrans, k) + 2 * place(s.xtrans, x))
}

// Whether the image shows what the original gave, in every row and column.
fn image_agrees(image: &[u16; IMAGE], want: &[u8], s: Sizes, colour: u8) -> bool {
    image.iter().enumerate().all(|(i, sample)| *sample == wanted(want, s, colour, i / 768, i % 768))
}

// All lines were read, or the first truncated one is the one after those that the original read.
fn answer_agrees(r: Walked, s: Sizes) -> bool {
    match r {
        Ok(_) => s.read == s.lines,
        Err((line, _)) => (s.read < s.lines) & (line == s.read),
    }
}

fn agrees(block: &[u8], bases: &[u8], want: &[u8], s: Sizes, colour: u8) -> bool
    requires { length block.now ≤ 40000 }
{
    let mut image = [BEFORE; IMAGE];
    let part = Part {
        left: 0,
        right: 768,
        start: 0,
        stride: 768,
        top: 0,
        bottom: 18,
    };
    let form = Form {
        bits: s.bits,
        xtrans: s.xtrans,
    };
    let r = tight_diagnosis::walk_alone(
        block,
        bases,
        &mut image,
        form,
        [colour; 36],
        part,
        s.lines,
    );
    answer_agrees(r, s) && image_agrees(&image, want, s, colour)
}

// Reads what a record has after its sizes, and says how many of the three readings of its block differ. A record that is cut off differs.
fn differing(file: &mut impl Read, s: Sizes) -> io::Result<u64> {
    let mut bases = [0u8; LINES];
    let mut block = [0u8; BLOCK];
    let mut want = [0u8; COLOURS];
    let bases = &mut bases[..s.bases];
    let block = &mut block[..s.block];
    let want = &mut want[..line_bytes(s.xtrans, 12 * s.read)];
    let a = read_full(file, bases)?;
    let b = read_full(file, block)?;
    let c = read_full(file, want)?;
    if a != bases.len() || b != block.len() || c != want.len() {
        return Ok(3);
    }
    let mut differ = 0;
    for colour in 0..3 {
        differ += u64::from(!agrees(block, bases, want, s, colour));
    }
    Ok(differ)
}

// A record that does not fit differs.
fn compare(record: &[u8], file: &mut impl Read) -> io::Result<Outcome> {
    let kind = if word(record, 20) == word(record, 8) {
        Kind::Whole
    } else {
        Kind::Truncated
    };
    let differ = match sizes_of(record) {
        Some(s) => differing(file, s)?,
        None => 3,
    };
    Ok(Outcome {
        kind: kind as usize,
        compared: 3,
        differ,
    })
}

fn main(rt: HostRuntime) -> io::Result<()> {
    replay::<24, _, _>(
        &rt,
        "blocks.bin",
        1000,
        &NAMES,
        |record, file| compare(record, file),
    )
}
