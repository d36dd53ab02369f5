// Replay, a program: regions of streams whose blocks the original Rust read. It counts how many calls were compared and how many differ.
// The records are in regions.bin; tools/make-regions.py writes them and has their layout. A record whose numbers are out of range differs.
#![tactic(auto)]

ghost use Rattle.std.specs.Prelude.{◌*◌, ◌≤◌, ◌<◌};

use image_region::Rect;
use replay_common::{Outcome, bytes, half, long, read_full, replay, word};
use std::io;
use std::io::Read;
use stream::Refusal;

mod alone;

// The most of a stream, and of an image, that a record may have, and the bytes of the image.
const STREAM: usize = 80_000;

const IMAGE: usize = 28_000;

const IMAGE_BYTES: usize = 56_000;

// Whether the original accepted a call.
#[derive(Clone, Copy)]
enum Kind {
    Decoded,
    Refused,
}

// The kinds' names, in their order.
const NAMES: [&str; 2] = ["regions decoded", "regions refused"];

// What a record says of itself: the bytes of its stream, the samples of its image, and the answer.
#[derive(Clone, Copy)]
struct Sizes {
    stream: usize,
    image: usize,
    number: u32,
    block: usize,
    line: usize,
    ghost fits: { (stream ≤ 80000) × (image ≤ 28000) },
}

// The sizes of a record that fits the buffers of this program.
fn sizes_of(record: &[u8]) -> Option<Sizes> {
    let stream = word(record, 0) as usize;
    let image = word(record, 36) as usize;
    if STREAM < stream || IMAGE < image {
        return None;
    }
    Some(Sizes {
        stream,
        image,
        number: word(record, 40),
        block: word(record, 44) as usize,
        line: word(record, 48) as usize,
    })
}

fn rect_of(record: &[u8]) -> Rect {
    Rect {
        x: long(record, 4),
        y: long(record, 12),
        width: long(record, 20),
        height: long(record, 28),
    }
}

// Accepted, or the one refusal with its values.
fn answer_agrees(a: Result<(), Refusal>, s: Sizes) -> bool {
    match a {
        Ok(()) => s.number == 0,
        Err(Refusal::OutsideImage) => s.number == 7,
        Err(Refusal::Truncated(b, l)) => s.number == 14 && b == s.block && l == s.line,
        Err(_) => false,
    }
}

// Whether the image is what it is to be, in every sample.
fn image_agrees(image: &[u16], want: &[u8]) -> bool {
    image
        .iter()
        .zip(want.chunks_exact(2))
        .all(|(sample, wanted)| *sample == half(wanted, 0))
}

// Reads what a record has after its numbers, and compares. A record that is cut off differs.
fn agrees(file: &mut impl Read, s: Sizes, r: Rect, tile: [u8; 36]) -> io::Result<bool> {
    let mut stream = [0u8; STREAM];
    let mut want = [0u8; IMAGE_BYTES];
    let mut image = [0x5a5au16; IMAGE];
    let stream = &mut stream[..s.stream];
    let want = &mut want[..2 * s.image];
    let image = &mut image[..s.image];
    let a = read_full(file, stream)?;
    let b = read_full(file, want)?;
    if a != stream.len() || b != want.len() {
        return Ok(false);
    }
    let answer = alone::decode_region_alone(stream, r, tile, image);
    Ok(answer_agrees(answer, s) && image_agrees(image, want))
}

// A record that does not fit differs.
fn compare(record: &[u8], file: &mut impl Read) -> io::Result<Outcome> {
    let kind = if word(record, 40) == 0 {
        Kind::Decoded
    } else {
        Kind::Refused
    };
    let agrees = match sizes_of(record) {
        Some(s) => agrees(file, s, rect_of(record), bytes(record, 52))?,
        None => false,
    };
    Ok(Outcome {
        kind: kind as usize,
        compared: 1,
        differ: u64::from(!agrees),
    })
}

fn main(rt: HostRuntime) -> io::Result<()> {
    replay::<88, _, _>(
        &rt,
        "regions.bin",
        1000,
        &NAMES,
        |record, file| compare(record, file),
    )
}
