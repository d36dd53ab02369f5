// Decoding: an image, a region, a region in windows, and a region for a camera, with the end of its stream.
ghost use Rattle.std.specs.Prelude.{◌≡◌, length};
ghost use Rattle.image_region.specs.declared.Rect.{Rect};
ghost use Rattle.cameras.specs.Entries.{given_back};
ghost use Rattle.cameras.specs.Words.{camera_in, entries_in, AreWords};
ghost use Rattle.admission.specs.Beginnings.{region_begins, windowed_begins, whole_of, image_begins};
ghost use Rattle.read_block.specs.Lent.{Buffers};
ghost use Rattle.read_block.specs.Words.{answer_words, Told, ToldWindowed, ToldShared};

use image_region::Rect;
use read_block::{
    SharedAnswer, decode, decode_region, decode_region_shared, decode_region_windowed,
};
use statistics::Record;

// `decode_region` for C.
#[unsafe(no_mangle)]
pub extern "C" fn fuji_decode_region(
    d: &[u8],
    x: usize,
    y: usize,
    width: usize,
    height: usize,
    tile: &[u8; 36],
    image: &mut [u16],
    lines: &mut [u16],
    rs: &mut [Record],
    refusal: &mut [usize; 4],
)
    ensures { let r : Rect = record { x = x; y = y; width = width; height = height } in
        let before : Buffers = record { image = image.old; lines = lines.old; records = rs.old } in
        let after : Buffers = record { image = image.new; lines = lines.new; records = rs.new } in
        let begins = region_begins d.now r (length before.image) (length before.lines) (length before.records) in
        Told d.now r tile.now begins before after refusal.new }
{
    let r = Rect {
        x,
        y,
        width,
        height,
    };
    let a = decode_region(d, r, *tile, image, lines, rs);
    *refusal = stream::refusal_in(&a);
}

// `decode_region_windowed` for C.
#[unsafe(no_mangle)]
pub extern "C" fn fuji_decode_region_windowed(
    d: &[u8],
    x: usize,
    y: usize,
    width: usize,
    height: usize,
    tile: &[u8; 36],
    image: &mut [u16],
    lines: &mut [u16],
    rs: &mut [Record],
    refusal: &mut [usize; 4],
)
    ensures { let r : Rect = record { x = x; y = y; width = width; height = height } in
        let before : Buffers = record { image = image.old; lines = lines.old; records = rs.old } in
        let after : Buffers = record { image = image.new; lines = lines.new; records = rs.new } in
        let begins = windowed_begins d.now r (length before.image) (length before.lines) (length before.records) in
        ToldWindowed d.now r tile.now begins before after refusal.new }
{
    let r = Rect {
        x,
        y,
        width,
        height,
    };
    let a = decode_region_windowed(d, r, *tile, image, lines, rs);
    *refusal = stream::refusal_in(&a);
}

// An answer and the entries, as words.
// INLINING: a function of its own, so that its arrays are not on the stack while blocks are read.
fn put_shared(entries: &mut [u32; 128], refusal: &mut [usize; 4], a: SharedAnswer)
    ensures { AreWords a.entries.all entries.new × (refusal.new ≡ answer_words a.answer) }
{
    *entries = cameras::words_of(a.entries);
    *refusal = stream::refusal_in(&a.answer);
}

// `decode_region_shared` for C: camera 1 is 1, and any other number is camera 2.
#[unsafe(no_mangle)]
pub extern "C" fn fuji_decode_region_shared(
    camera: u32,
    entries: &mut [u32; 128],
    d: &[u8],
    x: usize,
    y: usize,
    width: usize,
    height: usize,
    tile: &[u8; 36],
    image: &mut [u16],
    lines: &mut [u16],
    rs: &mut [Record],
    refusal: &mut [usize; 4],
)
    ensures { let r : Rect = record { x = x; y = y; width = width; height = height } in
        let before : Buffers = record { image = image.old; lines = lines.old; records = rs.old } in
        let after : Buffers = record { image = image.new; lines = lines.new; records = rs.new } in
        let begins = region_begins d.now r (length before.image) (length before.lines) (length before.records) in
        ToldShared (camera_in camera) d.now r tile.now begins entries.old entries.new before after
        refusal.new }
{
    let r = Rect {
        x,
        y,
        width,
        height,
    };
    let c = cameras::camera_in(camera);
    let held = cameras::entries_in(entries);
    let a = decode_region_shared(c, held, d, r, *tile, image, lines, rs);
    put_shared(entries, refusal, a);
}

// `end_stream` for C.
#[unsafe(no_mangle)]
pub extern "C" fn fuji_end_stream(camera: u32, entries: &mut [u32; 128])
    ensures { AreWords (given_back (camera_in camera) (entries_in entries.old)) entries.new }
{
    let c = cameras::camera_in(camera);
    let held = cameras::entries_in(entries);
    let left = cameras::end_stream(c, held);
    *entries = cameras::words_of(left);
}

// `decode` for C.
#[unsafe(no_mangle)]
pub extern "C" fn fuji_decode(
    d: &[u8],
    width: usize,
    height: usize,
    tile: &[u8; 36],
    image: &mut [u16],
    lines: &mut [u16],
    rs: &mut [Record],
    refusal: &mut [usize; 4],
)
    ensures { let before : Buffers = record { image = image.old; lines = lines.old; records = rs.old } in
        let after : Buffers = record { image = image.new; lines = lines.new; records = rs.new } in
        let begins = image_begins d.now width height (length before.image) (length before.lines) (length before.records) in
        Told d.now (whole_of width height) tile.now begins before after refusal.new }
{
    let a = decode(d, width, height, *tile, image, lines, rs);
    *refusal = stream::refusal_in(&a);
}
