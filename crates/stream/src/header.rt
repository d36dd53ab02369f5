// The header of a stream, and why a call is refused.
ghost use Rattle.std.specs.Prelude.{◌≡◌, ◌+◌, ◌^◌, ◌≤◌, ◌<◌, length};
ghost use Rattle.stream.specs.Headers.{byte_at, be16, header_of, within, kind_rules, size_rules, count_rules, parse_of};

// Why a call is refused. Each case has its number, here and for C; specs/Refusals.antt states the number and the values that
// it names. 1 to 15 are in the order in which a call checks them.
#[derive(Clone, Copy)]
pub enum Refusal {
    // 1: fewer than 16 bytes of header.
    ShortHeader,
    // 2: a header rule is broken.
    BadHeader,
    // 3: fewer than 4 bytes for each block follow the header.
    ShortSizes,
    // 4: the base row of this block, the lowest such, is not whole.
    ShortBases(usize),
    // 5: no block has this number.
    NoBlock,
    // 6: the size that is named is not that of the picture.
    WrongSize,
    // 7: the region passes the picture's edge, or the image is too short for it.
    OutsideImage,
    // 8: the header is lossy, where only a lossless one is taken.
    Lossy,
    // 9: the set of colour lines has not exactly lines·12·W samples.
    WrongCount,
    // 10: scratch is too short.
    ShortScratch,
    // 11: the sample at this index, the lowest such, is above 2^bits − 1.
    AboveLargest(usize),
    // 12: the sample at this index, the first in coding order, is at an interpolated position and differs from its prediction.
    NotPredicted(usize),
    // 13: the output is too short.
    ShortOutput,
    // 14: of this block, the lowest such, this line is truncated.
    Truncated(usize, usize),
    // 15: every line reads, but the block is not tight: the line of the first bad code, or the number of lines if only the tail is wrong.
    NotTight(usize),
    // 16: the header is lossless, where only a lossy one is taken.
    Lossless,
    // 17: the bases are not exactly as many as asked for.
    WrongBases,
    // 18: the plan's record with this number, counted from 1, the lowest such, breaks a rule.
    BadRecord(usize),
    // 19: two records of the plan hold this line, the lowest such.
    HeldTwice(usize),
    // 20: no record of the plan holds this line, the lowest such.
    NotHeld(usize),
    // 21: there is no such line to store after, or the stored bytes are no state.
    BadState,
    // 22: the stored state is that of another header or block.
    OtherState,
    // 23: this block's line needs a quantiser while all shared entries are held.
    NoEntry(usize, usize),
    // 24: depth, k or length is outside the sheet of short codes.
    OutsideSheet,
    // 25: there is not exactly one length for each block.
    WrongLengths,
    // 26: the length of this block, the lowest such, is 2^32 or more, and has no place in the four bytes of a size.
    LongBlock(usize),
}

#[derive(Clone, Copy)]
pub struct FujiHeader {
    pub lossless: bool,
    // X-Trans (type 16) or Bayer (type 0).
    pub xtrans: bool,
    pub bits: u32,
    pub height: u32,
    pub rounded_width: u32,
    pub width: u32,
    pub block_size: u32,
    pub blocks: u32,
    // Lines of six rows.
    pub lines: u32,
}

fn byte(d: &[u8], i: usize) -> u32
    requires { i < length d.now }
    ensures { (result ≡ byte_at d.now i) × (result < 256) }
{
    u32::from(d[i])
}

// The two bytes at i.
pub fn pair(d: &[u8], i: usize) -> u32
    requires { i + 1 < length d.now }
    ensures { (result ≡ be16 d.now i) × (result < 2 ^ 16) }
{
    byte(d, i) * 256 + byte(d, i + 1)
}

// The header that the bytes say, whether or not it keeps the rules.
fn read_header(d: &[u8]) -> FujiHeader
    requires { 16 ≤ length d.now }
    ensures { result ≡ header_of d.now }
{
    FujiHeader {
        lossless: byte(d, 2) == 1,
        xtrans: byte(d, 3) == 16,
        bits: byte(d, 4),
        height: pair(d, 5),
        rounded_width: pair(d, 7),
        width: pair(d, 9),
        block_size: pair(d, 11),
        blocks: byte(d, 13),
        lines: pair(d, 14),
    }
}

fn is_within(a: u32, b: u32, x: u32) -> bool
    ensures { result ≡ within a b x }
{
    (a..=b).contains(&x)
}

// Signature, lossless flag, type and depth.
fn keeps_kind_rules(d: &[u8]) -> bool
    requires { 16 ≤ length d.now }
    ensures { result ≡ kind_rules d.now }
{
    let kind = byte(d, 3);
    let bits = byte(d, 4);
    (pair(d, 0) == 0x4953)
        & (byte(d, 2) <= 1)
        & ((kind == 0) | (kind == 16))
        & ((bits == 12) | (bits == 14) | (bits == 16))
}

// Height, rounded width, width and block size.
fn keeps_size_rules(h: FujiHeader) -> bool
    ensures { result ≡ size_rules h }
{
    let height = h.height;
    let rounded = h.rounded_width;
    let width = h.width;
    is_within(6, 0x4002, height)
        & (height % 6 == 0)
        & is_within(0x300, 0x4200, rounded)
        & (rounded % 768 == 0)
        & is_within(0x300, 0x4200, width)
        & (width % 24 == 0)
        & (width <= rounded)
        & (rounded.saturating_sub(width) <= 767)
        & (h.block_size == 0x300)
}

// Blocks and lines.
fn keeps_count_rules(h: FujiHeader) -> bool
    ensures { result ≡ count_rules h }
{
    let blocks = h.blocks;
    let lines = h.lines;
    is_within(1, 16, blocks)
        & (blocks == h.rounded_width / 768)
        & is_within(1, 0xAAB, lines)
        & (lines == h.height / 6)
}

impl FujiHeader {
    // Parses and validates the header: the first 16 bytes.
    pub fn parse(d: &[u8]) -> Result<FujiHeader, Refusal>
        ensures { result ≡ parse_of d.now }
    {
        if limits::is_short(d.len(), 16) {
            return Err(Refusal::ShortHeader);
        }
        let h = read_header(d);
        if keeps_kind_rules(d) & keeps_size_rules(h) & keeps_count_rules(h) {
            return Ok(h);
        }
        Err(Refusal::BadHeader)
    }
}
