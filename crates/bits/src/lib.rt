// Document 01, Bit reader: the bits of a block, most significant first, with zeros after the end. There is no cache: eight bytes are
// loaded at the position.
#![tactic(auto)]

ghost use Rattle.std.specs.Prelude.{◌≡◌, ◌+◌, ◌*◌, ◌/◌, ◌%◌, ◌^◌, ◌≤◌, ◌<◌, min, ltb, length, get_or};
ghost use Rattle.bits.specs.Bits.{bits_at, zero_run, be32};
ghost use Rattle.bits.specs.Inside.{word_at};
ghost use Rattle.bits.specs.Inside.{after_run};
ghost use Rattle.bits.specs.BitLists.{block_bytes, is_tail};
ghost use Rattle.bits.specs.Inside.{filled};
ghost use Rattle.bits.specs.Positions.{ahead, aligned};

// A place in a block, counted in bits from its start.
#[derive(Clone, Copy)]
pub struct BitPosition(pub u64);

// A place in a block or a stream, counted in bytes from its start: what a slice is indexed by.
#[derive(Clone, Copy)]
pub struct ByteOffset(pub usize);

impl BitPosition {
    // The byte that the bit stands in.
    pub fn byte(self) -> ByteOffset
        ensures { result.0 ≡ self.0 / 8 }
    {
        ByteOffset((self.0 / 8) as usize)
    }

    // How many bits of that byte come before it.
    pub fn in_byte(self) -> u32
        ensures { result ≡ self.0 % 8 }
    {
        (self.0 % 8) as u32
    }

    // The bytes that the bits before it take, the last of them counted whole.
    pub fn bytes(self) -> ByteOffset
        ensures { result.0 ≡ (self.0 + 7) / 8 }
    {
        ByteOffset((self.0 / 8 + (self.0 % 8 + 7) / 8) as usize)
    }

    // The bytes of a tight block whose bits end here: a multiple of 16.
    pub fn block_bytes(self) -> ByteOffset
        ensures { result.0 ≡ (self.0 + 127) / 128 * 16 }
    {
        ByteOffset(limits::block_bytes(self.0))
    }

    // The position n bits on. Positions end at 2^64 - 1.
    pub fn ahead(self, n: u32) -> BitPosition
        ensures { result.0 ≡ ahead self.0 n }
    {
        BitPosition(self.0.saturating_add(u64::from(n)))
    }

    // The position at which the next byte begins, or this one where a byte begins here.
    pub fn aligned(self) -> BitPosition
        ensures { result.0 ≡ aligned self.0 }
    {
        self.ahead(((8 - self.0 % 8) % 8) as u32)
    }
}

impl ByteOffset {
    // The position of the byte's first bit.
    fn first_bit(self) -> BitPosition
        requires { self.0 < 2 ^ 61 }
        ensures { result.0 ≡ 8 * self.0 }
    {
        BitPosition(8 * (self.0 as u64))
    }
}

// The byte at i, 0 past the end.
fn byte_at(s: &[u8], i: usize) -> u64
    ensures { (result ≡ get_or s.now i 0) × (result < 256) }
{
    if i < s.len() { u64::from(s[i]) } else { 0 }
}

// The four bytes from i on.
// INLINING: a sum of products of four bytes. LLVM makes one load and one byte swap of two such groups. Of `from_be_bytes`
// it makes them too, but then the loop of reading (read_pass) takes 7 instructions a code more.
pub fn load32(s: &[u8], i: usize) -> u64
    requires { i + 4 ≤ length s.now }
    ensures { (result ≡ be32 s.now i) × (result < 2 ^ 32) }
{
    u64::from(s[i]) * 0x100_0000
        + u64::from(s[i + 1]) * 0x1_0000
        + u64::from(s[i + 2]) * 0x100
        + u64::from(s[i + 3])
}

// The eight bytes from i on.
fn load64(s: &[u8], i: usize) -> u64
    requires { i + 8 ≤ length s.now }
    ensures { result ≡ bits_at s.now (8 * i) 64 }
{
    load32(s, i) * 0x1_0000_0000 + load32(s, i + 4)
}

// The k bytes from i on, near the end and past it.
// INLINING: it calls itself, so that LLVM leaves it out of the functions that load.
fn load_tail(s: &[u8], i: usize, k: usize) -> u64
    requires { (i < 2 ^ 62) × (k ≤ 8) }
    ensures { result ≡ bits_at s.now (8 * i) (8 * k) }
{
    if k == 0 {
        return 0;
    }
    let j = k - 1;
    load_tail(s, i, j) * 256 + byte_at(s, i + j)
}

// The 64 bits from a byte on.
fn window(s: &[u8], at: ByteOffset) -> u64
    requires { at.0 < 2 ^ 62 }
    ensures { result ≡ bits_at s.now (8 * at.0) 64 }
{
    let i = at.0;
    if i + 8 <= s.len() {
        load64(s, i)
    } else {
        load_tail(s, i, 8)
    }
}

// The bits from `at` on, at the top of a word: 57 of them or more, and zeros below. 0 where fewer than eight bytes are left.
pub fn word_at(s: &[u8], at: BitPosition) -> u64
    ensures { result ≡ word_at s.now at.0 }
{
    let from = at.byte();
    if from.0 + 8 <= s.len() {
        return load64(s, from.0) << (at.0 % 8);
    }
    0
}

// A count of bits to read: 32 at most.
fn counted(n: u32) -> u32
    ensures { (result ≡ min n 32) × (result ≤ 32) }
{
    n.min(32)
}

// The next n bits, 32 at most.
pub fn peek_at(s: &[u8], at: BitPosition, n: u32) -> u32
    ensures { result ≡ bits_at s.now at.0 (min n 32) }
{
    let m = counted(n);
    let w = window(s, at.byte());
    (((w << (at.0 % 8)) >> 32) >> (32 - m)) as u32
}

// Whether more bits are consumed than the block has, and seven.
pub fn is_past(block: &[u8], at: BitPosition) -> bool
    requires { length block.now < 2 ^ 32 }
    ensures { result ≡ ltb (8 * length block.now + 7) at.0 }
{
    limits::is_past_end(block.len(), at.0)
}

// Whether a tight block may end at this position: its length is the bits rounded up to a multiple of 16 bytes, and no one bit is left.
pub fn is_tail(s: &[u8], at: BitPosition) -> bool
    requires { length s.now < 2 ^ 32 }
    ensures { result ≡ is_tail s.now at.0 }
{
    if s.len() != at.block_bytes().0 {
        return false;
    }
    zero_run(s, at).is_none()
}

// The filling of a tight block whose bits end at this position: zeros from the next byte on.
pub fn fill_tail(out: &mut [u8], at: BitPosition)
    requires { block_bytes at.0 ≤ length out.old }
    ensures { out.new ≡ filled at.0 out.old }
{
    let from = at.bytes();
    let end = at.block_bytes();
    out[from.0..end.0].fill(0);
}

// The position behind the next n bits, 32 at most.
pub fn past(at: BitPosition, n: u32) -> BitPosition
    ensures { result.0 ≡ ahead at.0 (min n 32) }
{
    at.ahead(counted(n))
}

// The zero bits from `at` up to the next one bit of the block, None where no one bit is left. Runs are counted in 64 bits: no run of a block is too long.
pub fn zero_run(s: &[u8], at: BitPosition) -> Option<u64>
    requires { length s.now < 2 ^ 58 }
    ensures { result ≡ zero_run s.now at.0 }
{
    // A `while`: the first turn begins within a byte, so that a range by steps of eight would need a case more.
    let mut here = at;
    let mut from = here.byte();
    while from.0 < s.len() {
        let w = window(s, from) << (here.0 % 8);
        if w != 0 {
            return Some(here.0 - at.0 + u64::leading_zeros(w) as u64);
        }
        from = ByteOffset(from.0 + 8);
        here = from.first_bit();
    }
    None
}

// The position behind the one bit of a run, or `at` where there is none.
pub fn after_run(at: BitPosition, run: Option<u64>) -> BitPosition
    requires { after_run at.0 run < 2 ^ 64 }
    ensures { result.0 ≡ after_run at.0 run }
{
    match run {
        Some(zeros) => BitPosition(at.0 + zeros + 1),
        None => at,
    }
}
