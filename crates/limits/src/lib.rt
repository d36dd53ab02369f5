// Shared by all crates: tests and lengths on numbers alone, by which blocks and calls are judged. They are apart from the crates that
// call them because a must-fail edit of a test then costs seconds and stands for every entry that makes the test.
#![tactic(auto)]

ghost use Rattle.std.specs.Prelude.{◌≡◌, cond, ◌&&◌, ◌||◌, suc, ◌+◌, ◌-◌, ◌*◌, ◌/◌, ◌%◌, ◌^◌, ◌≤◌, ◌<◌, eqb, leb, ltb};

// Whether there is less room than is needed.
pub fn is_short(room: usize, needed: usize) -> bool
    ensures { result ≡ ltb room needed }
{
    room < needed
}

// Whether n bytes from `start` on pass the end of so many.
pub fn ends_past(room: usize, start: usize, n: usize) -> bool
    requires { start + n < 2 ^ 64 }
    ensures { result ≡ ltb room (start + n) }
{
    room < start + n
}

// A length padded to 16.
pub fn padded(n: usize) -> usize
    requires { n < 2 ^ 32 }
    ensures { (result ≡ (n + 15) / 16 * 16) × (result ≤ n + 15) }
{
    (n + 15) / 16 * 16
}

// The bytes that no block of so many lines and this depth exceeds: a line has 4608 codes, and each has at most 4·bits bits.
pub fn most_bytes(lines: usize, bits: usize) -> usize
    requires { (bits ≤ 16) × (lines < 2 ^ 16) }
    ensures { result ≡ lines * 2304 * bits }
{
    lines * 2304 * bits
}

// The bytes of a tight block that has so many bits: a multiple of 16.
pub fn block_bytes(n: u64) -> usize
    ensures { result ≡ (n + 127) / 128 * 16 }
{
    ((n / 128 + (n % 128 + 127) / 128) * 16) as usize
}

// Whether a line that ends at this bit consumes more bits than a block of so many bytes has, and seven.
pub fn is_past_end(bytes: usize, at: u64) -> bool
    requires { bytes < 2 ^ 32 }
    ensures { result ≡ ltb (8 * bytes + 7) at }
{
    let end = 8 * (bytes as u64) + 7;
    end < at
}

// Of the 56 records for even or for odd positions of a set the first 41 are those of the main quantiser, and the others those of flat ones.
pub fn is_flat(j: usize) -> bool
    ensures { result ≡ leb 41 (j % 56) }
{
    41 <= j % 56
}

// The columns of block i: 768, and in the last one those that are left.
pub fn block_columns(width: u32, blocks: u32, i: u32) -> u32
    requires { (i < 2 ^ 16) × (768 * i ≤ width) }
    ensures { result ≡ cond (eqb (i + 1) blocks) (width - 768 * i) 768 }
{
    if i + 1 == blocks {
        return width - 768 * i;
    }
    768
}

// Whether a stored record cannot be one: a sum of 2^26 or more, or an n outside 1 to 64.
pub fn is_no_record(sum: u64, n: u64) -> bool
    ensures { result ≡ (leb (2 ^ 26) sum || (ltb n 1 || ltb 64 n)) }
{
    (67_108_864 <= sum) | ((n < 1) | (64 < n))
}

// Whether a record of a plan does not run backwards, does not pass the last line, and has a base up to 255.
pub fn is_allowed(lines: usize, first: usize, last: usize, base: u32) -> bool
    ensures { result ≡ (leb first last && ltb last lines && leb base 255) }
{
    (first <= last) & (last < lines) & (base <= 255)
}

// How many lines of a block take a quantiser entry, if `found` have one and `read` were read: the truncated line takes one too.
pub fn lines_taking(read: usize, found: usize) -> usize
    ensures { (result ≡ cond (ltb read found) (suc read) found) × (result ≤ found) }
{
    if read < found {
        return read + 1;
    }
    found
}

// Whether a line of the block has no entry, and all before it were read.
pub fn is_stopped(read: usize, found: usize, count: usize) -> bool
    ensures { result ≡ (ltb found count && leb found read) }
{
    (found < count) & (found <= read)
}

// Whether a picture of this size is the one that a header names.
pub fn is_size(width: usize, height: usize, named_width: usize, named_height: usize) -> bool
    ensures { result ≡ (eqb width named_width && eqb height named_height) }
{
    (width == named_width) & (height == named_height)
}
