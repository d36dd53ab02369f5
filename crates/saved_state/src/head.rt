// The head of a stored state, and numbers as bytes, the most significant first.
ghost use Rattle.std.specs.Prelude.{◌≡◌, ◌+◌, ◌^◌, ◌≤◌, ◌<◌, length};
ghost use Rattle.saved_state.specs.Heads.{be_byte, head_byte, put_each};

// Byte k of the n bytes of a number. Not std's `to_be_bytes`: the state is promised byte by byte (`checkpoint_of`), of numbers of four sizes.
pub fn be_byte(n: u32, k: u32, x: u64) -> u8
    requires { (k < n) × (n ≤ 8) }
    ensures { result ≡ be_byte n k x }
{
    ((x >> (8 * (n - 1 - k))) % 256) as u8
}

// Byte i of the head: the stream's first 16 bytes, block, next line, bit position.
fn head_byte(d: &[u8], block: usize, next: usize, at: u64, i: usize) -> u8
    requires { (16 ≤ length d.now) × (i < 27) }
    ensures { result ≡ head_byte d.now block next at i }
{
    if i < 16 {
        return d[i];
    }
    if i < 17 {
        return be_byte(1, 0, block as u64);
    }
    if i < 19 {
        return be_byte(2, (i - 17) as u32, next as u64);
    }
    be_byte(8, (i - 19) as u32, at)
}

// The head of the state after a line: the next line is the one that follows.
pub fn store_head(out: &mut [u8], d: &[u8], block: usize, line: usize, at: u64)
    requires { (27 ≤ length out.old) × ((16 ≤ length d.now) × (line < 2 ^ 16)) }
    ensures { out.new ≡ put_each (head_byte d.now block (line + 1) at) 0 27 out.old }
{
    let next = line + 1;
    for i in 0..27 {
        out[i] = head_byte(d, block, next, at, i);
    }
}
