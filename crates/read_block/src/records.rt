// The 336 records, lent as a slice: what they start with, and the sets that passes work on. Only `fetch` and `update` touch an element.
ghost use Rattle.std.specs.Prelude.{◌≡◌, cond, ◌%◌, ◌<◌, ltb, length, get_or, set};
ghost use Rattle.pass_steps.specs.Contexts.{no_record};
ghost use Rattle.pass_steps.specs.Values.{records_of};
ghost use Rattle.pass_steps.specs.Contexts.{Depth};
ghost use Rattle.read_block.specs.Records.{start_record, start_records, restarted_main, set_of, put_set, clear_records};

use pass_steps::Set;
use quantiser::Quantiser;
use statistics::Record;

// What record j starts with.
pub fn start_record(bits: u32, base: u32, j: usize) -> Record
    requires { Depth bits × (base < 256) }
    ensures { result ≡ start_record bits base j }
{
    let place = j % 56;
    if place < 41 {
        let q = Quantiser::main(bits, base);
        return Record {
            sum: q.start_sum(),
            n: 1,
        };
    }
    let q = Quantiser::flat(bits, ((place - 41) / 5 + 1) as u32);
    Record {
        sum: q.start_sum(),
        n: 1,
    }
}

// A record as it is, or what it starts with if it belongs to the main quantiser.
fn restarted_record(old: Record, bits: u32, base: u32, j: usize) -> Record
    requires { Depth bits × (base < 256) }
    ensures { result ≡ cond (ltb (j % 56) 41) (start_record bits base j) old }
{
    if limits::is_flat(j) {
        return old;
    }
    start_record(bits, base, j)
}

pub fn cleared() -> Record
    ensures { result ≡ record { sum = 0; n = 1 } }
{
    Record { sum: 0, n: 1 }
}

fn fetch(rs: &[Record], i: usize) -> Record
    requires { i < length rs.now }
    ensures { result ≡ get_or rs.now i no_record }
{
    rs[i]
}

pub fn update(rs: &mut [Record], i: usize, r: Record)
    requires { i < length rs.old }
    ensures { rs.new ≡ set rs.old i r }
{
    rs[i] = r;
}

// All records start.
pub fn start_records(rs: &mut [Record], bits: u32, base: u32)
    requires { (length rs.old ≡ 336) × (Depth bits × (base < 256)) }
    ensures { rs.new ≡ start_records bits base }
{
    for j in 0..336 {
        let r = start_record(bits, base, j);
        update(rs, j, r);
    }
}

// The main records start anew.
pub fn restart_main(rs: &mut [Record], bits: u32, base: u32)
    requires { (length rs.old ≡ 336) × (Depth bits × (base < 256)) }
    ensures { rs.new ≡ restarted_main bits base rs.old }
{
    for j in 0..336 {
        let old = fetch(rs, j);
        let r = restarted_record(old, bits, base, j);
        update(rs, j, r);
    }
}

// All records as scratch is left.
pub fn clear_records(rs: &mut [Record])
    requires { length rs.old ≡ 336 }
    ensures { rs.new ≡ clear_records }
{
    for j in 0..336 {
        update(rs, j, cleared());
    }
}

// Set g, for a pass.
pub fn load_set(rs: &[Record], g: usize) -> Set
    requires { (length rs.now ≡ 336) × (g < 3) }
    ensures { records_of result ≡ set_of g rs.now }
{
    let mut sums = [0u32; 112];
    let mut ns = [0u32; 112];
    for i in 0..112 {
        let r = fetch(rs, 112 * g + i);
        sums[i] = r.sum;
        ns[i] = r.n;
    }
    Set { sums, ns }
}

// Set g, after a pass.
pub fn store_set(rs: &mut [Record], g: usize, set: Set)
    requires { (length rs.old ≡ 336) × (g < 3) }
    ensures { rs.new ≡ put_set g (records_of set) rs.old }
{
    for i in 0..112 {
        let r = Record {
            sum: set.sums[i],
            n: set.ns[i],
        };
        update(rs, 112 * g + i, r);
    }
}
