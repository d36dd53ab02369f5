// The records of a plan of bases: text, one record a line, three decimal fields parted by tabs. Each is read, and its base is written.
ghost use Rattle.std.specs.Prelude.{◌≡◌, ◌+◌, ◌≤◌, ◌<◌, length, get_or};
ghost use Rattle.base_plan.specs.Records.{is_digit, number_at, end_of, good_records};
ghost use Rattle.base_plan.specs.Readings.{field_of, FieldInside, row_of, RowInside, Filled, Written};

// The number of some digits, and the place after them.
#[derive(Clone, Copy)]
struct Digits {
    number: u32,
    end: usize,
}

// A field: its number, and where what follows its mark starts.
#[derive(Clone, Copy)]
struct Field {
    number: u32,
    next: usize,
}

// A good record: first line, last line, base, and where the next record starts.
#[derive(Clone, Copy)]
pub struct Row {
    pub first: usize,
    pub last: usize,
    pub base: u32,
    pub next: usize,
}

// The byte at i, 0 past the end.
fn byte(d: &[u8], i: usize) -> u32
    ensures { (result ≡ get_or d.now i 0) × (result < 256) × (1 ≤ result → i < length d.now) }
{
    if i < d.len() {
        return u32::from(d[i]);
    }
    0
}

fn is_digit(b: u32) -> bool
    ensures { result ≡ is_digit b }
{
    (48..=57).contains(&b)
}

// The digits from i on, at most 5.
fn read_digits(d: &[u8], i: usize) -> Digits
    requires { i ≤ length d.now }
    ensures { (result.number ≡ number_at d.now i) × (result.end ≡ end_of d.now i) × (result.end ≤ length d.now) }
{
    let mut number = 0u32;
    for n in 0..5 {
        let b = byte(d, i + n);
        if !is_digit(b) {
            return Digits { number, end: i + n };
        }
        number = number * 10 + (b - 48);
    }
    Digits { number, end: i + 5 }
}

// The field from i on, which ends with a mark; None where there is none.
fn read_field(d: &[u8], i: usize, mark: u32) -> Option<Field>
    requires { (i ≤ length d.now) × (1 ≤ mark) }
    ensures { (result ≡ field_of d.now i mark) × FieldInside d.now i result }
{
    let x = read_digits(d, i);
    let end = x.end;
    if i < end {
        if byte(d, end) == mark {
            return Some(Field {
                number: x.number,
                next: end + 1,
            });
        }
        return None;
    }
    None
}

// The record that starts at i, if it keeps the rules.
pub fn read_row(d: &[u8], i: usize, lines: usize) -> Option<Row>
    requires { i ≤ length d.now }
    ensures { (result ≡ row_of d.now lines i) × RowInside d.now lines i result }
{
    let a = read_field(d, i, 9)?;
    let b = read_field(d, a.next, 9)?;
    let c = read_field(d, b.next, 10)?;
    let first = a.number as usize;
    let last = b.number as usize;
    if limits::is_allowed(lines, first, last, c.number) {
        return Some(Row {
            first,
            last,
            base: c.number,
            next: c.next,
        });
    }
    None
}

// The bytes of all records.
pub fn write_bases(d: &[u8], records: usize, bases: &mut [u8])
    requires { records ≡ good_records d.now (length bases.old) }
    ensures { Written d.now records bases.old bases.new }
{
    let lines = bases.len();
    let mut at = 0usize;
    for _ in 0..records {
        let Some(row) = read_row(d, at, lines) else {
            return;
        };
        bases[row.first..=row.last].fill(row.base as u8);
        at = row.next;
    }
}
