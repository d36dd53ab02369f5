// How the writer's calls begin.
ghost use Rattle.std.specs.Prelude.{◌≡◌};
ghost use Rattle.colour_lines.specs.Sets.{set_size};
ghost use Rattle.image_map.specs.Places.{width_of};
ghost use Rattle.admission.specs.Writings.{with_count, with_set, writing_begins, with_bases, lossy_begins};

use stream::{FujiHeader, Refusal};

// How many samples a set has under this header.
pub fn set_size(h: FujiHeader) -> usize
    ensures { result ≡ set_size (width_of h.xtrans) h.lines }
{
    let lines = h.lines as usize;
    lines * (12 * image_map::width(h.xtrans))
}

fn set_in(
    h: FujiHeader,
    count: usize,
    samples: usize,
    records: usize,
) -> Result<FujiHeader, Refusal>
    ensures { result ≡ with_count h count samples records }
{
    if count != set_size(h) {
        return Err(Refusal::WrongCount);
    }
    crate::with_scratch(h, samples, records)
}

fn writing_in(
    h: FujiHeader,
    count: usize,
    samples: usize,
    records: usize,
) -> Result<FujiHeader, Refusal>
    ensures { result ≡ with_set h count samples records }
{
    let lossless = h.lossless;
    if !lossless {
        return Err(Refusal::Lossy);
    }
    set_in(h, count, samples, records)
}

// The writer, for a set of so many samples. Of the header the first 16 bytes count.
pub fn writing_begins(
    header: &[u8],
    count: usize,
    samples: usize,
    records: usize,
) -> Result<FujiHeader, Refusal>
    ensures { result ≡ writing_begins header.now count samples records }
{
    let h = FujiHeader::parse(header)?;
    writing_in(h, count, samples, records)
}

fn lossy_in(
    h: FujiHeader,
    bases: usize,
    count: usize,
    samples: usize,
    records: usize,
) -> Result<FujiHeader, Refusal>
    ensures { result ≡ with_bases h bases count samples records }
{
    let lossless = h.lossless;
    let lines = h.lines as usize;
    if lossless {
        return Err(Refusal::Lossless);
    }
    if bases != lines {
        return Err(Refusal::WrongBases);
    }
    set_in(h, count, samples, records)
}

// The lossy writer, for a set of so many samples and so many bases.
pub fn lossy_begins(
    header: &[u8],
    bases: usize,
    count: usize,
    samples: usize,
    records: usize,
) -> Result<FujiHeader, Refusal>
    ensures { result ≡ lossy_begins header.now bases count samples records }
{
    let h = FujiHeader::parse(header)?;
    lossy_in(h, bases, count, samples, records)
}
