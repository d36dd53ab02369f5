// What is known before a block is written: the bound of its length, the sheet of short codes, and plans of bases.
ghost use Rattle.std.specs.Prelude.{◌≡◌};
ghost use Rattle.stream.specs.Headers.{parse_of};
ghost use Rattle.stream.specs.Lengths.{bound_answer, length_word};
ghost use Rattle.stream.specs.Refusals.{refusal_in};
ghost use Rattle.fuji_compressed.specs.Planning.{ToldSheet, ToldPlan};

// The length that no tight block under a header exceeds.
#[unsafe(no_mangle)]
pub extern "C" fn fuji_length_bound(header: &[u8], size: &mut [usize; 1], refusal: &mut [usize; 4])
    ensures { let answer = bound_answer (parse_of header.now) in
        (size.new ≡ length_word answer) × (refusal.new ≡ refusal_in answer) }
{
    let x = stream::length_bound(header);
    *size = stream::length_word(x);
    *refusal = stream::refusal_in(&x);
}

// The sheet of short codes. The count is that of the sheet; a list that is shorter is left as it was.
#[unsafe(no_mangle)]
pub extern "C" fn fuji_short_codes(
    depth: u32,
    k: u32,
    longest: u32,
    list: &mut [u32],
    count: &mut [usize; 1],
    refusal: &mut [usize; 4],
)
    ensures { ToldSheet depth k longest list.old list.new count.new refusal.new }
{
    let x = short_codes::short_codes(depth, k, longest, list);
    *count = stream::length_word(x);
    *refusal = stream::refusal_in(&x);
}

// The bases of a lossy header's lines, as a plan says.
#[unsafe(no_mangle)]
pub extern "C" fn fuji_plan_bases(
    header: &[u8],
    plan: &[u8],
    bases: &mut [u8],
    refusal: &mut [usize; 4],
)
    ensures { ToldPlan header.now plan.now bases.old bases.new refusal.new }
{
    let x = base_plan::plan_bases(header, plan, bases);
    *refusal = stream::refusal_in(&x);
}
