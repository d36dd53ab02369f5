// Document 01, Prediction: the prediction of a sample from its neighbours, with the two differences that pick its record.
#![tactic(auto)]

ghost use Rattle.std.specs.Prelude.{◌≡◌, ◌+◌, ◌*◌, ◌^◌, ◌≤◌, ◌<◌};
ghost use Rattle.prediction.specs.Predictions.{dropped_of, even_prediction, extreme, odd_prediction, even_context, odd_context, flatness_of};
ghost use Rattle.prediction.specs.Inside.{ContextRanges};

use numbers::Signed;

// All that a sample's coding goes by.
#[derive(Clone, Copy)]
pub struct Context {
    pub prediction: u32,
    pub first: Signed,
    pub second: Signed,
}

// The one of rf, rc and rd that is left out; f, c and d are their distances from rb. Which one it is cannot be foretold, so there is no branch.
fn dropped(rf: u32, rc: u32, rd: u32, f: u32, c: u32, d: u32) -> u32
    ensures { (result ≡ dropped_of rf rc rd f c d) × (result ≤ rf + rc + rd) }
{
    let first = numbers::pick(f < c, rc, rf);
    let second = numbers::pick(f < d, rd, rf);
    let other = numbers::pick(c < d, second, rf);
    numbers::pick(d < c, first, other)
}

fn even_prediction(rf: u32, rc: u32, rb: u32, rd: u32) -> u32
    requires { (rf < 2 ^ 16) × ((rc < 2 ^ 16) × ((rb < 2 ^ 16) × (rd < 2 ^ 16))) }
    ensures { (result ≡ even_prediction rf rc rb rd) × (result < 2 ^ 16) }
{
    // INLINING: in the order of the context's difference, so that LLVM computes the distance once.
    let f = rb.abs_diff(rf);
    let c = rc.abs_diff(rb);
    let d = rd.abs_diff(rb);
    (rf + rc + rd - dropped(rf, rc, rd, f, c, d) + 2 * rb) / 4
}

// The context of a sample at an even position.
pub fn even(rf: u32, rc: u32, rb: u32, rd: u32) -> Context
    requires { (rf < 2 ^ 16) × ((rc < 2 ^ 16) × ((rb < 2 ^ 16) × (rd < 2 ^ 16))) }
    ensures { (result ≡ even_context rf rc rb rd) × ContextRanges result }
{
    Context {
        prediction: even_prediction(rf, rc, rb, rd),
        first: numbers::difference(rb, rf),
        second: numbers::difference(rc, rb),
    }
}

fn is_extreme(rb: u32, rc: u32, rd: u32) -> bool
    ensures { result ≡ extreme rb rc rd }
{
    ((rc < rb) & (rd < rb)) | ((rb < rc) & (rb < rd))
}

fn odd_prediction(ra: u32, rg: u32, rb: u32, rc: u32, rd: u32) -> u32
    requires { (ra < 2 ^ 16) × ((rg < 2 ^ 16) × (rb < 2 ^ 16)) }
    ensures { (result ≡ odd_prediction ra rg rb rc rd) × (result < 2 ^ 16) }
{
    let beyond = (ra + rg + 2 * rb) / 4;
    numbers::pick(is_extreme(rb, rc, rd), beyond, (ra + rg) / 2)
}

// The context of a sample at an odd position.
pub fn odd(ra: u32, rg: u32, rb: u32, rc: u32, rd: u32) -> Context
    requires { (ra < 2 ^ 16) × ((rg < 2 ^ 16) × ((rb < 2 ^ 16) × (rc < 2 ^ 16))) }
    ensures { (result ≡ odd_context ra rg rb rc rd) × ContextRanges result }
{
    Context {
        prediction: odd_prediction(ra, rg, rb, rc, rd),
        first: numbers::difference(rb, rc),
        second: numbers::difference(rc, ra),
    }
}

impl Context {
    // How far the two differences reach together.
    pub fn flatness(self) -> u32
        requires { ContextRanges self }
        ensures { result ≡ flatness_of self }
    {
        self.first.size + self.second.size
    }
}
