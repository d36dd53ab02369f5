// Document 01, Statistics: a record gives the number k of a code's low bits, and each residual updates it.
#![tactic(auto)]

ghost use Rattle.std.specs.Prelude.{◌≡◌, ◌+◌, ◌-◌, ◌≤◌, ◌<◌};
ghost use Rattle.std.specs.Int.Count.{count_leading_zeros};
ghost use Rattle.numbers.specs.Numbers.{least_from};
ghost use Rattle.statistics.specs.Statistics.{enough, k_of, updated, largest_residual};
ghost use Rattle.statistics.specs.Inside.{InRange};

// The sizes of the residuals so far, and their number; both are halved when 64 are counted.
#[repr(C)]
#[derive(Clone, Copy)]
pub struct Record {
    pub sum: u32,
    pub n: u32,
}

// Whether n * 2^k reaches sum. n is not 0, so that a sum of 0 counts as 1.
fn is_enough(sum: u32, n: u32, k: u32) -> bool
    requires { (k < 15) × ((1 ≤ n) × (n ≤ 64)) }
    ensures { result ≡ enough sum n k }
{
    sum <= n << k
}

// How many of the numbers from k to 14 are too small. Where the search ends cannot be foretold, so only every third number may end it; the numbers
// between are counted without a branch.
fn too_small_from(sum: u32, n: u32, k: u32) -> u32
    requires { (k ≤ 15) × ((1 ≤ n) × (n ≤ 64)) }
    ensures { (result + k ≡ least_from (15 - k) (enough sum n) k) × (result + k ≤ 15) }
{
    let mut count: u32 = 0;
    for j in k..15 {
        let enough = is_enough(sum, n, j);
        if enough & (j % 3 == 0) {
            return count;
        }
        count += u32::from(!enough);
    }
    count
}

// By how many binary digits sum is longer than n, 0 where it is not. Both together are as long as the longer one, so that nothing is compared.
fn longer(sum: u32, n: u32) -> u32
    ensures { result ≡ count_leading_zeros 32 n - count_leading_zeros 32 sum }
{
    u32::leading_zeros(n) - u32::leading_zeros(sum | n)
}

impl Record {
    // The k of the record.
    pub fn k(self) -> u32
        requires { (1 ≤ self.n) × (self.n ≤ 64) }
        ensures { (result ≡ k_of self) × (result ≤ 15) }
    {
        too_small_from(self.sum, self.n, 0)
    }

    // The same k, from the lengths of sum and n in binary digits, which determine it but for one.
    // INLINING: the test is added as a number, so that LLVM leaves no branch.
    pub fn k_by_lengths(self) -> u32
        requires { InRange self }
        ensures { (result ≡ k_of self) × (result ≤ 15) }
    {
        let least = longer(self.sum, self.n);
        (least + u32::from(self.n << least < self.sum)).min(15)
    }

    // The record after a residual of that size. `halved` is 1 where both are to be halved, so that there is no branch.
    pub fn update(self, size: u32) -> Record
        requires { InRange self × (size ≤ largest_residual) }
        ensures { (result ≡ updated self size) × InRange result }
    {
        let halved = u32::from(self.n == 64);
        Record {
            sum: (self.sum + size) >> halved,
            n: (self.n >> halved) + 1,
        }
    }
}
