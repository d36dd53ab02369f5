// Document 01, Pass and line: the six passes of a line, the order of their samples, and which positions have no code.
#![tactic(auto)]

ghost use Rattle.std.specs.Prelude.{◌≡◌, true, false, not, ◌/◌, ◌%◌, ◌<◌, get_or};
ghost use Rattle.pass_schedule.specs.Inside.{rule_of, evens_of};
ghost use Rattle.pass_schedule.specs.Steps.{interpolated, plan_of, is_interpolated};

// Which even positions p of a line are interpolated, and so have no code: none, those with p mod 4 = 0, those with p mod 4 = 2, or all.
#[derive(Clone, Copy)]
pub enum Rule {
    Nowhere,
    At0Mod4,
    At2Mod4,
    Everywhere,
}

// The rule of a number, counted from 0 in the order above; 3 and each number past it is the last.
impl From<u32> for Rule {
    ghost from_gives = { λ n rule. rule ≡ rule_of n };

    fn from(number: u32) -> Self {
        match number {
            0 => Rule::Nowhere,
            1 => Rule::At0Mod4,
            2 => Rule::At2Mod4,
            _ => Rule::Everywhere,
        }
    }
}

// A pass: the numbers of its two colour lines, its statistics set, and the rule of each line.
#[derive(Clone, Copy)]
pub struct Plan {
    pub first: usize,
    pub second: usize,
    pub set: usize,
    pub first_rule: Rule,
    pub second_rule: Rule,
}

const PASSES: [Plan; 6] = [
    Plan {
        first: 2,
        second: 7,
        set: 0,
        first_rule: Rule::Everywhere,
        second_rule: Rule::Nowhere,
    },
    Plan {
        first: 8,
        second: 15,
        set: 1,
        first_rule: Rule::Nowhere,
        second_rule: Rule::Everywhere,
    },
    Plan {
        first: 3,
        second: 9,
        set: 2,
        first_rule: Rule::At0Mod4,
        second_rule: Rule::Everywhere,
    },
    Plan {
        first: 10,
        second: 16,
        set: 0,
        first_rule: Rule::Nowhere,
        second_rule: Rule::At2Mod4,
    },
    Plan {
        first: 4,
        second: 11,
        set: 1,
        first_rule: Rule::At2Mod4,
        second_rule: Rule::Nowhere,
    },
    Plan {
        first: 12,
        second: 17,
        set: 2,
        first_rule: Rule::Everywhere,
        second_rule: Rule::At0Mod4,
    },
];

// Pass i of a line.
pub fn plan_at(i: usize, xtrans: bool) -> Plan
    requires { i < 6 }
    ensures { result ≡ plan_of xtrans i }
{
    let p = PASSES[i];
    if xtrans {
        return p;
    }
    Plan {
        first_rule: Rule::Nowhere,
        second_rule: Rule::Nowhere,
        ..p
    }
}

// Whether an even position p has a code, by the rule of its line.
pub fn has_code(rule: Rule, p: usize) -> bool
    ensures { result ≡ not (interpolated rule p) }
{
    match rule {
        Rule::Nowhere => true,
        Rule::At0Mod4 => p % 4 != 0,
        Rule::At2Mod4 => p % 4 != 2,
        Rule::Everywhere => false,
    }
}

// Whether the even positions of a line have codes: first those with p mod 4 = 0, then those with p mod 4 = 2.
#[derive(Clone, Copy)]
pub struct EvenCodes(pub [bool; 2]);

// Those of a line with that rule.
// INLINING: asked before the loop over positions. In the loop LLVM would make a table of jumps of the rules, and what lies
// in registers would go to memory around it.
pub fn even_codes(rule: Rule) -> EvenCodes
    ensures { result.0 ≡ evens_of rule }
{
    EvenCodes([has_code(rule, 0), has_code(rule, 2)])
}

impl EvenCodes {
    // Whether an even position p has a code.
    pub fn at(&self, p: usize) -> bool
        ensures { result ≡ get_or self.now.0 (p / 2 % 2) false }
    {
        self.0[p / 2 % 2]
    }
}

// Whether X-Trans interpolates position p of a colour line.
pub fn is_interpolated(line: usize, p: usize) -> bool
    ensures { result ≡ is_interpolated true line p }
{
    ((p % 2 == 0) & ((line == 2) | (line == 15) | (line == 9) | (line == 12)))
        | ((p % 4 == 0) & ((line == 3) | (line == 17)))
        | ((p % 4 == 2) & ((line == 16) | (line == 4)))
}
