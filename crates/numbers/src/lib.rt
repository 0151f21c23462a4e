// Whole-number code that the step sheet shares: its two quotients, and the whole square root.
#![tactic(auto)]

ghost use Rattle.std.specs.Prelude.{◌≡◌, ◌^◌, ◌≤◌, ◌<◌, pos, ◌≤ℤ◌, ◌<ℤ◌};
ghost use Rattle.numbers.specs.Whole.{◌÷↓◌, ◌÷0◌};
ghost use Rattle.numbers.specs.Root.{WholeRoot};

// a / b with the fraction dropped toward zero: every step that the sheet marks ÷0.
pub fn toward_zero(a: i64, b: i64) -> i64
    requires { pos 0 <ℤ b }
    ensures { result ≡ a ÷0 b }
{
    a / b
}

// a / b down, of numbers not below zero: steps that the sheet marks ÷ (down). The unsigned division is the cheaper one, and by
// `as`, since no `From` goes between signed and unsigned: both fit.
pub fn quotient(a: i64, b: i64) -> i64
    requires { (pos 0 ≤ℤ a) × (pos 0 <ℤ b) }
    ensures { result ≡ a ÷↓ b }
{
    ((a as u64) / (b as u64)) as i64
}

// The whole square root of n, down, by Newton's steps from a first guess. The first step is at or above the root, whatever the guess; from there
// they fall until they stop at it. A near guess saves steps: two or three are enough, where std's `isqrt` takes 32, halving 0 to 2³².
pub fn whole_root(n: u64, guess: u64) -> u64
    requires { (0 < guess) × (guess ≤ n) × (n < 2 ^ 63) }
    ensures { WholeRoot n result }
{
    let mut root = (guess + n / guess) / 2;
    while n / root < root {
        root = (root + n / root) / 2;
    }
    root
}
