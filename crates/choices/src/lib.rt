// Choosing between two values by a call, where a branch would split a proof.
//
// It rests on nothing. It promises that each choice is that of specs/Choice.antt. Its definitions are the words that all others are written in: `pick`,
// `first_that` and `smaller` (specs/Choice.antt), and a row of tests (specs/Tests.antt).
#![tactic(auto)]

ghost use Rattle.std.specs.Prelude.{◌≡◌};
ghost use Rattle.choices.specs.Choice.{pick, smaller, larger};

// `yes` where the test holds, else `no`.
pub fn pick<T: Copy>(t: bool, yes: T, no: T) -> T
    ensures { result ≡ pick t yes no }
{
    if t { yes } else { no }
}

// The smaller of two numbers. Code takes the library's `min` and `max`: these two stand since docs/PROMISES.md names them, and four must-fail edits turn what they
// answer.
pub fn smaller_u32(a: u32, b: u32) -> u32
    ensures { result ≡ smaller a b }
{
    a.min(b)
}

// The larger of two numbers.
pub fn larger_u32(a: u32, b: u32) -> u32
    ensures { result ≡ larger a b }
{
    a.max(b)
}
