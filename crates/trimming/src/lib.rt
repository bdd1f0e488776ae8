// Trimming: the greatest area that a capture keeps of a candidate, and the four last blocks that it stores of the candidate's.
//
// It rests on choices, pages and lastblocks. It promises that each answer is that of specs/Trimming.antt for any numbers, and that trimming a candidate
// whose numbers are in order gives last blocks that keep the rule (specs/Trimmed.antt).
#![tactic(auto)]

ghost use Rattle.std.specs.Prelude.{◌≡◌};
ghost use Rattle.trimming.specs.Trimming.{top_of, trimmed_to, trim_of};

use pages::Caps;

// The greatest area that a capture keeps. A capture on 08h has no MCDA, which is as MCDA 0.
pub fn top(caps: Caps, mcda: u32) -> u32
    ensures { result ≡ top_of caps mcda }
{
    let m = choices::pick(caps.da4s & caps.etdas, 4, 3);
    choices::pick(caps.mcdas & (1 <= mcda) & (mcda <= 4), mcda.min(m), m)
}

#[tactic(auto, unfolding(crate::specs::Trimming::trimmed_to))]
fn trimmed_to(da4s: bool, m: u32, a: [u32; 4]) -> [u32; 4]
    ensures { result ≡ trimmed_to da4s m a }
{
    [
        pages::last_of(m.min(1), a),
        pages::last_of(m.min(2), a),
        pages::last_of(m.min(3), a),
        choices::pick(da4s, pages::last_of(m.min(4), a), 0),
    ]
}

// The four last blocks that a capture stores of a candidate's.
#[tactic(auto, unfolding(crate::specs::Trimming::trim_of))]
pub fn trim(caps: Caps, mcda: u32, a: [u32; 4]) -> [u32; 4]
    ensures { result ≡ trim_of caps mcda a }
{
    trimmed_to(caps.da4s, top(caps, mcda), a)
}
