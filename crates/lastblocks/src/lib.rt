// The four last blocks of a page's areas, as one group by value: their rule, area by area, whether two groups are the same, and the greatest of one.
//
// It rests on choices and pages. It promises that each answer is that of specs/LastBlocks.antt for any four numbers, and what the rule says of them (specs/Rule.antt).
#![tactic(auto)]

ghost use Rattle.std.specs.Prelude.{◌≡◌, get_or};
ghost use Rattle.lastblocks.specs.LastBlocks.{area2_ok, area3_ok, area4_ok, last_ok, same_last, greatest_of};

// Area 2's last block keeps the rule: area 1 does not end behind it.
pub fn area2_ok(a: [u32; 4]) -> bool
    ensures { result ≡ area2_ok a }
{
    a[0] <= a[1]
}

// Area 3's last block keeps the rule: area 2 does not end behind it, and it is two bytes wide.
pub fn area3_ok(a: [u32; 4]) -> bool
    ensures { result ≡ area3_ok a }
{
    (a[1] <= a[2]) & (a[2] <= pages::MOST_3)
}

// Area 4's last block keeps the rule for the DA4S given.
pub fn area4_ok(da4s: bool, a: [u32; 4]) -> bool
    ensures { result ≡ area4_ok da4s (get_or a 2 0) (get_or a 3 0) }
{
    let a3 = a[2];
    let a4 = a[3];
    choices::pick(
        da4s,
        (a3 <= a4) & (a4 <= pages::MOST_4) & ((a4 == 0) | (0 < a3)),
        a4 == 0,
    )
}

// The four last blocks keep the rule for the DA4S given.
#[tactic(auto, unfolding(crate::specs::LastBlocks::last_ok, choices::specs::Tests::holds))]
pub fn last_ok(da4s: bool, a: [u32; 4]) -> bool
    ensures { result ≡ last_ok da4s a }
{
    area2_ok(a) & area3_ok(a) & area4_ok(da4s, a)
}

// Whether all four are the same, one by one. It stands beside `==` of the arrays, since docs/PROMISES.md names it, and two must-fail edits each change one comparison:
// with `==` in its body the proof refused the right numbers in their place too.
#[tactic(auto, unfolding(crate::specs::LastBlocks::same_last, choices::specs::Tests::holds))]
pub fn same_last(a: [u32; 4], b: [u32; 4]) -> bool
    ensures { result ≡ same_last a b }
{
    (a[0] == b[0]) & (a[1] == b[1]) & (a[2] == b[2]) & (a[3] == b[3])
}

// The greatest of the four, written out, since two must-fail edits each change one place of it.
#[tactic(auto, unfolding(crate::specs::LastBlocks::greatest_of))]
pub fn greatest(a: [u32; 4]) -> u32
    ensures { result ≡ greatest_of a }
{
    a[0].max(a[1].max(a[2].max(a[3])))
}
