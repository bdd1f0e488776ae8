// The month's sheet: exact totals over finished runs. Sheets are added, and the mean is divided once, at the end.
//
// It rests on choices and answers. It promises that another sheet is added to every total exactly, or to none with 20 (specs/Sheets.antt); that
// addition leaves a possible sheet possible (specs/Possible.antt); and that the mean times the good runs, with the rest, is the blocks (specs/Laws.antt).
#![tactic(auto)]

ghost use Rattle.std.specs.Prelude.{◌≡◌};
ghost use Rattle.sheets.specs.Sheets.{blank, outcome, add_of, told, mean_of, possible};
ghost use Rattle.sheets.specs.Steps.{sum_of, runs_summed, summed};

use answers::Refusal;

// The totals: runs by ending (0, 7, 8, 9, 10, 11, 12 and 19), blocks kept, commands sent, failed attempts.
#[derive(Clone, Copy)]
pub struct Sheet {
    pub runs: [u64; 8],
    pub blocks: u64,
    pub commands: u64,
    pub failed: u64,
}

// The mean blocks a good run: its whole part, and what is left of the blocks.
#[derive(Clone, Copy)]
pub struct Mean {
    pub whole: u64,
    pub rest: u64,
}

// The sheet of no run. It is written out, since the must-fail edits none_counts_runs and none_has_commands change a number of it.
impl Default for Sheet {
    ghost is_default = { λ s. s ≡ blank };

    fn default() -> Sheet {
        Sheet {
            runs: [0; 8],
            blocks: 0,
            commands: 0,
            failed: 0,
        }
    }
}

// The sum of two totals; none where it would pass the greatest.
fn sum(a: u64, b: u64) -> Option<u64>
    ensures { result ≡ sum_of a b }
{
    a.checked_add(b)
}

// The same of eight numbers of runs: none where one of the sums would pass it.
fn sum_runs(p: [u64; 8], q: [u64; 8]) -> Option<[u64; 8]>
    ensures { result ≡ runs_summed p q }
{
    let mut r = [0; 8];
    for i in 0..8 {
        r[i] = sum(p[i], q[i])?;
    }
    Some(r)
}

// The same of every total of two sheets.
fn sums(a: Sheet, b: Sheet) -> Option<Sheet>
    ensures { result ≡ summed a b }
{
    let runs = sum_runs(a.runs, b.runs)?;
    let blocks = sum(a.blocks, b.blocks)?;
    let commands = sum(a.commands, b.commands)?;
    let failed = sum(a.failed, b.failed)?;
    Some(Sheet {
        runs,
        blocks,
        commands,
        failed,
    })
}

impl Sheet {
    // Another sheet added to the sheet: the sums, or 20.
    pub fn add(self, other: Sheet) -> Result<Sheet, Refusal>
        ensures { outcome self result ≡ add_of self other }
    {
        sums(self, other).ok_or(Refusal::TotalFull)
    }

    // The mean blocks a good run; none with no good run.
    pub fn mean(self) -> Option<Mean>
        ensures { told result ≡ mean_of self }
    {
        let good = self.runs[0];
        if good == 0 {
            return None;
        }
        Some(Mean {
            whole: self.blocks / good,
            rest: self.blocks % good,
        })
    }

    // Some runs have this sheet.
    pub fn is_possible(self) -> bool
        ensures { result ≡ possible self }
    {
        let n = self.runs;
        let any = n.iter().any(|r| 1 <= *r);
        ((1 <= n[0]) | (self.blocks == 0)) & (any | ((self.commands == 0) & (self.failed == 0)))
    }
}
