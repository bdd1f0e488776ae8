// The sheet's functions of include/bumbazeel.h: thin, over what the bytes that C lends say.
//
// It rests on sheet_layout for the structs and on sheets and entries for the work. It promises each function's answer and every lent byte afterwards, for all
// arguments, as an equation with the definitions that those crates' contracts cite (specs/Boundary.antt). A damaged sheet is refused, what is refused
// changes no byte, and what is written can be lent again (specs/Laws.antt). The numbers and bytes of their arguments and answers are the C interface.
#![tactic(auto)]

ghost use Rattle.std.specs.Prelude.{◌≡◌};
ghost use Rattle.answers.specs.Answers.{result_number};
ghost use Rattle.sheets.specs.Sheets.{blank, outcome};
ghost use Rattle.sheet_layout.specs.Layout.{sheet_bytes, sheet_at, mean_bytes};
ghost use Rattle.sheet_boundary.specs.Boundary.{run_of, enter_at, add_at, bytes_after, mean_answer, mean_at};
ghost use Rattle.sheet_boundary.specs.Steps.{sheet_of};

use answers::Refusal;
use entries::Run;
use sheets::Sheet;

// The sheet that the bytes say, unless they are damaged.
fn sheet_of(lent: &[u8; 104]) -> Result<Sheet, Refusal>
    ensures { result ≡ sheet_of lent.now }
{
    if sheet_layout::sheet_intact(lent) {
        Ok(sheet_layout::read_sheet(lent))
    } else {
        Err(Refusal::BadSetup)
    }
}

// A run entered into the sheet that the bytes say, unless they are damaged.
fn enter_at(lent: &[u8; 104], run: Run) -> Result<Sheet, Refusal>
    ensures { outcome (sheet_at lent.now) result ≡ enter_at lent.now run }
{
    entries::add_run(sheet_of(lent)?, run)
}

// The sheet that other bytes say added to it, unless either are damaged.
fn add_at(lent: &[u8; 104], more: &[u8; 104]) -> Result<Sheet, Refusal>
    ensures { outcome (sheet_at lent.now) result ≡ add_at lent.now more.now }
{
    let sheet = sheet_of(lent)?;
    let second = sheet_of(more)?;
    sheet.add(second)
}

// The answer's number; with 0 the new sheet is written over the one that was lent, which else stays as it was.
fn settled(lent: &mut [u8; 104], entered: Result<Sheet, Refusal>) -> u8
    ensures { (result ≡ result_number entered)
        × (lent.new ≡ bytes_after lent.old (outcome (sheet_at lent.old) entered)) }
{
    if let Ok(after) = entered {
        *lent = sheet_layout::write_sheet(after);
    }
    answers::number(entered)
}

// Writes a sheet with no run entered.
pub fn bumbazeel_new_sheet(sheet: &mut [u8; 104])
    ensures { sheet.new ≡ sheet_bytes blank }
{
    *sheet = sheet_layout::write_sheet(Sheet::default());
}

// Enters a finished run: how it ended, the blocks kept, the commands sent and the failed attempts.
#[tactic(auto, unfolding(crate::specs::Boundary::enter_at))]
pub fn bumbazeel_enter(sheet: &mut [u8; 104], ending: u8, kept: u64, sent: u64, failed: u64) -> u8
    ensures { (result ≡ (enter_at sheet.old (run_of ending kept sent failed)).answer)
        × (sheet.new ≡ bytes_after sheet.old (enter_at sheet.old (run_of ending kept sent failed))) }
{
    let run = Run {
        ending,
        blocks: kept,
        commands: sent,
        failed,
    };
    let entered = enter_at(sheet, run);
    settled(sheet, entered)
}

// Adds another sheet.
#[tactic(auto, unfolding(crate::specs::Boundary::add_at))]
pub fn bumbazeel_add(sheet: &mut [u8; 104], more: &[u8; 104]) -> u8
    ensures { (result ≡ (add_at sheet.old more.now).answer)
        × (sheet.new ≡ bytes_after sheet.old (add_at sheet.old more.now)) }
{
    let added = add_at(sheet, more);
    settled(sheet, added)
}

// The mean blocks a good run.
pub fn bumbazeel_mean(sheet: &[u8; 104], mean: &mut [u8; 24]) -> u8
    ensures { (result ≡ mean_answer sheet.now)
        × (mean.new ≡ mean_bytes (mean_at sheet.now)) }
{
    match sheet_of(sheet) {
        Ok(intact) => {
            *mean = match intact.mean() {
                Some(m) => sheet_layout::write_mean(true, m.whole, m.rest),
                None => sheet_layout::write_mean(false, 0, 0),
            };
            answers::SUCCESS
        }
        Err(refusal) => {
            *mean = [0; 24];
            refusal.number()
        }
    }
}
