// Runs on the month's sheet: a finished run is made a sheet of that run alone and added.
//
// It rests on choices, answers and sheets. It promises that a run is added to every total exactly, or to none with 13 or 20 (specs/Entries.antt);
// that a sheet is the exact totals of the runs that were taken, in any order where none is refused, and two sheets added those of the runs taken on
// both (specs/Laws.antt); and that the possible sheets are just those that entering some runs leaves (specs/Reached.antt).
#![tactic(auto)]

ghost use Rattle.std.specs.Prelude.{◌≡◌};
ghost use Rattle.answers.specs.Answers.{result_number};
ghost use Rattle.sheets.specs.Sheets.{outcome};
ghost use Rattle.entries.specs.Entries.{enter_of};
ghost use Rattle.entries.specs.Steps.{place_among, place_of, alone};

use answers::Refusal;
use sheets::Sheet;

// A finished run: the number of its ending, the blocks kept, the commands sent and the attempts that failed.
// The ending is any number, since C may enter any, and the theorem no_endings speaks of those that no run has.
#[derive(Clone, Copy)]
pub struct Run {
    pub ending: u8,
    pub blocks: u64,
    pub commands: u64,
    pub failed: u64,
}

// The endings that a run has, in the order in which a sheet counts their runs.
const ENDINGS: [u8; 8] = [
    answers::SUCCESS,
    answers::BAD_HEADER,
    answers::NO_ROOM,
    answers::ATTEMPTS_USED_UP,
    answers::WITHDRAWN,
    answers::NOTHING,
    answers::BROKE_ITS_WORD,
    answers::OUT_OF_REACH,
];

// The place of an ending among them; none of a number that is no ending of a run.
fn place_among(ending: u8) -> Option<usize>
    ensures { result ≡ place_among ending }
{
    ENDINGS.iter().position(|e| *e == ending)
}

// Where a run is counted. None of a run that cannot be: it has an ending that a run has, and blocks with 0 alone.
fn place_of(run: Run) -> Option<usize>
    ensures { result ≡ place_of run }
{
    let place = place_among(run.ending)?;
    ((run.ending == answers::SUCCESS) | (run.blocks == 0)).then_some(place)
}

// The sheet of one run, or 13 for a run that cannot be.
impl TryFrom<Run> for Sheet {
    type Error = Refusal;

    ghost try_from_gives = { λ run sheet. sheet ≡ alone run };

    fn try_from(run: Run) -> Result<Sheet, Refusal> {
        let place = place_of(run).ok_or(Refusal::BadSetup)?;
        let mut runs = [0; 8];
        runs[place] = 1;
        Ok(Sheet {
            runs,
            blocks: run.blocks,
            commands: run.commands,
            failed: run.failed,
        })
    }
}

// A run added to the sheet: what adding the sheet of that run gives, or 13.
pub fn add_run(sheet: Sheet, run: Run) -> Result<Sheet, Refusal>
    ensures { outcome sheet result ≡ enter_of sheet run }
{
    sheet.add(Sheet::try_from(run)?)
}

// Enters a run into the sheet that is lent: with a refusal it stays as it was.
pub fn enter(sheet: &mut Sheet, run: Run) -> Result<(), Refusal>
    ensures { (result_number result ≡ (enter_of sheet.old run).answer)
        × (sheet.new ≡ (enter_of sheet.old run).sheet) }
{
    *sheet = add_run(*sheet, run)?;
    Ok(())
}
