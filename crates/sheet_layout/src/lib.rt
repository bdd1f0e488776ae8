// The month's sheet as the bytes of struct bumbazeel_sheet: written, read, and not damaged; and the mean as those of struct bumbazeel_mean.
//
// It rests on choices, copies, littleendian, arrays and sheets. It promises that a sheet is written to and read from exactly the bytes of
// specs/Layout.antt, whatever they are, that a sheet that some runs have is intact when written and reads back to what it was, that intact bytes are those of the
// sheet that they say, and that the check finds any one number changed (specs/Back.antt).
#![tactic(auto)]

ghost use Rattle.std.specs.Prelude.{◌≡◌};
ghost use Rattle.sheets.specs.Sheets.{told};
ghost use Rattle.sheet_layout.specs.Layout.{check_of, sheet_bytes, sheet_at, sheet_intact, mean_bytes};

use littleendian::LittleEndian;
use sheets::Sheet;

// The bytes "BZSHEET1", as a number.
const MARK: u64 = 0x3154454548535A42;

// The mark and the totals added, modulo 2^64. One chain over all eleven is slower: 51 ns an entered run, where this takes 21.
fn check_of(s: Sheet) -> u64
    ensures { result ≡ check_of s }
{
    let n = s.runs;
    let runs = n.iter().fold(MARK, |sum, total| sum.wrapping_add(*total));
    runs.wrapping_add(s.blocks)
        .wrapping_add(s.commands)
        .wrapping_add(s.failed)
}

// A sheet's bytes.
pub fn write_sheet(s: Sheet) -> [u8; 104]
    ensures { result ≡ sheet_bytes s }
{
    let mut out = [0u8; 104];
    MARK.put_le(&mut out, 0);
    arrays::put_all(&mut out, 8, &s.runs);
    s.blocks.put_le(&mut out, 72);
    s.commands.put_le(&mut out, 80);
    s.failed.put_le(&mut out, 88);
    check_of(s).put_le(&mut out, 96);
    out
}

// The sheet that the bytes say.
pub fn read_sheet(b: &[u8; 104]) -> Sheet
    ensures { result ≡ sheet_at b.now }
{
    let runs = arrays::all_at(b, 8);
    Sheet {
        runs,
        blocks: u64::value_at(b, 72),
        commands: u64::value_at(b, 80),
        failed: u64::value_at(b, 88),
    }
}

// A sheet's bytes are not damaged.
pub fn sheet_intact(b: &[u8; 104]) -> bool
    ensures { result ≡ sheet_intact b.now }
{
    let s = read_sheet(b);
    let mark = u64::value_at(b, 0);
    let check = u64::value_at(b, 96);
    (mark == MARK) & (check == check_of(s)) & s.is_possible()
}

// A mean's bytes. Its three numbers are the C interface's: also of a mean that is not given, `mean_bytes` has each.
pub fn write_mean(given: bool, whole: u64, rest: u64) -> [u8; 24]
    ensures { result ≡ mean_bytes (record { given = given; whole = whole; rest = rest }) }
{
    let mut out = [0u8; 24];
    (given as u64).put_le(&mut out, 0);
    whole.put_le(&mut out, 8);
    rest.put_le(&mut out, 16);
    out
}
