// The sheet's functions, for C.

ghost use Rattle.std.specs.Prelude.{◌≡◌};
ghost use Rattle.sheets.specs.Sheets.{blank};
ghost use Rattle.sheet_layout.specs.Layout.{sheet_bytes, mean_bytes};
ghost use Rattle.sheet_boundary.specs.Boundary.{run_of, enter_at, add_at, bytes_after, mean_answer, mean_at};

// Writes a sheet with no run entered.
#[unsafe(no_mangle)]
pub extern "C" fn bumbazeel_new_sheet(sheet: &mut [u8; 104])
    ensures { sheet.new ≡ sheet_bytes blank }
{
    sheet_boundary::bumbazeel_new_sheet(sheet)
}

// Enters a finished run: how it ended, the blocks kept, the commands sent and the failed attempts.
#[unsafe(no_mangle)]
pub extern "C" fn bumbazeel_enter(
    sheet: &mut [u8; 104],
    ending: u8,
    kept: u64,
    sent: u64,
    failed: u64,
) -> u8
    ensures { (result ≡ (enter_at sheet.old (run_of ending kept sent failed)).answer)
        × (sheet.new ≡ bytes_after sheet.old (enter_at sheet.old (run_of ending kept sent failed))) }
{
    sheet_boundary::bumbazeel_enter(sheet, ending, kept, sent, failed)
}

// Adds another sheet.
#[unsafe(no_mangle)]
pub extern "C" fn bumbazeel_add(sheet: &mut [u8; 104], more: &[u8; 104]) -> u8
    ensures { (result ≡ (add_at sheet.old more.now).answer)
        × (sheet.new ≡ bytes_after sheet.old (add_at sheet.old more.now)) }
{
    sheet_boundary::bumbazeel_add(sheet, more)
}

// The mean blocks a good run.
#[unsafe(no_mangle)]
pub extern "C" fn bumbazeel_mean(sheet: &[u8; 104], mean: &mut [u8; 24]) -> u8
    ensures { (result ≡ mean_answer sheet.now)
        × (mean.new ≡ mean_bytes (mean_at sheet.now)) }
{
    sheet_boundary::bumbazeel_mean(sheet, mean)
}
