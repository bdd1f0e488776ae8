// The host's functions, for C.

ghost use Rattle.std.specs.Prelude.{◌≡◌};
ghost use Rattle.words.specs.Words.{built_of};
ghost use Rattle.completions.specs.Plan.{plan_of};
ghost use Rattle.collection.specs.Collection.{setup_of};
ghost use Rattle.shared_layouts.specs.Layouts.{caps_of};
ghost use Rattle.planned_layout.specs.Layout.{planned_bytes};
ghost use Rattle.state_layout.specs.Layout.{state_bytes};
ghost use Rattle.next_layout.specs.Layout.{kind_of, next_bytes};
ghost use Rattle.host_boundary.specs.Boundary.{flag_of, words_list, setup_plan, step_answer, step_at};

// Plans a collection from a header, and writes what it says and the number of chunks, or zeros, with 7 what is at fault.
#[unsafe(no_mangle)]
pub extern "C" fn bumbazeel_plan(
    page: u8,
    area: u8,
    caps: u8,
    chunk: u32,
    room: usize,
    h: &[u8],
    planned: &mut [u8; 160],
) -> u8
    ensures { (result ≡ (plan_of page area (caps_of caps) chunk room h.now).answer)
        × (planned.new ≡ planned_bytes page (plan_of page area (caps_of caps) chunk room h.now)) }
{
    host_boundary::bumbazeel_plan(page, area, caps, chunk, room, h, planned)
}

// Builds the words of a command.
#[unsafe(no_mangle)]
pub extern "C" fn bumbazeel_words(
    page: u8,
    create: u8,
    mcda: u8,
    rae: u8,
    offset: u32,
    blocks: u32,
    words: &mut [u32; 5],
) -> u8
    ensures { (result ≡ (built_of page (flag_of create) mcda (flag_of rae) offset blocks).answer)
        × (words.new ≡ words_list (built_of page (flag_of create) mcda (flag_of rae) offset blocks).words) }
{
    host_boundary::bumbazeel_words(page, create, mcda, rae, offset, blocks, words)
}

// Begins a collection: writes its state and what follows.
#[unsafe(no_mangle)]
pub extern "C" fn bumbazeel_setup(
    page: u8,
    create: u8,
    area: u8,
    caps: u8,
    chunk: u32,
    attempts: u32,
    room: usize,
    state: &mut [u8; 56],
    next: &mut [u8; 32],
) -> u8
    ensures { (result ≡ kind_of (setup_of (setup_plan page create area caps chunk attempts room)).next)
        × (state.new ≡ state_bytes (setup_of (setup_plan page create area caps chunk attempts room)).state)
        × (next.new ≡ next_bytes (setup_of (setup_plan page create area caps chunk attempts room)).next) }
{
    host_boundary::bumbazeel_setup(page, create, area, caps, chunk, attempts, room, state, next)
}

// Takes a completion: writes the next state, unless it refuses, the copy, and what follows.
#[unsafe(no_mangle)]
pub extern "C" fn bumbazeel_step(
    state: &mut [u8; 56],
    ok: u8,
    data: &[u8],
    copy: &mut [u8],
    next: &mut [u8; 32],
) -> u8
    ensures { step_answer result state.new copy.new next.new
        ≡ step_at state.old (flag_of ok) «data».now copy.old }
{
    host_boundary::bumbazeel_step(state, ok, data, copy, next)
}
