// The host's functions of include/bumbazeel.h: thin, over what the bytes that C lends say.
//
// It rests on shared_layouts, planned_layout, state_layout and next_layout for the structs, and on words, completions, beginnings and collection for
// the work. It promises each function's answer and every lent byte afterwards, for all arguments, as an equation with the definitions that
// those crates' contracts cite (specs/Boundary.antt). A damaged state is refused, and what is refused changes nothing (specs/Laws.antt). A
// struct of the header file is an array of its bytes here, an answer and a yes or no are numbers, and a pointer with a length is a slice. No copy or
// data is moved but by the call that serves it.
#![tactic(auto)]

ghost use Rattle.std.specs.Prelude.{◌≡◌};
ghost use Rattle.words.specs.Words.{built_of};
ghost use Rattle.completions.specs.Plan.{plan_of};
ghost use Rattle.collection.specs.Told.{next_told};
ghost use Rattle.collection.specs.Collection.{setup_of};
ghost use Rattle.shared_layouts.specs.Layouts.{caps_of};
ghost use Rattle.planned_layout.specs.Layout.{planned_bytes};
ghost use Rattle.state_layout.specs.Layout.{state_bytes};
ghost use Rattle.next_layout.specs.Layout.{kind_of, next_bytes};
ghost use Rattle.host_boundary.specs.Boundary.{flag_of, words_list, setup_plan, state_after, step_answer, step_at};

use answers::Refusal;
use collection::{Completion, Next, Stepped};
use header::Fields;
use plans::Plan;
use words::Ask;

// Plans a collection from a header, and writes what it says and the number of chunks, or zeros, with 7 what is at fault.
pub fn bumbazeel_plan(
    page: u8,
    area: u8,
    caps: u8,
    chunk: u32,
    room: usize,
    h: &[u8],
    planned: &mut [u8; 160],
) -> u8
    ensures { (result ≡ (plan_of page area (caps_of caps) chunk room h.now).answer)
        × (planned.new ≡ planned_bytes page (plan_of page area (caps_of caps) chunk room h.now)) }
{
    match completions::plan(page, area, shared_layouts::read_caps(caps), chunk, room, h) {
        Ok(x) => {
            let fields = x.fields;
            *planned = planned_layout::write_planned(page, None, fields, x.chunks);
            answers::SUCCESS
        }
        Err(why) => {
            let nothing = Fields::default();
            *planned = planned_layout::write_planned(page, why.fault(), nothing, 0);
            why.number()
        }
    }
}

// Builds the words of a command.
pub fn bumbazeel_words(
    page: u8,
    create: u8,
    mcda: u8,
    rae: u8,
    offset: u32,
    blocks: u32,
    words: &mut [u32; 5],
) -> u8
    ensures { (result ≡ (built_of page (flag_of create) mcda (flag_of rae) offset blocks).answer)
        × (words.new ≡ words_list (built_of page (flag_of create) mcda (flag_of rae) offset blocks).words) }
{
    let create = create != 0;
    let rae = rae != 0;
    let asked = Ask {
        create,
        mcda,
        rae,
        offset,
        blocks,
    };
    let built = words::build(page, asked);
    let w = built.unwrap_or(words::no_words());
    *words = [w.cdw10, w.cdw11, w.cdw12, w.cdw13, w.cdw14];
    answers::number(built)
}

// Begins a collection: writes its state and what follows.
pub fn bumbazeel_setup(
    page: u8,
    create: u8,
    area: u8,
    caps: u8,
    chunk: u32,
    attempts: u32,
    room: usize,
    state: &mut [u8; 56],
    next: &mut [u8; 32],
) -> u8
    ensures { (result ≡ kind_of (setup_of (setup_plan page create area caps chunk attempts room)).next)
        × (state.new ≡ state_bytes (setup_of (setup_plan page create area caps chunk attempts room)).state)
        × (next.new ≡ next_bytes (setup_of (setup_plan page create area caps chunk attempts room)).next) }
{
    let can = shared_layouts::read_caps(caps);
    let x = beginnings::setup(Plan {
        page,
        create: create != 0,
        area,
        chunk,
        attempts,
        room,
        caps: can,
    });
    let told = x.next.numbered();
    *state = state_layout::write_state(x.state);
    *next = next_layout::write_next(told);
    next_layout::kind_of(told)
}

// The state's bytes after a step: those of the next state, or as they were where it refuses.
fn state_after(lent: [u8; 56], x: Stepped) -> [u8; 56]
    ensures { result ≡ state_after lent (kind_of (next_told x.next)) x.state }
{
    match x.next {
        Next::Refuse(_) => lent,
        Next::Send(_) | Next::End(_) => state_layout::write_state(x.state),
    }
}

// Takes a completion: writes the next state, unless it refuses, the copy, and what follows.
pub fn bumbazeel_step(
    state: &mut [u8; 56],
    ok: u8,
    data: &[u8],
    copy: &mut [u8],
    next: &mut [u8; 32],
) -> u8
    ensures { step_answer result state.new copy.new next.new
        ≡ step_at state.old (flag_of ok) «data».now copy.old }
{
    if !state_layout::state_intact(&*state) {
        *next = next_layout::write_next(Next::Refuse(answers::BAD_SETUP));
        return next_layout::REFUSED;
    }
    let x = state_layout::read_state(&*state).step(Completion { ok: ok != 0, data }, copy);
    let told = x.next.numbered();
    *state = state_after(*state, x);
    *next = next_layout::write_next(told);
    next_layout::kind_of(told)
}
