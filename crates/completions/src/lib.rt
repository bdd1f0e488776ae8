// What is seen of a completion's data, and the plan that a header gives.
//
// It rests on choices, copies, littleendian, arrays, answers, pages, lastblocks, header, plans and phases. It promises what is planned from any bytes (specs/Plan.antt), and what is looked
// at in any data in any phase, a first header by that very plan (specs/Completions.antt). One check decodes a header wherever it is judged, and no other
// crate can call it; the page's generation is a byte by itself, since an acknowledgement's is judged though nobody checks the rest.
#![tactic(auto)]

ghost use Rattle.std.specs.Prelude.{◌≡◌, length};
ghost use Rattle.pages.specs.Pages.{block};
ghost use Rattle.header.specs.Header.{fields_of, field_fault, checked_by, check_of, checked};
ghost use Rattle.plans.specs.Plans.{chunks_from};
ghost use Rattle.completions.specs.declared.NoPlan.TheVariants.{BadHeader, Refused};
ghost use Rattle.completions.specs.Plan.{why_number, why_fault, plan_of, planned};
ghost use Rattle.completions.specs.Completions.{generation_of, planned_seen, seen_of, no_seen, look_by};

use answers::Refusal;
use header::{Fault, Fields};
use littleendian::LittleEndian;
use pages::Caps;
use phases::Phase;
use plans::Plan;

// What a plan from a header gives: what the header says, and the number of chunks that bring the wanted area.
#[derive(Clone, Copy)]
pub struct Planned {
    pub fields: Fields,
    pub chunks: u32,
}

// Why a header gives no plan: it is bad, and by what; or setup or its area is refused.
#[derive(Clone, Copy, PartialEq, Eq)]
pub enum NoPlan {
    BadHeader(Fault),
    Refused(Refusal),
}

impl NoPlan {
    // The paper's number of why there is no plan.
    pub fn number(self) -> u8
        ensures { result ≡ why_number self }
    {
        match self {
            NoPlan::BadHeader(_) => answers::BAD_HEADER,
            NoPlan::Refused(refusal) => refusal.number(),
        }
    }

    // What is at fault in the header: nothing but in a bad one.
    pub fn fault(self) -> Option<Fault>
        ensures { result ≡ why_fault self }
    {
        match self {
            NoPlan::BadHeader(fault) => Some(fault),
            NoPlan::Refused(_) => None,
        }
    }
}

impl From<Fault> for NoPlan {
    ghost from_gives = { λ fault e. e ≡ BadHeader fault };

    fn from(fault: Fault) -> NoPlan {
        NoPlan::BadHeader(fault)
    }
}

impl From<Refusal> for NoPlan {
    ghost from_gives = { λ refusal e. e ≡ Refused refusal };

    fn from(refusal: Refusal) -> NoPlan {
        NoPlan::Refused(refusal)
    }
}

// What is looked at in a completion's data: of a first header what its plan answers, of any other data 0; what is at fault in the header, its TCDA and
// last blocks, which are zeros if it is refused; and the page's own generation byte, as it stands.
#[derive(Clone, Copy)]
pub struct Seen {
    // A number, since `judgement::judge` and `Collection::decide` promise what follows any, with any fault beside it or none.
    pub answer: u8,
    pub fault: Option<Fault>,
    pub tcda: u8,
    pub generation: u8,
    pub last: [u32; 4],
}

// ---- the check inside

// The fields in a header's bytes, asked for as this page. Its numbers of two and three bytes are parts of numbers of four.
fn fields_of(page: u8, h: &[u8]) -> Fields
    requires { length h.now ≡ block }
    ensures { result ≡ fields_of page h.now }
{
    let host = page == pages::HOST;
    let second = h[381];
    let oui = u32::value_at(h, 4) / 256;
    let areas12 = u32::value_at(h, 8);
    let area3 = u32::value_at(h, 12) % 65536;
    let area4 = u32::value_at(h, 16);
    let last = [areas12 % 65536, areas12 / 65536, area3, area4];
    let reason = arrays::reason_at(h, 384);
    Fields {
        page: h[0],
        oui,
        last,
        scope: choices::pick(host, h[380], second),
        hostgeneration: choices::pick(host, second, 0),
        tcda: h[382],
        controllergeneration: h[383],
        reason,
    }
}

// These fields of a header of the page asked for, under a DA4S, or the first thing at fault in them.
#[tactic(auto, unfolding(header::specs::Header::field_fault))]
fn good(page: u8, da4s: bool, f: Fields) -> Result<Fields, Fault>
    ensures { checked result ≡ checked_by (field_fault page da4s f) f }
{
    let last = f.last;
    let a3 = last[2];
    let asked = (page == pages::HOST) | (page == pages::CONTROLLER);
    let some = (page == pages::HOST) | (f.tcda == 0) | (0 < a3);
    if !(asked & (f.page == page)) {
        return Err(Fault::Identifier);
    }
    if !lastblocks::area2_ok(last) {
        return Err(Fault::Area2);
    }
    if !lastblocks::area3_ok(last) {
        return Err(Fault::Area3);
    }
    if !lastblocks::area4_ok(da4s, last) {
        return Err(Fault::Area4);
    }
    if f.scope > 2 {
        return Err(Fault::Scope);
    }
    if f.tcda > 1 {
        return Err(Fault::Available);
    }
    if !some {
        return Err(Fault::Empty);
    }
    Ok(f)
}

// The fields of a header of the page asked for, under a DA4S, or what is at fault in it. Inlined, so that a plan and a step do not carry the fields from here to there.
#[inline(always)]
#[tactic(auto, unfolding(header::specs::Header::check_of, header::specs::Header::fault_of, header::specs::Header::field_fault))]
fn check(page: u8, da4s: bool, h: &[u8]) -> Result<Fields, Fault>
    ensures { checked result ≡ check_of page da4s h.now }
{
    if h.len() != pages::BLOCK {
        return Err(Fault::Length);
    }
    good(page, da4s, fields_of(page, h))
}

// ---- the plan

// The chunks of an area of b blocks, c blocks each and the last one maybe fewer.
fn chunks_of(c: u32, b: u32) -> u32
    ensures { result ≡ chunks_from c 1 b }
{
    if c == 0 { 0 } else { b.div_ceil(c) }
}

// What it takes is no `Plan`: who has a header alone has no attempts to ask for.
// Plans a collection of an area of a page, c blocks a command, into a copy of so many bytes, from the page's header: 13 or 6 as setup would answer, 7, 11,
// 19 or 8, or what the header says and the number of chunks.
pub fn plan(
    page: u8,
    area: u8,
    caps: Caps,
    chunk: u32,
    room: usize,
    h: &[u8],
) -> Result<Planned, NoPlan>
    ensures { planned result ≡ plan_of page area caps chunk room h.now }
{
    let p = Plan {
        page,
        create: false,
        area,
        chunk,
        attempts: 1,
        room,
        caps,
    };
    p.setup_answer()?;
    let fields = check(page, caps.da4s, h)?;
    if (page == pages::CONTROLLER) & (fields.tcda == 0) {
        return Err(NoPlan::Refused(Refusal::Nothing));
    }
    let last = fields.last;
    p.area_answer(last)?;
    Ok(Planned {
        fields,
        chunks: chunks_of(p.chunk_len(), p.area_last(last)),
    })
}

// ---- what is seen of a completion's data

#[tactic(auto, unfolding(crate::specs::Completions::generation_of))]
fn own_generation(page: u8, data: &[u8]) -> u8
    ensures { result ≡ generation_of page «data».now }
{
    if data.len() != pages::BLOCK {
        return 0;
    }
    choices::pick(page == pages::HOST, data[381], data[383])
}

// Of a first header, by its plan.
fn planned_seen(p: Plan, data: &[u8]) -> Seen
    ensures { result ≡ planned_seen p «data».now }
{
    let generation = own_generation(p.page, data);
    match plan(p.page, p.area, p.caps, p.chunk, p.room, data) {
        Ok(planned) => {
            let last = planned.fields.last;
            Seen {
                answer: answers::SUCCESS,
                fault: None,
                tcda: planned.fields.tcda,
                generation,
                last,
            }
        }
        Err(why) => Seen {
            answer: why.number(),
            fault: why.fault(),
            tcda: 0,
            generation,
            last: [0; 4],
        },
    }
}

// Of a later header, or of the acknowledgement's data.
fn seen_of(p: Plan, data: &[u8]) -> Seen
    ensures { result ≡ seen_of p «data».now }
{
    let generation = own_generation(p.page, data);
    match check(p.page, p.caps.da4s, data) {
        Ok(fields) => {
            let last = fields.last;
            Seen {
                answer: answers::SUCCESS,
                fault: None,
                tcda: fields.tcda,
                generation,
                last,
            }
        }
        Err(fault) => Seen {
            answer: answers::SUCCESS,
            fault: Some(fault),
            tcda: 0,
            generation,
            last: [0; 4],
        },
    }
}

fn no_seen() -> Seen
    ensures { result ≡ no_seen }
{
    Seen {
        answer: answers::SUCCESS,
        fault: Some(Fault::Length),
        tcda: 0,
        generation: 0,
        last: [0; 4],
    }
}

// What is seen of a completion's data. A chunk's bytes are not looked at.
#[tactic(auto, unfolding(crate::specs::Completions::look_by))]
pub fn look(phase: Phase, p: Plan, data: &[u8]) -> Seen
    ensures { result ≡ look_by phase p «data».now }
{
    match phase {
        Phase::First => planned_seen(p, data),
        Phase::Close(_) | Phase::Ack => seen_of(p, data),
        Phase::Chunk(_) | Phase::Ended => no_seen(),
    }
}
