// Every ending of a collection and every answer of setup and step, each driven once by real steps, with two that would apply at the same
// time wherever the paper gives an order. Of each it writes the answer, what is at fault in a bad header, the number of commands and what the
// copy holds. The file stdout beside src/ has what the papers say.
#![tactic(auto)]

use collection::{Collection, Completion, Next, Stepped};
use header::{Fault, Fields};
use pages::Caps;
use phases::{Attempt, Phase};
use plans::Plan;
use std::io;

// A header: its page, the last block of area 1, TCDA and the generation.
#[derive(Clone, Copy)]
struct Heading {
    page: u8,
    b: u32,
    tcda: u8,
    generation: u8,
}

// A page's area 1 in chunks of two blocks, into a copy of four.
fn plan(page: u8, attempts: u32) -> Plan {
    Plan {
        page,
        create: false,
        area: 1,
        chunk: 2,
        attempts,
        room: 2048,
        caps: Caps {
            extended: true,
            telemetry: true,
            da4s: false,
            etdas: false,
            mcdas: false,
        },
    }
}

impl Heading {
    fn new(page: u8, b: u32, tcda: u8, generation: u8) -> Heading {
        Heading {
            page,
            b,
            tcda,
            generation,
        }
    }

    // The other tests make headers of their own: a crate for one function of the tests is no plainer.
    fn bytes(self) -> [u8; 512] {
        header::write(Fields {
            page: self.page,
            oui: 0x123456,
            last: [self.b, 9, 9, 0],
            scope: 1,
            hostgeneration: self.generation,
            tcda: self.tcda,
            controllergeneration: self.generation,
            reason: [3; 128],
        })
    }
}

// Three blocks as `collected` reads them, and zeros in the fourth.
fn three_blocks() -> [u8; 2048] {
    let mut wanted = [0u8; 2048];
    copies::put(&[1u8; 1024], &mut wanted, 0);
    copies::put(&[2u8; 512], &mut wanted, 1024);
    wanted
}

fn copy_is(rt: &impl Print, copy: &[u8]) -> io::Result<()> {
    if copy == [0u8; 2048].as_slice() {
        print!(rt; "zeros")
    } else if copy == three_blocks().as_slice() {
        print!(rt; "three blocks, then zeros")
    } else if copy == [9u8; 2048].as_slice() {
        print!(rt; "unchanged")
    } else {
        print!(rt; "part of the area, the rest unchanged")
    }
}

// What is at fault in a header, if anything is. A `Display` of `Fault` would stand in `header`, for this test alone.
fn show_fault(rt: &impl Print, fault: Option<Fault>) -> io::Result<()> {
    match fault {
        None => Ok(()),
        Some(Fault::Length) => print!(rt; " length"),
        Some(Fault::Identifier) => print!(rt; " identifier"),
        Some(Fault::Area2) => print!(rt; " area 2"),
        Some(Fault::Area3) => print!(rt; " area 3"),
        Some(Fault::Area4) => print!(rt; " area 4"),
        Some(Fault::Scope) => print!(rt; " scope"),
        Some(Fault::Available) => print!(rt; " TCDA"),
        Some(Fault::Empty) => print!(rt; " available but empty"),
    }
}

fn show_next(rt: &impl Print, next: Next) -> io::Result<()> {
    match next {
        Next::Send(_) => print!(rt; "sent"),
        Next::End(e) => {
            print!(rt; "ended {}", e.ending.number())?;
            show_fault(rt, e.ending.fault())?;
            if e.ending.newer() {
                print!(rt; " newer")?;
            }
            print!(rt; ", commands {}", e.count)
        }
        Next::Refuse(refusal) => print!(rt; "refused {}", refusal.number()),
    }
}

// What followed, and the copy; then the state.
fn show(rt: &impl Print, label: &str, x: Stepped, copy: &[u8]) -> io::Result<Collection> {
    print!(rt; "{label}: ")?;
    show_next(rt, x.next)?;
    print!(rt; ", copy ")?;
    copy_is(rt, copy)?;
    println!(rt;)?;
    Ok(x.state)
}

// One step, shown with the copy after it.
fn tried(
    rt: &impl Print,
    label: &str,
    s: Collection,
    ok: bool,
    data: &[u8],
    copy: &mut [u8],
) -> io::Result<Collection> {
    show(rt, label, s.step(Completion { ok, data }, copy), copy)
}

fn began(p: Plan) -> Collection {
    beginnings::setup(p).state
}

fn stepped(s: Collection, ok: bool, data: &[u8], copy: &mut [u8]) -> Collection {
    s.step(Completion { ok, data }, copy).state
}

// One step by a completion, a header or a refusal, shown with the copy after it.
fn completed(
    rt: &impl Print,
    label: &str,
    s: Collection,
    c: Option<Heading>,
    copy: &mut [u8],
) -> io::Result<()> {
    match c {
        Some(head) => tried(rt, label, s, true, &head.bytes(), copy)?,
        None => tried(rt, label, s, false, b"", copy)?,
    };
    Ok(())
}

// The state that awaits the last chunk of an area of three blocks, generation 5.
fn opened(p: Plan, copy: &mut [u8]) -> Collection {
    let head = Heading::new(p.page, 3, 1, 5).bytes();
    let a = stepped(began(p), true, &head, copy);
    stepped(a, true, &[1u8; 1024], copy)
}

// The state that awaits the closing header.
fn collected(p: Plan, copy: &mut [u8]) -> Collection {
    stepped(opened(p, copy), true, &[2u8; 512], copy)
}

fn setup(rt: &impl Print, label: &str, p: Plan) -> io::Result<()> {
    print!(rt; "{label}: ")?;
    show_next(rt, beginnings::setup(p).next)?;
    println!(rt;)
}

fn setups(rt: &impl Print) -> io::Result<()> {
    let mut p = plan(0x08, 2);
    setup(rt, "taken", p)?;
    p.area = 4;
    setup(rt, "area 4 without DA4S", p)?;
    p.attempts = 65536;
    setup(rt, "the same with 65,536 attempts", p)?;
    setup(rt, "65,536 attempts", plan(0x07, 65536))?;
    setup(rt, "65,535 attempts", plan(0x07, 65535))?;
    setup(rt, "no attempt", plan(0x07, 0))?;
    let mut q = plan(0x07, 2);
    q.room = 0;
    setup(rt, "a copy of no bytes", q)
}

fn first(rt: &impl Print, label: &str, c: Option<Heading>) -> io::Result<()> {
    let mut copy = [9u8; 2048];
    completed(rt, label, began(plan(0x08, 2)), c, &mut copy)
}

fn firsts(rt: &impl Print) -> io::Result<()> {
    first(rt, "first header refused", None)?;
    first(
        rt,
        "of another page and TCDA 0",
        Some(Heading::new(0x07, 5, 0, 5)),
    )?;
    first(
        rt,
        "area 1 past area 2, TCDA 2",
        Some(Heading::new(0x08, 10, 2, 5)),
    )?;
    first(rt, "five blocks, TCDA 2", Some(Heading::new(0x08, 5, 2, 5)))?;
    first(
        rt,
        "TCDA 0 and five blocks",
        Some(Heading::new(0x08, 5, 0, 5)),
    )?;
    first(rt, "five blocks", Some(Heading::new(0x08, 5, 1, 5)))?;
    first(rt, "four blocks", Some(Heading::new(0x08, 4, 1, 5)))
}

fn closing(
    rt: &impl Print,
    label: &str,
    page: u8,
    attempts: u32,
    c: Option<Heading>,
) -> io::Result<()> {
    let mut copy = [9u8; 2048];
    let s = collected(plan(page, attempts), &mut copy);
    completed(rt, label, s, c, &mut copy)
}

// The same after a refused chunk.
fn closing_broken(rt: &impl Print, label: &str, c: Option<Heading>) -> io::Result<()> {
    let mut copy = [9u8; 2048];
    let s = opened(plan(0x08, 2), &mut copy);
    let t = stepped(s, false, b"", &mut copy);
    completed(rt, label, t, c, &mut copy)
}

fn closings(rt: &impl Print) -> io::Result<()> {
    closing(
        rt,
        "closing header on 07h",
        0x07,
        1,
        Some(Heading::new(0x07, 3, 0, 5)),
    )?;
    closing(rt, "closing header refused", 0x08, 2, None)?;
    closing(
        rt,
        "of another page and TCDA 0",
        0x08,
        2,
        Some(Heading::new(0x07, 3, 0, 5)),
    )?;
    closing(
        rt,
        "TCDA 0 and the last attempt's mismatch",
        0x08,
        1,
        Some(Heading::new(0x08, 3, 0, 6)),
    )?;
    Ok(())
}

// A later header at fault, with the attempt's generation and without.
fn bad_closings(rt: &impl Print) -> io::Result<()> {
    closing(
        rt,
        "TCDA 2 on 07h, else a match",
        0x07,
        1,
        Some(Heading::new(0x07, 3, 2, 5)),
    )?;
    closing(
        rt,
        "area 1 past area 2, the last attempt's mismatch",
        0x08,
        1,
        Some(Heading::new(0x08, 10, 1, 6)),
    )?;
    closing_broken(
        rt,
        "TCDA 2 after a refused chunk",
        Some(Heading::new(0x08, 3, 2, 5)),
    )?;
    Ok(())
}

fn matches(rt: &impl Print) -> io::Result<()> {
    closing(
        rt,
        "the last attempt's mismatch, five blocks",
        0x08,
        1,
        Some(Heading::new(0x08, 5, 1, 6)),
    )?;
    closing(
        rt,
        "a mismatch, five blocks",
        0x08,
        2,
        Some(Heading::new(0x08, 5, 1, 6)),
    )?;
    closing(
        rt,
        "a mismatch, four blocks",
        0x08,
        2,
        Some(Heading::new(0x08, 4, 1, 6)),
    )?;
    closing(rt, "a match", 0x08, 2, Some(Heading::new(0x08, 3, 1, 5)))?;
    closing_broken(
        rt,
        "a match after a refused chunk",
        Some(Heading::new(0x08, 3, 1, 5)),
    )?;
    closing_broken(
        rt,
        "a mismatch after a refused chunk",
        Some(Heading::new(0x08, 3, 1, 6)),
    )?;
    Ok(())
}

// The attempt's generation and other last blocks are a mismatch.
fn other_blocks(rt: &impl Print) -> io::Result<()> {
    closing(
        rt,
        "its generation and five blocks",
        0x08,
        2,
        Some(Heading::new(0x08, 5, 1, 5)),
    )?;
    closing(
        rt,
        "its generation and four blocks",
        0x08,
        2,
        Some(Heading::new(0x08, 4, 1, 5)),
    )?;
    closing(
        rt,
        "its generation and no blocks on 07h, the last attempt",
        0x07,
        1,
        Some(Heading::new(0x07, 0, 0, 5)),
    )?;
    closing_broken(
        rt,
        "its generation and four blocks after a refused chunk",
        Some(Heading::new(0x08, 4, 1, 5)),
    )?;
    Ok(())
}

fn acknowledged(rt: &impl Print, label: &str, c: Option<Heading>) -> io::Result<()> {
    let mut copy = [9u8; 2048];
    let s = collected(plan(0x08, 2), &mut copy);
    let t = stepped(s, true, &Heading::new(0x08, 3, 1, 5).bytes(), &mut copy);
    completed(rt, label, t, c, &mut copy)
}

fn acknowledgements(rt: &impl Print) -> io::Result<()> {
    acknowledged(rt, "acknowledged", Some(Heading::new(0x08, 3, 1, 5)))?;
    acknowledged(
        rt,
        "acknowledged, another page's bad header",
        Some(Heading::new(0x07, 5, 0, 5)),
    )?;
    acknowledged(
        rt,
        "acknowledged, a newer generation",
        Some(Heading::new(0x08, 3, 1, 6)),
    )?;
    acknowledged(rt, "acknowledgement refused", None)
}

// A step that is lent another copy than the setup's, which stays.
fn lent_short(rt: &impl Print, s: Collection, head: &[u8], copy: &[u8]) -> io::Result<Collection> {
    let mut short = [9u8; 1536];
    let c = Completion {
        ok: true,
        data: head,
    };
    show(rt, "a shorter copy", s.step(c, &mut short), copy)
}

// Data of a wrong length, and data with a refusal.
fn lent_wrong(rt: &impl Print, head: &[u8], copy: &mut [u8]) -> io::Result<Collection> {
    let a = began(plan(0x08, 2));
    let b = tried(rt, "511 bytes of a header", a, true, &[8u8; 511], copy)?;
    tried(rt, "a refusal with data", b, false, head, copy)
}

// 15 leaves the state: the step after it goes on as if it had not been.
fn unfit(rt: &impl Print) -> io::Result<()> {
    let mut copy = [9u8; 2048];
    let head = Heading::new(0x08, 3, 1, 5).bytes();
    let a = lent_wrong(rt, &head, &mut copy)?;
    let b = lent_short(rt, a, &head, &copy)?;
    tried(rt, "then the header", b, true, &head, &mut copy)?;
    Ok(())
}

// The third attempt of two.
fn third(phase: Phase) -> Collection {
    Collection {
        plan: plan(0x08, 2),
        phase,
        attempt: Attempt {
            number: 3,
            generation: 5,
            last: [3, 9, 9, 0],
        },
        count: 4,
    }
}

// The last attempt of 65,535, with a count of commands.
fn counted(rt: &impl Print, label: &str, count: u64) -> io::Result<()> {
    let mut copy = [9u8; 2048];
    let s = Collection {
        plan: plan(0x08, 65535),
        phase: Phase::Close(false),
        attempt: Attempt {
            number: 65535,
            generation: 5,
            last: [3, 9, 9, 0],
        },
        count,
    };
    tried(rt, label, s, false, b"", &mut copy)?;
    Ok(())
}

fn made_by_hand(rt: &impl Print) -> io::Result<()> {
    let mut copy = [9u8; 2048];
    let close = third(Phase::Close(false));
    let over = third(Phase::Ended);
    let data = [8u8; 511];
    tried(
        rt,
        "a third attempt of two, 511 bytes",
        close,
        true,
        &data,
        &mut copy,
    )?;
    tried(
        rt,
        "the same after its ending",
        over,
        true,
        &data,
        &mut copy,
    )?;
    counted(rt, "65,535 attempts and the most commands", 68718493697)?;
    counted(rt, "65,535 attempts and a command more", 68718493698)
}

fn main(rt: HostRuntime) -> io::Result<()> {
    setups(&rt)?;
    firsts(&rt)?;
    closings(&rt)?;
    bad_closings(&rt)?;
    matches(&rt)?;
    other_blocks(&rt)?;
    acknowledgements(&rt)?;
    unfit(&rt)?;
    made_by_hand(&rt)
}
