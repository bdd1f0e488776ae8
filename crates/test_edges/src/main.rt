// Whole runs at the edges of demand 3, through the compiled controller and the compiled collection. Of each run it writes the commands, H being
// the first header, cN the chunk at block N, h a closing header and A the acknowledgement, with a ! where the controller refused; then the ending,
// the number of commands, and whether the copy is as promised: the area as it stood at the last header, then zeros, or zeros alone. Of a run of a hundred
// thousand commands it does not write them. The file stdout beside src/ has the table of these runs.
#![tactic(auto)]

use captures::Candidate;
use collection::{Collection, Completion, Next};
use pages::Caps;
use phases::Phase;
use plans::Plan;
use records::{ControllerPage, HostPage, Identity, Record};
use std::io;
use words::{Command, Words};

// More commands than any run has.
const MOST: u32 = 200000;

// The first words of another host's create on 07h and of its acknowledgement of 08h, both of one block.
const CREATE: u32 = 0x007f8107;

const ACKNOWLEDGE: u32 = 0x007f0008;

// What a capture takes: area 1 ends at block `area`, all others at `page`, filled from `v` on.
#[derive(Clone, Copy)]
struct Content {
    area: u32,
    page: u32,
    v: u8,
}

// What is collected, and what happens meanwhile. Commands are counted from 0.
#[derive(Clone, Copy)]
struct Case {
    page: u8,
    // At first the page is captured once, or not at all: area 1 ends at `blocks`, all others at `top`.
    generation: u8,
    once: u32,
    blocks: u32,
    top: u32,
    // The plan's.
    chunk: u32,
    attempts: u32,
    // Whether its commands are written.
    named: bool,
    // Another host acknowledges 08h before this command.
    cleared: Option<u32>,
    // A firmware commit drops the data of 07h before this command.
    dropped: Option<u32>,
    // The page is captured before these commands, so many times, and then all areas end at `then`.
    captured: Option<u32>,
    again: Option<u32>,
    times: u32,
    then: u32,
    // And once before each closing header.
    busy: bool,
}

// The controller's record, its store, the collection with its copy, and the copy that is wanted.
#[derive(Drop)]
struct Bench {
    own: Record,
    store: [u8; 2560],
    state: Collection,
    copy: [u8; 2048],
    want: [u8; 2048],
}

// Extended data or none: without it a plan has no blocks a command.
fn caps(chunk: u32) -> Caps {
    Caps {
        extended: chunk != 0,
        telemetry: true,
        da4s: false,
        etdas: false,
        mcdas: false,
    }
}

// Area 1 into a copy of four blocks.
fn plan(case: Case) -> Plan {
    Plan {
        page: case.page,
        create: false,
        area: 1,
        chunk: case.chunk,
        attempts: case.attempts,
        room: 2048,
        caps: caps(case.chunk),
    }
}

// A record whose pages are one generation before the case's, so that the first capture reaches it.
fn fresh(case: Case) -> Record {
    let identity = Identity {
        oui: 0x123456,
        hostscope: 1,
        controllerscope: 1,
    };
    let r = records::fresh(caps(case.chunk), identity);
    let generation = case.generation.wrapping_sub(1);
    let host = HostPage {
        generation,
        ..r.host
    };
    let controller = ControllerPage {
        generation,
        ..r.controller
    };
    Record {
        host,
        controller,
        ..r
    }
}

// The first of some bytes, or all of them if they are fewer.
fn front(bytes: &[u8], end: usize) -> &[u8] {
    bytes.get(..end).unwrap_or(bytes)
}

fn first_blocks(bytes: &[u8], blocks: u32) -> &[u8] {
    front(bytes, pages::in_bytes(blocks))
}

// ---- what happens between the run's commands

// Five blocks, the first filled with `v` and each one after it with one more.
fn five(v: u8) -> [u8; 2560] {
    let mut bytes = [v; 2560];
    for i in 1..5u8 {
        copies::put(&[v.wrapping_add(i); 512], &mut bytes, 512 * (i as usize));
    }
    bytes
}

impl Bench {
    // A command with a candidate, and whether it succeeds. A run has to do with one page alone, so both have the same store.
    fn send(&mut self, last: [u32; 4], bytes: &[u8], words: Words, buf: &mut [u8]) -> bool {
        let same = self.store;
        let candidate = Candidate {
            last,
            bytes,
            reason: &[1; 128],
        };
        let answer = controller::command(self.own, &mut self.store, &same, candidate, words, buf);
        self.own = answer.unwrap_or(self.own);
        answer.is_ok()
    }

    // Another host's command of one block.
    fn other(&mut self, last: [u32; 4], bytes: &[u8], cdw10: u32) {
        let words = Words {
            cdw10,
            cdw11: 0,
            cdw12: 0,
            cdw13: 0,
            cdw14: 0,
        };
        self.send(last, bytes, words, &mut [0u8; 512]);
    }

    // A capture on a page: another host's create on 07h, or the controller's own on 08h.
    fn capture(&mut self, page: u8, c: Content) {
        let five = five(c.v);
        let last = [c.area, c.page, c.page, c.page];
        let bytes = first_blocks(&five, c.page);
        if page == pages::HOST {
            self.other(last, bytes, CREATE);
        } else {
            let candidate = Candidate {
                last,
                bytes,
                reason: &[1; 128],
            };
            let answer = controller::capture(self.own, b"", &mut self.store, candidate);
            self.own = answer.unwrap_or(self.own);
        }
    }

    // So many captures in a row.
    fn captures(&mut self, times: u32, page: u8, c: Content) {
        for _ in 0..times {
            self.capture(page, c);
        }
    }

    // A drop of 07h.
    fn drop_host(&mut self) {
        let answer = controller::drop(self.own, &self.store, b"");
        self.own = answer.unwrap_or(self.own);
    }

    // What happens before a command: another host's acknowledgement of 08h, a drop, and then captures.
    fn meanwhile(&mut self, case: Case, at: u32) {
        if case.cleared == Some(at) {
            self.other([0; 4], b"", ACKNOWLEDGE);
        }
        if case.dropped == Some(at) {
            self.drop_host();
        }
        let content = Content {
            area: case.then,
            page: case.then,
            v: 30,
        };
        self.captures(
            captures_before(case, at, self.state.phase),
            case.page,
            content,
        );
    }
}

// How many captures come before a command.
fn captures_before(case: Case, at: u32, phase: Phase) -> u32 {
    if (case.captured == Some(at)) | (case.again == Some(at)) {
        return case.times;
    }
    if case.busy & matches!(phase, Phase::Close(_)) {
        return 1;
    }
    0
}

// ---- a command of the run

fn name(rt: &impl Print, phase: Phase) -> io::Result<()> {
    match phase {
        Phase::First => print!(rt; " H"),
        Phase::Chunk(at) => print!(rt; " c{at}"),
        Phase::Close(_) => print!(rt; " h"),
        Phase::Ack => print!(rt; " A"),
        Phase::Ended => print!(rt; " "),
    }
}

// At a header that is judged, the wanted copy: the page's area 1 as it stands, then zeros.
fn keep_area(asked: Command, r: Record, store: &[u8], want: &mut [u8]) {
    if asked.rae & (asked.offset == 0) {
        let f = records::fields(asked.page, r);
        let last = f.last;
        copies::put_zeros(2048, want, 0);
        copies::put(first_blocks(store, last[0]), want, 0);
    }
}

// What the step said: whether the run ended well, if it ended.
fn said(rt: &impl Print, next: Next) -> io::Result<Option<bool>> {
    match next {
        Next::Send(_) => Ok(None),
        Next::End(e) => {
            let answer = e.ending.number();
            print!(rt; " | {answer}")?;
            if e.ending.newer() {
                print!(rt; " newer")?;
            }
            print!(rt; " | {}", e.count)?;
            Ok(Some(answer == 0))
        }
        Next::Refuse(_) => Ok(Some(false)),
    }
}

// How many bytes a completion brings: all that were asked for, or none, and a !, where the controller refused.
fn brought(rt: &impl Print, ok: bool, bytes: usize) -> io::Result<usize> {
    if ok {
        return Ok(bytes);
    }
    print!(rt; "!")?;
    Ok(0)
}

impl Bench {
    // The awaited command goes to the controller and its completion to the collection.
    fn sent(&mut self, rt: &impl Print) -> io::Result<Option<bool>> {
        let words = self.state.awaited();
        let asked = words::read(self.state.plan.caps.extended, words);
        let mut buf = [0u8; 2560];
        keep_area(asked, self.own, &self.store, &mut self.want);
        let ok = self.send([0; 4], b"", words, &mut buf);
        let bytes = brought(rt, ok, asked.bytes)?;
        let completion = Completion {
            ok,
            data: front(&buf, bytes),
        };
        let x = self.state.step(completion, &mut self.copy);
        self.state = x.state;
        said(rt, x.next)
    }

    // A command with what happens before it.
    fn turn(&mut self, rt: &impl Print, case: Case, at: u32) -> io::Result<Option<bool>> {
        if case.named {
            name(rt, self.state.phase)?;
        }
        self.meanwhile(case, at);
        self.sent(rt)
    }

    // The commands of a run, up to its ending, and whether it ended well.
    fn turns(&mut self, rt: &impl Print, case: Case) -> io::Result<bool> {
        for at in 0..MOST {
            if let Some(good) = self.turn(rt, case, at)? {
                return Ok(good);
            }
        }
        Ok(false)
    }

    // The end of a line: whether the copy is what the ending promises.
    fn end(&self, rt: &impl Print, good: bool) -> io::Result<()> {
        if good {
            if self.copy == self.want {
                println!(rt; " | the area, then zeros")
            } else {
                println!(rt;
                    " | not the area but blocks that begin with {} and {}",
                    self.copy[0], self.copy[512]
                )
            }
        } else {
            if self.copy == [0u8; 2048] {
                println!(rt; " | zeros")
            } else {
                println!(rt; " | not zeros")
            }
        }
    }
}

fn begin(case: Case) -> Bench {
    let mut b = Bench {
        own: fresh(case),
        store: [0u8; 2560],
        state: beginnings::setup(plan(case)).state,
        copy: [9u8; 2048],
        want: [7u8; 2048],
    };
    let content = Content {
        area: case.blocks,
        page: case.top,
        v: 10,
    };
    b.captures(case.once, case.page, content);
    b
}

fn run(rt: &impl Print, label: &str, case: Case) -> io::Result<()> {
    print!(rt; "{label}")?;
    let mut b = begin(case);
    let good = b.turns(rt, case)?;
    b.end(rt, good)
}

// ---- the runs

// A page of so many blocks, all of them in area 1, to which nothing happens.
fn calm(page: u8, blocks: u32, chunk: u32, attempts: u32) -> Case {
    Case {
        page,
        generation: 0,
        once: 1,
        blocks,
        top: blocks,
        chunk,
        attempts,
        named: true,
        cleared: None,
        dropped: None,
        captured: None,
        again: None,
        times: 1,
        then: 2,
        busy: false,
    }
}

// 07h at a generation, a block a command, with a capture before a command.
fn host(
    rt: &impl Print,
    label: &str,
    generation: u8,
    blocks: u32,
    captured: u32,
    then: u32,
) -> io::Result<()> {
    let mut c = calm(pages::HOST, blocks, 1, 2);
    c.generation = generation;
    c.captured = Some(captured);
    c.then = then;
    run(rt, label, c)
}

// 08h in one attempt, acknowledged by another host before a command.
fn acknowledged(
    rt: &impl Print,
    label: &str,
    blocks: u32,
    chunk: u32,
    cleared: u32,
) -> io::Result<()> {
    let mut c = calm(pages::CONTROLLER, blocks, chunk, 1);
    c.cleared = Some(cleared);
    run(rt, label, c)
}

// 08h at a generation, a block a command, acknowledged by another host before a command and captured before one.
fn controller(
    rt: &impl Print,
    label: &str,
    generation: u8,
    blocks: u32,
    cleared: Option<u32>,
    captured: Option<u32>,
) -> io::Result<()> {
    let mut c = calm(pages::CONTROLLER, blocks, 1, 2);
    c.generation = generation;
    c.cleared = cleared;
    c.captured = captured;
    run(rt, label, c)
}

fn calm_runs(rt: &impl Print) -> io::Result<()> {
    run(
        rt,
        "07h, 3 blocks, 2 a command:",
        calm(pages::HOST, 3, 2, 1),
    )?;
    run(rt, "07h, no block:", calm(pages::HOST, 0, 2, 1))?;
    let mut c = calm(pages::CONTROLLER, 0, 1, 1);
    c.top = 3;
    run(rt, "08h, no block in area 1:", c)?;
    c.once = 0;
    run(rt, "08h never captured:", c)
}

// Without extended data: c1 reads the header and all blocks.
fn old_runs(rt: &impl Print) -> io::Result<()> {
    run(rt, "old drive, 07h, 4 blocks:", calm(pages::HOST, 4, 0, 1))?;
    run(rt, "old drive, 07h, no block:", calm(pages::HOST, 0, 0, 1))?;
    run(
        rt,
        "old drive, 08h, 3 blocks:",
        calm(pages::CONTROLLER, 3, 0, 1),
    )?;
    let mut c = calm(pages::HOST, 1, 0, 2);
    c.captured = Some(1);
    c.then = 4;
    run(rt, "old drive, 07h grows from 1 to 4:", c)?;
    c.then = 5;
    run(rt, "old drive, 07h grows from 1 to 5, room for 4:", c)?;
    let mut d = calm(pages::HOST, 2, 0, 2);
    d.dropped = Some(1);
    run(rt, "old drive, 07h dropped before its only chunk:", d)?;
    let mut e = calm(pages::CONTROLLER, 2, 0, 2);
    e.cleared = Some(1);
    run(rt, "old drive, 08h cleared after the header:", e)?;
    e.captured = Some(2);
    run(rt, "old drive, 08h cleared and captured again:", e)
}

fn host_runs(rt: &impl Print) -> io::Result<()> {
    host(rt, "07h grows from 1 to 5, room for 4:", 0, 1, 1, 5)?;
    host(rt, "07h grows from 1 to 4:", 0, 1, 1, 4)?;
    host(
        rt,
        "07h shrinks from 4 to 1 after a chunk, generation 255 to 0:",
        255,
        4,
        2,
        1,
    )?;
    host(rt, "07h shrinks from 4 to 0:", 0, 4, 1, 0)?;
    let mut c = calm(pages::HOST, 3, 2, 3);
    c.captured = Some(3);
    c.again = Some(6);
    c.then = 3;
    run(rt, "07h captured before each of two closing headers:", c)
}

// 07h, dropped before a command.
fn emptied(rt: &impl Print, label: &str, case: Case, dropped: u32) -> io::Result<()> {
    let mut c = case;
    c.dropped = Some(dropped);
    run(rt, label, c)
}

fn drop_runs(rt: &impl Print) -> io::Result<()> {
    let two = calm(pages::HOST, 2, 1, 2);
    emptied(rt, "07h dropped before the first chunk:", two, 1)?;
    emptied(
        rt,
        "07h dropped before its only chunk:",
        calm(pages::HOST, 2, 2, 2),
        1,
    )?;
    emptied(rt, "07h dropped after the last chunk:", two, 3)?;
    emptied(
        rt,
        "07h dropped, one attempt:",
        calm(pages::HOST, 2, 1, 1),
        1,
    )?;
    let mut c = calm(pages::HOST, 0, 1, 2);
    emptied(rt, "07h dropped, empty already:", c, 1)?;
    c.top = 3;
    emptied(rt, "07h dropped, no block in area 1:", c, 1)?;
    let mut d = two;
    d.captured = Some(1);
    emptied(
        rt,
        "07h dropped and captured again with the same areas:",
        d,
        1,
    )
}

fn controller_runs(rt: &impl Print) -> io::Result<()> {
    acknowledged(rt, "08h cleared after the header:", 3, 1, 1)?;
    acknowledged(rt, "08h cleared, one chunk:", 4, 4, 1)?;
    controller(
        rt,
        "08h cleared and captured again, generation 255 to 0:",
        255,
        3,
        Some(4),
        Some(4),
    )?;
    controller(
        rt,
        "08h cleared, a chunk refused, then captured:",
        0,
        3,
        Some(1),
        Some(3),
    )
}

// What happens after the last check, before the acknowledgement.
fn late_runs(rt: &impl Print) -> io::Result<()> {
    controller(
        rt,
        "08h captured after the last check:",
        0,
        1,
        None,
        Some(3),
    )?;
    acknowledged(
        rt,
        "08h acknowledged by another after the last check:",
        1,
        1,
        3,
    )?;
    controller(
        rt,
        "08h acknowledged and captured after the last check:",
        0,
        1,
        Some(3),
        Some(3),
    )
}

// Many captures in one attempt of 07h, and drops among them.
fn crowded_runs(rt: &impl Print) -> io::Result<()> {
    let mut c = calm(pages::HOST, 2, 1, 301);
    c.captured = Some(2);
    c.times = 255;
    run(rt, "07h, 255 captures in one attempt:", c)?;
    emptied(rt, "07h, a drop and 255 captures in one attempt:", c, 2)?;
    emptied(rt, "07h, 255 captures and a drop in one attempt:", c, 3)?;
    c.times = 256;
    run(rt, "07h, 256 captures in one attempt:", c)?;
    emptied(rt, "07h, 256 captures and a drop in one attempt:", c, 3)?;
    c.then = 3;
    run(rt, "07h, 256 captures of another size in one attempt:", c)
}

// 08h of one block, captured so many times between the last check and the acknowledgement.
fn unread(rt: &impl Print, label: &str, times: u32) -> io::Result<()> {
    let mut c = calm(pages::CONTROLLER, 1, 1, 301);
    c.then = 1;
    c.captured = Some(3);
    c.times = times;
    run(rt, label, c)
}

// More captures in a run than a generation counts.
fn many_runs(rt: &impl Print) -> io::Result<()> {
    let mut c = calm(pages::HOST, 2, 1, 301);
    c.captured = Some(3);
    c.again = Some(6);
    c.times = 150;
    run(rt, "07h, 150 captures in each of two attempts:", c)?;
    unread(rt, "08h, 256 captures after the last check:", 256)?;
    unread(rt, "08h, 257 captures after the last check:", 257)?;
    let mut d = calm(pages::HOST, 1, 1, 65535);
    d.then = 1;
    d.busy = true;
    d.named = false;
    run(rt, "07h, a capture in each of 65,535 attempts:", d)
}

fn main(rt: HostRuntime) -> io::Result<()> {
    calm_runs(&rt)?;
    host_runs(&rt)?;
    drop_runs(&rt)?;
    controller_runs(&rt)?;
    late_runs(&rt)?;
    crowded_runs(&rt)?;
    old_runs(&rt)?;
    many_runs(&rt)
}
