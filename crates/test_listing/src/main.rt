// The whole listing of document 01, 08h with B = 7 and c = 3 and no capture, and its row B = 0 on 07h: each command as the steps of a
// collection give it, and the ending; then the finished copy's blocks through a reader. The file stdout beside src/ has what the paper says.
#![tactic(auto)]

use collection::{Collection, Completion, Next, Stepped};
use header::Fields;
use pages::Caps;
use plans::Plan;
use reader::Reader;
use std::io;
use words::Words;

// Eight digits a word in uppercase, as the paper prints them.
fn command(rt: &impl Print, w: Words) -> io::Result<()> {
    print!(rt;
        "{:08X} {:08X} {:08X} {:08X} {:08X}",
        w.cdw10, w.cdw11, w.cdw12, w.cdw13, w.cdw14
    )
}

fn follow(rt: &impl Print, next: Next) -> io::Result<()> {
    match next {
        Next::Send(w) => command(rt, w),
        Next::End(e) => {
            let ending = e.ending;
            print!(rt; "ending {}, commands {}", ending.number(), e.count)
        }
        Next::Refuse(refusal) => print!(rt; "refused {}", refusal.number()),
    }
}

// The command or the ending; then the state.
fn show(rt: &impl Print, x: Stepped) -> io::Result<Collection> {
    let next = x.next;
    follow(rt, next)?;
    println!(rt;)?;
    Ok(x.state)
}

fn plan(page: u8) -> Plan {
    Plan {
        page,
        create: false,
        area: 1,
        chunk: 3,
        attempts: 1,
        room: 4096,
        caps: Caps {
            extended: true,
            telemetry: true,
            da4s: false,
            etdas: false,
            mcdas: false,
        },
    }
}

// A header whose area 1 ends at block `b`. The other tests make headers of their own: a crate for one function of the tests is no plainer.
fn heading(page: u8, b: u32) -> [u8; 512] {
    let last = [b, 9, 9, 0];
    header::write(Fields {
        page,
        oui: 0x123456,
        last,
        scope: 1,
        hostgeneration: 5,
        tcda: 1,
        controllergeneration: 5,
        reason: [3; 128],
    })
}

fn compare(rt: &impl Print, copy: &[u8], wanted: &[u8]) -> io::Result<()> {
    if copy == wanted {
        println!(rt; "copy as wanted")
    } else {
        println!(rt; "copy not as wanted")
    }
}

fn fill(bytes: &mut [u8; 4096], place: usize, v: u8) {
    copies::put(&[v; 1536], bytes, place);
}

// Seven blocks of ones, twos and a three, and zeros in the eighth.
fn seven_blocks() -> [u8; 4096] {
    let mut wanted = [0u8; 4096];
    copies::put(&[3u8; 512], &mut wanted, 3072);
    fill(&mut wanted, 0, 1);
    fill(&mut wanted, 1536, 2);
    wanted
}

// The first byte of the block that a reader hands out, or that it is at the end.
fn shown(rt: &impl Print, block: Option<&[u8]>) -> io::Result<()> {
    match block.and_then(|b| b.first()) {
        Some(first) => print!(rt; " {first}"),
        None => print!(rt; " end"),
    }
}

// The eight blocks of a copy, as a reader hands them out, and twice the end.
fn blocks(rt: &impl Print, copy: &[u8]) -> io::Result<()> {
    let mut reader = Reader::start(copy);
    print!(rt; "blocks")?;
    for block in reader.by_ref() {
        shown(rt, Some(block))?;
    }
    shown(rt, reader.next())?;
    shown(rt, reader.next())?;
    println!(rt;)
}

fn begun(rt: &impl Print, page: u8) -> io::Result<Collection> {
    println!(rt; "cdw10 cdw11 cdw12 cdw13 cdw14")?;
    show(rt, beginnings::setup(plan(page)))
}

fn next(rt: &impl Print, s: Collection, data: &[u8], copy: &mut [u8]) -> io::Result<Collection> {
    show(rt, s.step(Completion { ok: true, data }, copy))
}

fn headed(
    rt: &impl Print,
    s: Collection,
    page: u8,
    b: u32,
    copy: &mut [u8],
) -> io::Result<Collection> {
    next(rt, s, &heading(page, b), copy)
}

fn chunks(rt: &impl Print, s: Collection, copy: &mut [u8]) -> io::Result<Collection> {
    let a = next(rt, s, &[1u8; 1536], copy)?;
    let b = next(rt, a, &[2u8; 1536], copy)?;
    next(rt, b, &[3u8; 512], copy)
}

fn whole(rt: &impl Print) -> io::Result<()> {
    let mut copy = [9u8; 4096];
    let a = headed(rt, begun(rt, 0x08)?, 0x08, 7, &mut copy)?;
    let b = chunks(rt, a, &mut copy)?;
    let c = headed(rt, b, 0x08, 7, &mut copy)?;
    headed(rt, c, 0x08, 7, &mut copy)?;
    compare(rt, &copy, &seven_blocks())?;
    blocks(rt, &copy)
}

fn empty(rt: &impl Print) -> io::Result<()> {
    let mut copy = [9u8; 4096];
    let a = headed(rt, begun(rt, 0x07)?, 0x07, 0, &mut copy)?;
    headed(rt, a, 0x07, 0, &mut copy)?;
    compare(rt, &copy, &[0u8; 4096])
}

fn main(rt: HostRuntime) -> io::Result<()> {
    whole(&rt)?;
    empty(&rt)
}
