// Commands and captures through the compiled controller: the rows of document 01, the order of its refusals, and what an
// acknowledgement clears. The file stdout beside src/ has what the paper says of each.
#![tactic(auto)]

use answers::Refusal;
use captures::Candidate;
use pages::Caps;
use records::{Identity, Record};
use std::io;
use words::Words;

fn fresh(four: bool) -> Record {
    records::fresh(
        Caps {
            extended: true,
            telemetry: true,
            da4s: four,
            etdas: four,
            mcdas: four,
        },
        Identity {
            oui: 0x123456,
            hostscope: 1,
            controllerscope: 2,
        },
    )
}

// Nine blocks, block i filled with i.
fn nine() -> [u8; 4608] {
    let mut bytes = [1; 4608];
    for i in 1..9u8 {
        copies::put(&[i + 1; 512], &mut bytes, 512 * (i as usize));
    }
    bytes
}

// The answer and its class; then, of the record after it, the host generation, the third last block of 07h, the controller generation, TCDA
// and the notice.
fn show(rt: &impl Print, lent: Record, answer: Result<Record, Refusal>) -> io::Result<Record> {
    let class = match answer {
        Ok(_) => 0,
        Err(refusal) => refusal.class_number(),
    };
    let r = answer.unwrap_or(lent);
    let host = r.host;
    let controller = r.controller;
    let last = host.last;
    print!(rt; "{} {class}", answers::number(answer))?;
    print!(rt; " | 07h {} {}", host.generation, last[2])?;
    print!(rt; " | 08h {} {}", controller.generation, controller.tcda)?;
    if controller.notice {
        print!(rt; " notice")?;
    }
    Ok(r)
}

// Four bytes of the buffer: the ends of its two blocks.
fn ends(rt: &impl Print, buf: &[u8; 1024]) -> io::Result<()> {
    println!(rt;
        " | buffer {} {} {} {}",
        buf[0], buf[511], buf[512], buf[1023]
    )
}

fn words(cdw10: u32, cdw12: u32, cdw13: u32, cdw14: u32) -> Words {
    Words {
        cdw10,
        cdw11: 0,
        cdw12,
        cdw13,
        cdw14,
    }
}

// A command with the candidate (2,2,5,9) and a buffer of 1,024 bytes of 200. Record and stores stay parameters: a row goes on from any record.
fn send(
    rt: &impl Print,
    r: Record,
    host: &mut [u8; 4608],
    controller: &[u8; 4608],
    reason: &[u8],
    w: Words,
) -> io::Result<Record> {
    let mut buf = [200; 1024];
    let candidate = Candidate {
        last: [2, 2, 5, 9],
        bytes: &nine(),
        reason,
    };
    let answer = controller::command(r, host, controller, candidate, w, &mut buf);
    let next = show(rt, r, answer)?;
    ends(rt, &buf)?;
    Ok(next)
}

// The same while 08h has never been captured.
fn send_words(rt: &impl Print, r: Record, host: &mut [u8; 4608], w: Words) -> io::Result<Record> {
    send(rt, r, host, &[0; 4608], &[77; 128], w)
}

fn to_host(
    rt: &impl Print,
    r: Record,
    host: &mut [u8; 4608],
    cdw10: u32,
    offset: u32,
) -> io::Result<Record> {
    send_words(rt, r, host, words(cdw10, offset, 0, 0))
}

// The same with a candidate whose reason is a byte short.
fn broken_to_host(
    rt: &impl Print,
    r: Record,
    host: &mut [u8; 4608],
    cdw10: u32,
    offset: u32,
) -> io::Result<Record> {
    send(
        rt,
        r,
        host,
        &[0; 4608],
        &[77; 127],
        words(cdw10, offset, 0, 0),
    )
}

// A command while 07h has never been captured.
fn to_controller(
    rt: &impl Print,
    r: Record,
    controller: &[u8; 4608],
    cdw10: u32,
    offset: u32,
) -> io::Result<Record> {
    send(
        rt,
        r,
        &mut [0; 4608],
        controller,
        &[77; 128],
        words(cdw10, offset, 0, 0),
    )
}

fn capture(
    rt: &impl Print,
    r: Record,
    controller: &mut [u8; 4608],
    a: [u32; 4],
) -> io::Result<Record> {
    let candidate = Candidate {
        last: a,
        bytes: &nine(),
        reason: &[78; 128],
    };
    let next = show(
        rt,
        r,
        controller::capture(r, &[0; 4608], controller, candidate),
    )?;
    println!(rt;)?;
    Ok(next)
}

fn on_host(rt: &impl Print) -> io::Result<()> {
    let mut host = [0; 4608];
    println!(rt; "07h: create with candidate (2,2,5,9) on a drive of three areas")?;
    let r = to_host(rt, fresh(false), &mut host, 0x00ff8107, 0)?;
    println!(rt;
        "offset 2,560, 1,024 bytes; offset 3,072, 512 bytes; offset 3,584; offset 256; count 126; offset 2^32"
    )?;
    to_host(rt, r, &mut host, 0x00ff8007, 2560)?;
    to_host(rt, r, &mut host, 0x007f8007, 3072)?;
    to_host(rt, r, &mut host, 0x007f8007, 3584)?;
    to_host(rt, r, &mut host, 0x007f8007, 256)?;
    to_host(rt, r, &mut host, 0x007e8007, 0)?;
    send_words(rt, r, &mut host, words(0x007f8007, 0, 1, 0))?;
    println!(rt; "offset type 1; RAE 0 on 07h; create bit on 08h")?;
    send_words(rt, r, &mut host, words(0x007f8007, 0, 0, 0x00800000))?;
    to_host(rt, r, &mut host, 0x007f0007, 512)?;
    to_host(rt, r, &mut host, 0x007f8108, 0)?;
    println!(rt; "identifiers 02h, 0Eh, 24h, C0h")?;
    to_host(rt, r, &mut host, 0x007f8002, 0)?;
    to_host(rt, r, &mut host, 0x007f800e, 0)?;
    to_host(rt, r, &mut host, 0x007f8024, 0)?;
    to_host(rt, r, &mut host, 0x007f80c0, 0)?;
    Ok(())
}

fn orders(rt: &impl Print) -> io::Result<()> {
    let mut host = [0; 4608];
    let r = fresh(true);
    println!(rt;
        "broken candidate with offset 256: 1; with offset 5,632: 5; whole candidate with offset 5,632: 1; 2,048 bytes: 3; MCDA 5: 1"
    )?;
    broken_to_host(rt, r, &mut host, 0x007f8107, 256)?;
    broken_to_host(rt, r, &mut host, 0x007f8107, 5632)?;
    to_host(rt, r, &mut host, 0x007f8107, 5632)?;
    to_host(rt, r, &mut host, 0x01ff8107, 0)?;
    to_host(rt, r, &mut host, 0x007f8b07, 0)?;
    println!(rt; "offset 5,120, the new page's size, is served; MCDA 2 sizes it 1,536")?;
    to_host(rt, r, &mut host, 0x007f8107, 5120)?;
    to_host(rt, r, &mut host, 0x007f8507, 1536)?;
    to_host(rt, r, &mut host, 0x007f8507, 2048)?;
    println!(rt; "a scope of 3 disagrees, before the identifier is looked at")?;
    let identity = Identity {
        oui: 0,
        hostscope: 3,
        controllerscope: 1,
    };
    to_host(
        rt,
        records::fresh(r.caps, identity),
        &mut host,
        0x007f8002,
        0,
    )?;
    Ok(())
}

fn on_controller(rt: &impl Print) -> io::Result<()> {
    let mut controller = [0; 4608];
    println!(rt; "08h before any capture: the header; a capture; broken: a3 = 0, a2 > a3")?;
    let r = to_controller(rt, fresh(true), &controller, 0x007f8008, 0)?;
    let r = capture(rt, r, &mut controller, [2, 2, 5, 9])?;
    capture(rt, r, &mut controller, [0, 0, 0, 0])?;
    capture(rt, r, &mut controller, [2, 6, 5, 9])?;
    println!(rt;
        "blocks 1 and 2 with RAE 1; a refused command with RAE 0; blocks 8 and 9 with RAE 0"
    )?;
    let r = to_controller(rt, r, &controller, 0x00ff8008, 512)?;
    let r = to_controller(rt, r, &controller, 0x00ff0008, 256)?;
    let r = to_controller(rt, r, &controller, 0x00ff0008, 4096)?;
    println!(rt; "cleared: offset 512 gives zeros, offset 1,024 is 1")?;
    let r = to_controller(rt, r, &controller, 0x007f8008, 512)?;
    let r = to_controller(rt, r, &controller, 0x007f8008, 1024)?;
    println!(rt; "another capture")?;
    capture(rt, r, &mut controller, [2, 2, 5, 9])?;
    Ok(())
}

fn main(rt: HostRuntime) -> io::Result<()> {
    on_host(&rt)?;
    orders(&rt)?;
    on_controller(&rt)
}
