// The rows and vectors of document 01 that concern the words, the pages, the headers and the classes, and document 02's order of faults in a header (Q-2) and of a
// plan's refusals (Q-4), run by the compiled code. The file stdout beside src/ has what the papers say of each.
#![tactic(auto)]

use completions::{NoPlan, Planned};
use header::Fields;
use pages::Caps;
use std::io;
use words::{Ask, Words};

fn class(rt: &impl Print, identifier: u8) -> io::Result<()> {
    let class = answers::class(identifier).number();
    println!(rt; "{identifier:02x} {class}")
}

fn status(rt: &impl Print, answer: u8) -> io::Result<()> {
    match answers::status_of(answer) {
        Some(s) => println!(rt; "{answer} {} {:02x}", s.sct, s.sc),
        None => println!(rt; "{answer} none"),
    }
}

fn build(
    rt: &impl Print,
    page: u8,
    create: bool,
    mcda: u8,
    rae: bool,
    offset: u32,
    blocks: u32,
) -> io::Result<()> {
    let asked = Ask {
        create,
        mcda,
        rae,
        offset,
        blocks,
    };
    let built = words::build(page, asked);
    let w = built.unwrap_or(words::no_words());
    print!(rt;
        "{} {:08x} {:08x}",
        answers::number(built),
        w.cdw10,
        w.cdw11
    )?;
    println!(rt; " {:08x} {:08x} {:08x}", w.cdw12, w.cdw13, w.cdw14)
}

fn read(
    rt: &impl Print,
    extended: bool,
    cdw10: u32,
    cdw11: u32,
    cdw12: u32,
    cdw13: u32,
    cdw14: u32,
) -> io::Result<()> {
    let w = Words {
        cdw10,
        cdw11,
        cdw12,
        cdw13,
        cdw14,
    };
    let c = words::read(extended, w);
    print!(rt; "page {}", c.page)?;
    flag(rt, " create", c.create)?;
    print!(rt; " mcda {}", c.mcda)?;
    flag(rt, " rae", c.rae)?;
    print!(rt; " bytes {} offset {}", c.bytes, c.offset)?;
    flag(rt, " indexed", c.indexed)?;
    println!(rt;)
}

fn flag(rt: &impl Print, label: &str, is: bool) -> io::Result<()> {
    if is {
        print!(rt; "{label}")?;
    }
    Ok(())
}

fn four(rt: &impl Print, a: [u32; 4]) -> io::Result<()> {
    print!(rt; "{},{},{},{}", a[0], a[1], a[2], a[3])
}

fn capable(da4s: bool, etdas: bool, mcdas: bool) -> Caps {
    Caps {
        extended: true,
        telemetry: true,
        da4s,
        etdas,
        mcdas,
    }
}

fn trim(
    rt: &impl Print,
    da4s: bool,
    etdas: bool,
    mcdas: bool,
    mcda: u32,
    a: [u32; 4],
) -> io::Result<()> {
    four(rt, trimming::trim(capable(da4s, etdas, mcdas), mcda, a))?;
    println!(rt;)
}

fn size(rt: &impl Print, da4s: bool, etdas: bool, a: [u32; 4]) -> io::Result<()> {
    println!(rt; "{}", pages::size(capable(da4s, etdas, false), a))
}

fn rule(rt: &impl Print, da4s: bool, a: [u32; 4]) -> io::Result<()> {
    if lastblocks::last_ok(da4s, a) {
        println!(rt; "kept")
    } else {
        println!(rt; "broken")
    }
}

// The other tests make headers of their own: a crate for one function of the tests is no plainer.
fn sample(page: u8) -> [u8; 512] {
    let last = [2, 2, 5, 9];
    header::write(Fields {
        page,
        oui: 0x123456,
        last,
        scope: 1,
        hostgeneration: 255,
        tcda: 1,
        controllergeneration: 7,
        reason: [3; 128],
    })
}

fn fields(rt: &impl Print, f: Fields) -> io::Result<()> {
    let last = f.last;
    let reason = f.reason;
    print!(rt; " page {} oui {:08x} last ", f.page, f.oui)?;
    four(rt, last)?;
    print!(rt;
        " scope {} generations {},{}",
        f.scope, f.hostgeneration, f.controllergeneration
    )?;
    println!(rt; " tcda {} reason {},{}", f.tcda, reason[0], reason[127])
}

// A plan from a header, of the greatest area that there is, a block a command, with the largest room.
fn plan_of(page: u8, da4s: bool, h: &[u8]) -> Result<Planned, NoPlan> {
    let caps = Caps {
        extended: true,
        telemetry: true,
        da4s,
        etdas: da4s,
        mcdas: false,
    };
    completions::plan(
        page,
        choices::pick(da4s, 4, 3),
        caps,
        1,
        plans::MOST_ROOM,
        h,
    )
}

fn check(rt: &impl Print, page: u8, da4s: bool, h: &[u8]) -> io::Result<()> {
    let (answer, fault, f, chunks) = match plan_of(page, da4s, h) {
        Ok(x) => (answers::SUCCESS, None, x.fields, x.chunks),
        Err(why) => (why.number(), why.fault(), Fields::default(), 0),
    };
    print!(rt; "{answer} field {}", shared_layouts::fault_number(fault))?;
    print!(rt; " at {} chunks {chunks}", header::byte_of(page, fault))?;
    fields(rt, f)
}

fn check_whole(rt: &impl Print, page: u8, da4s: bool, h: &[u8; 512]) -> io::Result<()> {
    check(rt, page, da4s, h)
}

// The header's first bytes, of which it may have one more than 512.
fn check_cut(rt: &impl Print, page: u8, h: &[u8; 512], bytes: usize) -> io::Result<()> {
    let mut longer = [0u8; 513];
    copies::put(h, &mut longer, 0);
    check(rt, page, true, longer.get(..bytes).unwrap_or(h))
}

// One byte of a header put otherwise.
fn spoil(h: &mut [u8; 512], at: usize, byte: u8) {
    if at < h.len() {
        h[at] = byte;
    }
}

fn check_with(rt: &impl Print, page: u8, at: usize, byte: u8) -> io::Result<()> {
    let mut h = sample(page);
    spoil(&mut h, at, byte);
    check_whole(rt, page, true, &h)
}

fn identifiers(rt: &impl Print) -> io::Result<()> {
    println!(rt; "classes, by identifier")?;
    for identifier in [
        0x00u8, 0x0d, 0x0e, 0x0f, 0x18, 0x19, 0x1a, 0x23, 0x24, 0x25, 0x26, 0x6f, 0x70, 0x73, 0x74,
        0x7e, 0x7f, 0x81, 0x82, 0xbf, 0xc0, 0xff,
    ] {
        class(rt, identifier)?;
    }
    Ok(())
}

fn statuses(rt: &impl Print) -> io::Result<()> {
    println!(rt; "statuses, by answer")?;
    for answer in [0u8, 1, 2, 3, 15, 255] {
        status(rt, answer)?;
    }
    Ok(())
}

fn built(rt: &impl Print) -> io::Result<()> {
    println!(rt; "first word, 07h, create, w = 3, MCDAS")?;
    build(rt, 0x07, true, 3, true, 0, 1)?;
    println!(rt; "the listing of 08h, B = 7, c = 3")?;
    build(rt, 0x08, false, 0, true, 0, 1)?;
    build(rt, 0x08, false, 0, true, 1, 3)?;
    build(rt, 0x08, false, 0, true, 4, 3)?;
    build(rt, 0x08, false, 0, true, 7, 1)?;
    build(rt, 0x08, false, 0, true, 0, 1)?;
    build(rt, 0x08, false, 0, false, 0, 1)?;
    println!(rt; "the longest command, at the last block of the largest area 4")?;
    build(rt, 0x08, false, 0, true, 1048576, 8192)?;
    println!(rt;
        "bad arguments: page, create on 08h, MCDA, MCDA without create, length 0 and 8,193, offset"
    )?;
    build(rt, 0x09, false, 0, true, 0, 1)?;
    build(rt, 0x08, true, 0, true, 0, 1)?;
    build(rt, 0x07, true, 5, true, 0, 1)?;
    build(rt, 0x07, false, 1, true, 0, 1)?;
    build(rt, 0x07, false, 0, true, 0, 0)?;
    build(rt, 0x07, false, 0, true, 0, 8193)?;
    build(rt, 0x07, false, 0, true, 1048577, 1)
}

fn asked(rt: &impl Print) -> io::Result<()> {
    println!(rt;
        "words read: the longest transfer, bits 27:16 alone without extended data, create on 08h, offset type, reserved bits"
    )?;
    read(rt, true, 0xffff0007, 0x0000ffff, 0, 0, 0)?;
    read(rt, false, 0xf07f0007, 0xffffffff, 0, 0, 0)?;
    read(rt, true, 0x007f0f08, 0, 0x200, 1, 0)?;
    read(rt, true, 0x007ef107, 0xffff0000, 0, 0, 0x00800000)?;
    read(rt, true, 0x007f7007, 0, 0, 0, 0xff7fffff)
}

fn trimmed(rt: &impl Print) -> io::Result<()> {
    println!(rt; "candidate (2,2,5,9), DA4S, ETDAS, MCDAS 1: MCDA 2, 0, 1, 3, 4")?;
    for mcda in [2u32, 0, 1, 3, 4] {
        trim(rt, true, true, true, mcda, [2, 2, 5, 9])?;
    }
    println!(rt; "the same with MCDAS 0 and MCDA 2; ETDAS 0 and MCDA 0, 4; DA4S 0 and MCDA 0, 2")?;
    trim(rt, true, true, false, 2, [2, 2, 5, 9])?;
    trim(rt, true, false, true, 0, [2, 2, 5, 9])?;
    trim(rt, true, false, true, 4, [2, 2, 5, 9])?;
    trim(rt, false, true, true, 0, [2, 2, 5, 9])?;
    trim(rt, false, true, true, 2, [2, 2, 5, 9])?;
    println!(rt; "candidate (0,3,5,5), MCDA 1")?;
    trim(rt, true, true, true, 1, [0, 3, 5, 5])
}

fn sizes(rt: &impl Print) -> io::Result<()> {
    println!(rt;
        "sizes: (2,2,5,0) without area 4; (2,2,5,9) with, and with ETDAS 0; any four numbers"
    )?;
    size(rt, false, false, [2, 2, 5, 0])?;
    size(rt, true, true, [2, 2, 5, 9])?;
    size(rt, true, false, [2, 2, 5, 9])?;
    size(rt, true, true, [0, 0, 0, 4294967295])
}

fn rules(rt: &impl Print) -> io::Result<()> {
    println!(rt;
        "the rule: in order; a1 > a2; a2 > a3; a3 over its limit; a4 < a3; a4 over its limit; a4 alone; a4 without DA4S"
    )?;
    for a in [
        [2u32, 2, 5, 9],
        [3, 2, 5, 9],
        [2, 6, 5, 9],
        [2, 2, 65536, 65536],
        [2, 2, 5, 4],
        [2, 2, 5, 1048577],
        [0, 0, 0, 1],
    ] {
        rule(rt, true, a)?;
    }
    rule(rt, false, [2, 2, 5, 9])?;
    println!(rt; "and at its limits, with DA4S and without")?;
    rule(rt, true, [65535, 65535, 65535, 1048576])?;
    rule(rt, false, [65535, 65535, 65535, 0])?;
    rule(rt, false, [0, 0, 0, 0])
}

fn good_headers(rt: &impl Print) -> io::Result<()> {
    println!(rt; "headers read back: 07h, 08h")?;
    check_whole(rt, 0x07, true, &sample(0x07))?;
    check_whole(rt, 0x08, true, &sample(0x08))?;
    println!(rt; "good: 07h with scope 0, 08h with byte 380 at FFh, 07h with TCDA 1 and a3 = 0")?;
    check_with(rt, 0x07, 380, 0)?;
    check_with(rt, 0x08, 380, 255)?;
    let mut empty = [0u8; 512];
    empty[0] = 0x07;
    empty[382] = 1;
    check_whole(rt, 0x07, false, &empty)?;
    println!(rt; "nothing: 08h with TCDA 0 and last blocks, and with none")?;
    check_with(rt, 0x08, 382, 0)?;
    check_bare(rt, 0x08, true, 382, 0)
}

// A header with no block, but for one byte.
fn check_bare(rt: &impl Print, page: u8, da4s: bool, at: usize, byte: u8) -> io::Result<()> {
    let mut h = [0u8; 512];
    h[0] = page;
    spoil(&mut h, at, byte);
    check_whole(rt, page, da4s, &h)
}

fn bad_lengths(rt: &impl Print) -> io::Result<()> {
    let host = sample(0x07);
    println!(rt;
        "bad: lengths 0, 511 and 513; 513 asked for as 08h, and as 09h, which no plan has"
    )?;
    for bytes in [0usize, 511, 513] {
        check_cut(rt, 0x07, &host, bytes)?;
    }
    check_cut(rt, 0x08, &host, 513)?;
    check_cut(rt, 0x09, &host, 513)
}

fn bad_areas(rt: &impl Print) -> io::Result<()> {
    println!(rt;
        "bad: a1 > a2, a2 > a3, a4 < a3, a4 over its limit, a4 alone, a4 without DA4S; 08h available but empty, and with TCDA 2"
    )?;
    check_with(rt, 0x07, 8, 3)?;
    check_with(rt, 0x08, 12, 1)?;
    check_with(rt, 0x07, 16, 4)?;
    check_with(rt, 0x08, 19, 1)?;
    check_bare(rt, 0x07, true, 16, 1)?;
    check_bare(rt, 0x08, false, 16, 1)?;
    check_bare(rt, 0x08, false, 382, 1)?;
    check_bare(rt, 0x08, true, 382, 2)
}

fn bad_headers(rt: &impl Print) -> io::Result<()> {
    let host = sample(0x07);
    println!(rt;
        "bad: identifier; a page asked for that is none; scope 3 of 07h and of 08h, TCDA 2 of 07h and of 08h"
    )?;
    check_whole(rt, 0x08, true, &host)?;
    check_bare(rt, 0x09, true, 0, 0x09)?;
    check_with(rt, 0x07, 380, 3)?;
    check_with(rt, 0x08, 381, 3)?;
    check_with(rt, 0x07, 382, 2)?;
    check_with(rt, 0x08, 382, 2)
}

// Whether a fault is one of two. A fault is its number here, since the rows print it and go through all eight in order.
fn has(i: u8, j: u8, fault: u8) -> bool {
    (i == fault) | (j == fault)
}

// Last blocks with the faults 3, 4, 5 and 8 of two: area 1 ends after area 2, area 2 after area 3, area 4 over its limit, and area 3 has no block. Else they
// are (2,2,5,9), or zeros; a4 is 0 without DA4S.
fn spoilt_last(da4s: bool, i: u8, j: u8) -> [u32; 4] {
    let none = has(i, j, 8);
    let plain = choices::pick(none, 0, 2);
    let a1 = choices::pick(has(i, j, 3), 7, plain);
    let a2 = choices::pick(has(i, j, 4), 6, plain);
    let a3 = choices::pick(none, 0, 5);
    let a4 = choices::pick(da4s & !none, 9, 0);
    [a1, a2, a3, choices::pick(has(i, j, 5), 1048577, a4)]
}

// A header of the page with the two faults but for the length, which is not made here.
fn spoilt(page: u8, da4s: bool, i: u8, j: u8) -> [u8; 512] {
    let last = spoilt_last(da4s, i, j);
    let mut h = header::write(Fields {
        page,
        oui: 0x123456,
        last,
        scope: choices::pick(has(i, j, 6), 3, 2),
        hostgeneration: 255,
        tcda: choices::pick(has(i, j, 7), 2, 1),
        controllergeneration: 7,
        reason: [3; 128],
    });
    h[0] = choices::pick(has(i, j, 2), 0x09, page);
    h
}

// The number of what is found at fault in a header.
fn found_in(rt: &impl Print, page: u8, da4s: bool, h: &[u8]) -> io::Result<()> {
    let fault = match plan_of(page, da4s, h) {
        Ok(_) => None,
        Err(why) => why.fault(),
    };
    print!(rt; " {}", shared_layouts::fault_number(fault))
}

fn pair(rt: &impl Print, page: u8, da4s: bool, bytes: usize, i: u8, j: u8) -> io::Result<()> {
    let mut longer = [0u8; 513];
    copies::put(&spoilt(page, da4s, i, j), &mut longer, 0);
    let end = choices::pick(has(i, j, 1), bytes, 512);
    found_in(rt, page, da4s, longer.get(..end).unwrap_or(&longer))
}

// A fault beside each of the eight.
fn row(rt: &impl Print, page: u8, da4s: bool, bytes: usize, i: u8) -> io::Result<()> {
    print!(rt; "{i}:")?;
    for j in 1..=8u8 {
        pair(rt, page, da4s, bytes, i, j)?;
    }
    println!(rt;)
}

fn pairs(rt: &impl Print, label: &str, page: u8, da4s: bool, bytes: usize) -> io::Result<()> {
    println!(rt; "{label}")?;
    for i in 1..=8u8 {
        row(rt, page, da4s, bytes, i)?;
    }
    Ok(())
}

fn faults(rt: &impl Print) -> io::Result<()> {
    println!(rt;
        "what is told of two faults: 1 length, 2 identifier, 3 to 5 areas 2 to 4, 6 scope, 7 TCDA, 8 available but empty, which is none on 07h"
    )?;
    pairs(rt, "07h with DA4S, the length 511", 0x07, true, 511)?;
    pairs(rt, "07h without, the length 513", 0x07, false, 513)?;
    pairs(rt, "08h with DA4S, the length 513", 0x08, true, 513)?;
    pairs(rt, "08h without, the length 511", 0x08, false, 511)
}

// The answer to a plan from the sample header (2,2,5,9), with this TCDA and byte 381, the scope of 08h and the generation of 07h, and the number of chunks.
fn plan(
    rt: &impl Print,
    page: u8,
    area: u8,
    chunk: u32,
    room: usize,
    etdas: bool,
    tcda: u8,
    scope: u8,
) -> io::Result<()> {
    let mut h = sample(page);
    h[382] = tcda;
    h[381] = scope;
    let caps = Caps {
        extended: true,
        telemetry: true,
        da4s: true,
        etdas,
        mcdas: false,
    };
    match completions::plan(page, area, caps, chunk, room, &h) {
        Ok(x) => println!(rt; "{} chunks {}", answers::SUCCESS, x.chunks),
        Err(why) => println!(rt; "{} chunks 0", why.number()),
    }
}

fn chunk_lists(rt: &impl Print) -> io::Result<()> {
    println!(rt; "plans of (2,2,5,9): area 4 with c = 1, 2, 3, 4, 5, 8, 9, 10, 8192")?;
    plan(rt, 0x07, 4, 1, 4608, true, 1, 1)?;
    plan(rt, 0x07, 4, 2, 4608, true, 1, 1)?;
    plan(rt, 0x08, 4, 3, 4608, true, 1, 1)?;
    plan(rt, 0x08, 4, 4, 4608, true, 1, 1)?;
    plan(rt, 0x07, 4, 5, 4608, true, 1, 1)?;
    plan(rt, 0x07, 4, 8, 4608, true, 1, 1)?;
    plan(rt, 0x08, 4, 9, 4608, true, 1, 1)?;
    plan(rt, 0x08, 4, 10, 4608, true, 1, 1)?;
    plan(rt, 0x08, 4, 8192, 4608, true, 1, 1)?;
    println!(rt; "areas 1, 2 and 3 with c = 2, without ETDAS")?;
    plan(rt, 0x07, 1, 2, 4608, false, 1, 1)?;
    plan(rt, 0x08, 2, 2, 4608, false, 1, 1)?;
    plan(rt, 0x07, 3, 2, 4608, false, 1, 1)
}

fn plan_refusals(rt: &impl Print) -> io::Result<()> {
    println!(rt;
        "room for one block less; 08h with TCDA 0 and room for one block less; scope 3, with that too"
    )?;
    plan(rt, 0x08, 4, 1, 4096, true, 1, 1)?;
    plan(rt, 0x08, 4, 1, 4096, true, 0, 1)?;
    plan(rt, 0x08, 4, 1, 4096, true, 0, 3)?;
    println!(rt;
        "area 4 without ETDAS, with that too; c = 0, 8193, area 0, 5, room 511, over the largest, page 09h, with that too"
    )?;
    plan(rt, 0x08, 4, 1, 4096, false, 0, 3)?;
    plan(rt, 0x08, 4, 0, 4096, false, 0, 3)?;
    plan(rt, 0x08, 4, 8193, 4096, false, 0, 3)?;
    plan(rt, 0x08, 0, 1, 4096, false, 0, 3)?;
    plan(rt, 0x08, 5, 1, 4096, false, 0, 3)?;
    plan(rt, 0x08, 4, 1, 511, false, 0, 3)?;
    plan(rt, 0x08, 4, 1, 536871424, false, 0, 3)?;
    plan(rt, 0x09, 4, 1, 4096, false, 0, 3)
}

fn main(rt: HostRuntime) -> io::Result<()> {
    identifiers(&rt)?;
    statuses(&rt)?;
    built(&rt)?;
    asked(&rt)?;
    trimmed(&rt)?;
    sizes(&rt)?;
    rules(&rt)?;
    good_headers(&rt)?;
    bad_lengths(&rt)?;
    bad_headers(&rt)?;
    bad_areas(&rt)?;
    faults(&rt)?;
    chunk_lists(&rt)?;
    plan_refusals(&rt)
}
