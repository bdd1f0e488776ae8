// A controller's record: what it can do, who it is, and what its two pages hold beside their stores.
//
// It rests on choices, copies, pages, lastblocks and header. It promises when a record and the lent stores agree, what a header of each page shows
// of a record (specs/Records.antt), and that the header of an agreeing record is checked by the host to just that (specs/Back.antt).
// The four parts are structs of their own, since later they do not all belong to one controller.
#![tactic(auto)]

ghost use Rattle.std.specs.Prelude.{◌≡◌, ◌*◌};
ghost use Rattle.records.specs.Records.{identity_ok, store_ok, controller_ok, agrees_with, host_fields, controller_fields, fields_for, fresh_of};

use header::Fields;
use pages::Caps;

// Fixed for a controller's life: the OUI, and the scopes of its 07h and its 08h data. A scope is any number, and `agrees` tells a bad one.
#[derive(Clone, Copy)]
pub struct Identity {
    pub oui: u32,
    pub hostscope: u8,
    pub controllerscope: u8,
}

// Page 07h, host-initiated.
#[derive(Clone, Copy)]
pub struct HostPage {
    pub last: [u32; 4],
    pub generation: u8,
    pub reason: [u8; 128],
}

// Page 08h, controller-initiated. `notice` is the event that tells a host of it. `tcda` is any number, and `agrees` tells one above 1.
#[derive(Clone, Copy)]
pub struct ControllerPage {
    pub last: [u32; 4],
    pub generation: u8,
    pub tcda: u8,
    pub notice: bool,
    pub reason: [u8; 128],
}

#[derive(Clone, Copy)]
pub struct Record {
    pub caps: Caps,
    pub identity: Identity,
    pub host: HostPage,
    pub controller: ControllerPage,
}

#[tactic(auto, unfolding(crate::specs::Records::identity_ok, choices::specs::Tests::holds))]
fn identity_ok(i: Identity) -> bool
    ensures { result ≡ identity_ok i }
{
    ((i.hostscope == 1) | (i.hostscope == 2))
        & ((i.controllerscope == 1) | (i.controllerscope == 2))
        & (i.oui < 16777216)
}

// The last blocks keep the rule and lie within a store of this many bytes.
#[tactic(auto, unfolding(crate::specs::Records::store_ok, choices::specs::Tests::holds))]
fn store_ok(da4s: bool, last: [u32; 4], store: usize) -> bool
    ensures { result ≡ store_ok da4s last store }
{
    lastblocks::last_ok(da4s, last)
        & (pages::BLOCK * (lastblocks::greatest(last) as usize) <= store)
}

// TCDA and the last blocks of 08h go together.
#[tactic(auto, unfolding(crate::specs::Records::controller_ok, choices::specs::Tests::holds))]
fn controller_ok(da4s: bool, tcda: u8, last: [u32; 4], store: usize) -> bool
    ensures { result ≡ controller_ok da4s tcda last store }
{
    store_ok(da4s, last, store)
        & (tcda <= 1)
        & ((tcda != 0) | (lastblocks::greatest(last) == 0))
        & ((tcda != 1) | (0 < last[2]))
}

// The record agrees with itself and with stores of these many bytes. Where it does not, the answer of a command or a capture is 4.
#[tactic(auto, unfolding(crate::specs::Records::agrees_with, choices::specs::Tests::holds))]
pub fn agrees(r: Record, host_store: usize, controller_store: usize) -> bool
    ensures { result ≡ agrees_with r host_store controller_store }
{
    store_ok(r.caps.da4s, r.host.last, host_store)
        & controller_ok(
            r.caps.da4s,
            r.controller.tcda,
            r.controller.last,
            controller_store,
        )
        & identity_ok(r.identity)
}

// Of its eight fields the header of 08h has three in common: a function for both would be no plainer.
#[tactic(auto, unfolding(crate::specs::Records::host_fields))]
fn host_fields(r: Record) -> Fields
    ensures { result ≡ host_fields r }
{
    let HostPage {
        last,
        generation,
        reason,
    } = r.host;
    Fields {
        page: pages::HOST,
        oui: r.identity.oui,
        last,
        scope: r.identity.hostscope,
        hostgeneration: generation,
        tcda: r.controller.tcda,
        controllergeneration: r.controller.generation,
        reason,
    }
}

#[tactic(auto, unfolding(crate::specs::Records::controller_fields))]
fn controller_fields(r: Record) -> Fields
    ensures { result ≡ controller_fields r }
{
    let ControllerPage {
        last,
        generation,
        tcda,
        reason,
        ..
    } = r.controller;
    Fields {
        page: pages::CONTROLLER,
        oui: r.identity.oui,
        last,
        scope: r.identity.controllerscope,
        hostgeneration: 0,
        tcda,
        controllergeneration: generation,
        reason,
    }
}

// What a header of the page shows of the record: 07h's, and 08h's for any other number.
#[tactic(auto, unfolding(crate::specs::Records::fields_for))]
pub fn fields(page: u8, r: Record) -> Fields
    ensures { result ≡ fields_for page r }
{
    if page == pages::HOST {
        host_fields(r)
    } else {
        controller_fields(r)
    }
}

// A record before any capture: generations, last blocks, reasons, TCDA and notice at zero.
#[tactic(auto, unfolding(crate::specs::Records::fresh_of))]
pub fn fresh(caps: Caps, identity: Identity) -> Record
    ensures { result ≡ fresh_of caps identity }
{
    Record {
        caps,
        identity,
        host: HostPage {
            last: [0; 4],
            generation: 0,
            reason: [0; 128],
        },
        controller: ControllerPage {
            last: [0; 4],
            generation: 0,
            tcda: 0,
            notice: false,
            reason: [0; 128],
        },
    }
}
