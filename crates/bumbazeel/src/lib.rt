// The functions of include/bumbazeel.h: the static library, which C is linked with.
//
// It rests on the four boundary crates. Each export calls the function of its name there, and states that function's clauses again; what the clauses say is
// told there. A crate is a library or a static library, and no crate can rest on a static library: so the work is theirs, and this is a name for C.
#![tactic(auto)]

mod controllers;
mod host;
mod meanings;
mod sheet;
