// A run of a collection from a source on which other things happen between its commands (specs/Source.antt), and what is promised of it for every
// source that keeps a few laws (specs/Keeps.antt, specs/Promise.antt).
//
// It rests on the host side and knows no controller: the crate demand3 shows that the project's own controller is such a source. It has no
// code of its own.
#![tactic(auto)]
