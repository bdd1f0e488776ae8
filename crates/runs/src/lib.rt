// Runs of a collection, proved from the definitions for any completions at all, from any controller: its count is the length of the run's
// record (specs/Counted.antt), its states never get 13 and it ends (proofs/Bound.antt), which commands carry RAE and create
// (proofs/Retained.antt, proofs/Acknowledged.antt), which two headers it ends well by (specs/Matched.antt), what its copy holds (proofs/Held.antt; specs/Stale.antt
// computes a run of two attempts), and that an undisturbed one sends as many chunks as are planned (specs/Undisturbed.antt). The paper's listing from the
// definitions is specs/Listing.antt.
//
// It rests on choices, copies, answers, pages, lastblocks, words, header, plans, phases, refusals, completions, endings, judgement, touches, turns
// and collection, and has no code of its own.
#![tactic(auto)]
