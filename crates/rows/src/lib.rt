// The starred rows of document 01, proved from the definitions as one statement over a list of rows: specs/Rows.antt.
//
// It rests on the crates whose definitions the rows speak of, and has no code of its own.
#![tactic(auto)]
