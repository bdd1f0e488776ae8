// Demands 1 and 2 said directly, where they could only be read out of the definitions: which answers each function gives (specs/Answers.antt), which field of
// a header is at fault (specs/Fields.antt), that a collection's 7 tells it and nothing else does (specs/Faults.antt), that a plan answers the first of its
// order and a first header is answered as it is planned (specs/Plans.antt), and that a header comes back to the record's fields whoever reads it, and a page
// has its size (specs/Headers.antt); and that every
// ending of a collection is one that the month's sheet takes (specs/Month.antt).
//
// It rests on both sides' definitions and on the sheet's, and has no code of its own.
#![tactic(auto)]
