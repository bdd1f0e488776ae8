// The C boundary, call after call: `bumbazeel_setup`, `bumbazeel_command`, `bumbazeel_capture`, `bumbazeel_drop` and `bumbazeel_step`, each lent the bytes
// that the last call left, are a run, and demand 3 holds of it. And what the bytes tell of a bad header.
//
// It rests on both sides of the C boundary, whose definitions the contracts of those functions cite, and on demand3 and demands, whose theorems it uses.
// specs/Calls.antt is a C program's loop, and specs/CDemand3.antt what such a program may rest on, both said of bytes; specs/Same.antt shows that the loop
// is demand 3's run, since the state and the record that a call's bytes say are those that the call's definition gave (specs/State.antt,
// specs/Record.antt). What any setup, step or plan tells of the field at fault in a header is in specs/Fields.antt. It has no code of its own.
#![tactic(auto)]
