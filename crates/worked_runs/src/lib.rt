// Runs worked out from the definitions, with real bytes: runs that are all that demand 3 asks for and take as many commands as its bound allows, lazy
// collectors whose runs break what it promises, and runs that show why each of its premises is there.
//
// It rests on demand3 and on what that rests on: specs/Scene.antt has the drives and what happens to them, specs/Lazy.antt the lazy collectors,
// specs/Computed.antt the runs, specs/Many.antt those with hundreds of captures, specs/Refuted.antt what they show. It has no code of its own.
#![tactic(auto)]
