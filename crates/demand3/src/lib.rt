// Both sides together, demand 3: a collection from the project's own controller, on which any other host sends any commands, captures are taken and 07h is
// dropped between the collection's commands.
//
// It rests on both sides and on sources, whose argument it uses: specs/Bench.antt is the controller as a source, specs/Demand3.antt the promise. All
// of it is said of the definitions that the contracts of `controller::command`, `controller::capture`, `controller::drop`, `beginnings::setup` and
// `Collection::step` cite. It has no code of its own.
#![tactic(auto)]
