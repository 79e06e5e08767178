// Calls of the library repeated in a loop, for the benchmarks of bench/. Each exported function sets up what a call
// needs, makes the call over and over and mixes what the calls answer into a sum, which bench/ compares with that of
// other code. Hashes, HMACs, playbooks read and inputs rehearsed: sum and lent bytes are those of so many calls. Calls at
// an end, and FLOW_MODs: any sum below 2 ^ 45, and a frame keeps its length.
#![tactic(auto)]

mod controllers;
mod flow_mods;
mod playbooks;
mod rehearsals;
mod switches;
mod tags;
mod turns;
