// The whole run of switches and controllers against an ideal controller: definitions and laws, no code. specs/ holds
// the claim, in document 01's words and order; proofs/Theorem.antt proves it.
#![tactic(auto)]
