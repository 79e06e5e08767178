// That the whole-run claim is about something: runs within the premises, a full round from wherever a run has come to,
// and a worked evening. Definitions and laws, no code.
#![tactic(auto)]
