// The tables of records agree: the notation's table beside what the playbook, the rehearsal and the messages read.
// Definitions and laws, no code.
#![tactic(auto)]
