// The protocol of switches and controllers over abstract contents and tables: definitions and laws, no code. The crate
// `domain` shows that the runs of the real ends are runs of it.
#![tactic(auto)]
