// Document 01's marked edges as one table, and one theorem that every row of it holds. Definitions and laws, no code.
#![tactic(auto)]
