// Demand 3 on the table: definitions and theorems, no code.
#![tactic(auto)]
