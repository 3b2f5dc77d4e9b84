// The examples of 01 that are proved: a table, and one statement over the model.
#![tactic(auto)]
