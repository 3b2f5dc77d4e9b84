// The calls on sixteen plain sets of names: definitions, no code.
#![tactic(auto)]
