// Plain sets of words, what is left of them after some letters, and the automata of source document 002: definitions and theorems, no code.
#![tactic(auto)]
