// What the calls promise, in one record for all of them, and what that is worth: two outcomes are the same but for
// which rows hold which states, a refusal changes nothing, and after any calls from an empty book it answers as
// sixteen plain sets do, in the fewest states. Definitions and theorems, no code.
#![tactic(auto)]
