// The search for the frames of a function's code: definitions and theorems, with no code of its own.
#![tactic(auto)]
