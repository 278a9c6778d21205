// The chain of a recording, and that all calls of a reader follow it: the statements are in specs/. There is no code.
#![tactic(auto)]
