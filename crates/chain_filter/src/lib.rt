// That a filter only thins out what a scan comes to: the statements are in specs/. There is no code.
#![tactic(auto)]
