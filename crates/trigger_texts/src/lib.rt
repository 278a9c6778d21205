// Texts of trigger statistics, which are the list of the counts and the comparison of two: definitions and laws. There is no code.
#![tactic(auto)]
