// Demand 3 in one piece, and the starred cases (E): both in specs/. There is no code.
#![tactic(auto)]
