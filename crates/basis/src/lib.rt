// Definitions and laws that every layer cites: they stand in specs/, and there is no code here.
#![tactic(auto)]
