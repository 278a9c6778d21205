// What the listing of a recording is, and that loads through windows put it. There is no code.
#![tactic(auto)]
