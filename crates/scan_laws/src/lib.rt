// Laws of the step, of the examination and of the load. There is no code.
#![tactic(auto)]
