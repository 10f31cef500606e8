// Laws of numbers and sums, in specs/. No code.
#![tactic(auto)]
