// The marked examples of document 01 and three tallies, stated in rules/specs/Examples.antt and Tallies.antt, and a run that meets A4's law: computed in proofs/. No code.
#![tactic(auto)]
