// Counting on columns of rows. No code.
#![tactic(auto)]
