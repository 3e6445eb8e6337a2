// The two round trips of A8, stated in specs/RoundTrips.antt and proved in proofs/. No code.
#![tactic(auto)]
