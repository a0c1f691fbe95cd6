// A clean signal passes (demand 2, in the session). There is no code here.
#![tactic(auto)]
