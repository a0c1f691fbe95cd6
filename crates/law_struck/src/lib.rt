// Demand 3 in the session: a run of damage in the cable bits fails the module. There is no code here.
#![tactic(auto)]
