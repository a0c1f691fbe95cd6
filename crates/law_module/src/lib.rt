// Demand 1: a module's verdict is its own. There is no code here: specs/ has what a module means, proofs/ that a session answers it.
#![tactic(auto)]
