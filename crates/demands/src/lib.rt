// The demands, each a proposition in words of the definitions (specs/), and that they hold (proofs/). There is no code here.
#![tactic(auto)]
