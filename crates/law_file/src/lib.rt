// The bench file as a whole. There is no code here: specs/ has what a file's bytes mean, proofs/ that a desk answers it, however the bytes arrive.
#![tactic(auto)]
