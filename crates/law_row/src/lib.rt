// Theorems on rows: a built row shows no flag; what a corrected row shows; a packet laid in a row is found. Definitions and laws, no code.
#![tactic(auto)]
