// What a burst of changed cable bits does to a row, and to the second of two rows: definitions and theorems, no code.
#![tactic(auto)]
