// Which number of the refusal table a call answers. There is no code here: specs/ has the conditions of the table, proofs/ the cascades.
#![tactic(auto)]
