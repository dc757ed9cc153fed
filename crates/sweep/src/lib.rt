// A sweep over the cells between two rows of words: what it is stands in specs/, and what loops cite of it in proofs/. There is no code here.
#![tactic(auto)]
