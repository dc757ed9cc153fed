// No code: what a proof by hand of a function over a run of records is made of, where its code is walked through as MIR.
#![tactic(auto)]
