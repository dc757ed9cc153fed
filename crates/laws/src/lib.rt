// What holds of document 01's definitions, for any sheet and any sides: all of this crate stands in proofs/, and there is no code.
#![tactic(auto)]
