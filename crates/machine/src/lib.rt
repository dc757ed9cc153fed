// The table machine: what stitching does to the open table and the link table, as functions on lists. The code of `lines` equals it, and
// proofs/ shows that it carries document 01's lines. There is no code here.
#![tactic(auto)]
