// Facts about wheels, sets, tables and lists, each shown once for every N, S, H and P. There is no
// code here: the laws stand in `specs/`, and the proofs of the other crates cite them.
#![tactic(auto)]
