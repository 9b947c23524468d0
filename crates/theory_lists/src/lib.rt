// Laws on lists and sums that the contracts and proofs of the other crates cite. No code.
#![tactic(auto)]
