// Laws about the written meaning: see proofs/.
#![tactic(auto)]
