// The written meaning has definitions only: see specs/.
#![tactic(auto)]
