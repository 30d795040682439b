// What a host is promised of every call, in one place: the statements are in specs/, their proofs in proofs/.
#![tactic(auto)]
