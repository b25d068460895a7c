// No code: laws of the session's state, in proofs/.
#![tactic(auto)]
