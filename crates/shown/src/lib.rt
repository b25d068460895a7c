// No code: computed runs, in proofs/.
#![tactic(auto)]
