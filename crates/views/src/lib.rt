// What the bytes show of the slave: the model's step of every call, and the laws of every command, from its packet to what then reads.
#![tactic(auto)]
