//! What activations of handlers are: their kinds and their seats on the processor's stacks, told
//! from the contexts that they stand for.
#![tactic(auto)]
