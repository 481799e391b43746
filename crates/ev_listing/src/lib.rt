//! The kernel's addresses and the statements of its code, as definitions: stubs of both modes, and
//! what each item of a body becomes.
#![tactic(auto)]
