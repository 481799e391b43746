//! What a plain instruction does to registers and words: one definition, for user code over its
//! pages and for the processor over its memory. Definitions alone, in `specs/`.
#![tactic(auto)]
