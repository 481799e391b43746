//! Code and user text are read back from memory as the instructions that they spell.
#![tactic(auto)]

ghost use Rattle.ev_fetch.specs.Claims.{KernelFetches, BodiesAreSpelled, AcceptedAreSpelled, TextFetches, StaysInCode};

/// Where memory holds the opening's words of code, the kernel fetches each instruction of the code
/// table at its address, if all of them have spellings. They have where the numbers of items are
/// in range, and so in each accepted image. Where it holds the text, user code fetches what the
/// text's bytes read as. What can be fetched ends at a canonical address. Own.
pub fn fetches()
    ensures kernel { KernelFetches }
    ensures spelled { BodiesAreSpelled }
    ensures accepted { AcceptedAreSpelled }
    ensures text { TextFetches }
    ensures inside { StaysInCode }
{}
