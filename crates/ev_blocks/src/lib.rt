//! Blocks of the kernel's code in both modes, each a path through the listing: their openings,
//! their windows, and how many edges are left in them. No block depends on the kind of its
//! activation: what the event was is in its variables, and which way a path goes is a fact.
#![tactic(auto)]

ghost use Rattle.ev_blocks.specs.Blocks.{AllCallEdgesFall, AllEdgesFall};

/// From block to block fewer edges are left. Own.
pub fn edges()
    ensures fall { AllEdgesFall }
    ensures calls { AllCallEdgesFall }
{}
