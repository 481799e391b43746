//! The symbolic executor over straight blocks of kernel code: its soundness against the
//! processor's step, steps inside blocks, joins of blocks, and what others leave alone; and single
//! instructions that stand between blocks.
#![tactic(auto)]

ghost use Rattle.ev_symbolic.specs.Claims.{IsSound, StepsInside, LeavesOthers, PartsStand};
ghost use Rattle.ev_symbolic.specs.Single.{SinglesAreSteps};

/// A symbolic step that gives an answer is a step of the processor. A processor that stands at an
/// instruction of a block goes to the next one, whatever block it is. Whoever leaves the private
/// words of an activation alone leaves it where it stands.
pub fn executor()
    ensures sound { IsSound }
    ensures inside { StepsInside }
    ensures others { LeavesOthers }
{}

/// Single instructions of the kernel, over any registers and numbers: each goes on at the next
/// instruction, or where it jumps, and writes its word. Own.
pub fn instructions()
    ensures single { SinglesAreSteps }
{}

/// Sections of listings whose cells the code has stand in it by themselves, with the jumps'
/// targets of the whole. Own.
pub fn listings()
    ensures parts { PartsStand }
{}
