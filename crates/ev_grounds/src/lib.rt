//! The windows of every block, who is grounded in one, and when the facts of paths hold.
#![tactic(auto)]

ghost use Rattle.ev_grounds.specs.Facts.{FactsTell};
ghost use Rattle.ev_grounds.specs.Grounds.{WindowsFit, InnerIsApart, OthersAreApart, DeeperAreApart, AllGrounded};

/// The windows of every block are forms, of which closed tests hold: what a block writes lies
/// apart from what it knows, an inner NMI apart from what it interrupted, and whatever writes its
/// own stack alone apart from activations on other stacks and above it. An activation that is
/// where a spot says is grounded in its block. Own.
pub fn windows()
    ensures fit { WindowsFit }
    ensures inner { InnerIsApart }
    ensures others { OthersAreApart }
    ensures deeper { DeeperAreApart }
    ensures grounded { AllGrounded }
{}

/// When the facts hold that say which way a path of the kernel's code goes. Own.
pub fn facts_of_paths()
    ensures tell { FactsTell }
{}
