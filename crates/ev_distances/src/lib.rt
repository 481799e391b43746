//! The windows of activations lie apart, for every processor: intervals of the address map, by
//! part.
#![tactic(auto)]

ghost use Rattle.ev_distances.specs.Claims.{ApartIsFar, OthersAreApart, CoveredIsOpen, FormsAreApart, FormsAreOpen, OfTwoProcessors, OnTwoStacks, ByDepth, AtOneTop};

/// Windows whose intervals are apart share no place, whether they are two activations' or one's,
/// and the kernel has access to the words of windows that its regions cover.
pub fn distances()
    ensures far { ApartIsFar }
    ensures apart { OthersAreApart }
    ensures accessible { CoveredIsOpen }
{}

/// Windows told by their form alone: those of one activation lie apart where a closed test of the
/// forms says so, and the kernel has access to them; those of two do where they are two
/// processors', or on two stacks, or one lies below the other, or they are disjoint parts at one
/// place of a stack.
pub fn forms()
    ensures apart { FormsAreApart }
    ensures open_words { FormsAreOpen }
    ensures processors { OfTwoProcessors }
    ensures stacks { OnTwoStacks }
    ensures depth { ByDepth }
    ensures top { AtOneTop }
{}
