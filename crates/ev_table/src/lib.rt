//! The code of an image in either mode as a table: what stands at the cells of the kernel and at
//! the items of bodies, and which cells the abstract machine sees.
#![tactic(auto)]

ghost use Rattle.ev_table.specs.Table.{KernelStands, CellsAreSpaced, ItemsStand, ItemsAreMarked, ItemsFollow, ItemLabelsArePlaced, OwnLabelsArePlaced, TakenLabelsArePlaced, ExitsArePlaced, RetStands, OthersHaveOneExit, BodiesBeginWithItems, ItemsAreCanonical, CellsAreMarked, KernelMarksReadNoMemory};

/// In both modes, for every image: the kernel's cells stand in the table, the cells of each item
/// stand at its address with its marks, and an address has the mark of its cell; no mark in the
/// kernel's own code reads memory. Own.
pub fn table()
    ensures kernel { KernelStands }
    ensures spaced { CellsAreSpaced }
    ensures items { ItemsStand }
    ensures item_marks { ItemsAreMarked }
    ensures follow { ItemsFollow }
    ensures labels { ItemLabelsArePlaced }
    ensures own_labels { OwnLabelsArePlaced }
    ensures taken_labels { TakenLabelsArePlaced }
    ensures placed { ExitsArePlaced }
    ensures rets { RetStands }
    ensures exits { OthersHaveOneExit }
    ensures first_items { BodiesBeginWithItems }
    ensures canonical { ItemsAreCanonical }
    ensures marks { CellsAreMarked }
    ensures memory { KernelMarksReadNoMemory }
{}
