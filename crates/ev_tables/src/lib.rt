//! The tables that a delivery through the IDT reads stand in the memory of each image.
#![tactic(auto)]

ghost use Rattle.ev_tables.specs.Claims.{GatesStand, StacksStand, TablesStand};

/// Where memory has an image's regions and the opening's words of the IDT, a processor of the
/// image whose IDT and TSS are those of the opening finds them mapped and aligned, and each of the
/// 256 gates is a present handler's with selector 10H and a canonical offset. Each is the
/// opening's, with its offset, IST and DPL, and the TSS names the stacks of NMIs and double
/// faults. Own; SDM volume 3, 6.14.1 and 7.7, for gates and the TSS.
pub fn tables()
    ensures stand { TablesStand }
    ensures gates { GatesStand }
    ensures stacks { StacksStand }
{}
