// The modes of a run.

/// In which modes a script is run: in one of them, or in both side by side. Own.
#[derive(Clone, Copy, Debug, Drop, PartialEq, Eq)]
pub enum Modes {
    /// Events are delivered through the IDT.
    Idt,
    /// Events are delivered by FRED.
    Fred,
    /// First the lines of IDT and then those of FRED, for each line of the script.
    Both,
}
