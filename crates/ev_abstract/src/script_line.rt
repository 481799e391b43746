// Lines of a script.

use ev_body::Key;

/// A line of a script.
#[derive(Clone, Copy, Debug, Drop, PartialEq, Eq)]
pub enum Line {
    /// The processor makes edges and then one visible step.
    Turn(u32),
    /// The processor makes at most so many edges (1 to 4,096), and stops before a visible step.
    Edge(u32, u32),
    /// A vector becomes pending on the processor, or its NMI latch is set.
    Arrive(u32, Key),
    /// The processor's mail moves to its pending vectors and NMI latch.
    Accept(u32),
}
