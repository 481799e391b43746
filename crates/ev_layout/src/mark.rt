// Marks of visible instructions.

/// When the abstract machine makes a step with an instruction of the kernel: never, always, where it
/// reads another value than 0, or where its exchange succeeds. Own.
#[derive(Clone, Copy, Debug, Drop, PartialEq, Eq)]
pub enum Mark {
    Never,
    Always,
    IfNonzero,
    IfEqual,
}
