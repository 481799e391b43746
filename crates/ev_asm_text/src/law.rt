// The law of the text.

ghost use Rattle.ev_asm_text.specs.Listed.{InstructionsAreLines};

/// A text that is spelled by instructions, with bytes behind them that begin none, is printed as one
/// line for each of them, at its address: the bytes behind them are not printed. Own.
pub fn instructions_are_lines()
    ensures { InstructionsAreLines }
{}
