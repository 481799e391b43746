// What holds of all probe lines.

ghost use Rattle.ev_probe.specs.Laws.{FourTriesSuffice, FredFramesAreRead, RefusedInputsHaveNoText};

/// No delivery of a probe line is tried more than four times: the event, a fault that it meets, one
/// that this meets, and #DF. So the limit on tries cuts nothing off. Own.
pub fn tries_end()
    ensures { FourTriesSuffice }
{}

/// The eight words that FRED delivery writes, as bytes, are read as the frame of the event: no
/// reserved bit is set, and each field is where it is read (FRED specification, "FRED stack
/// frame").
pub fn frames_read()
    ensures { FredFramesAreRead }
{}

/// What a reader refuses of a whole input is what the input's text refuses. Own.
pub fn refused_inputs()
    ensures { RefusedInputsHaveNoText }
{}
