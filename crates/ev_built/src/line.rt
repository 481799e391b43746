// Script lines that `run` takes today.

ghost use Rattle.std.specs.Prelude.{◌≡◌};
ghost use Rattle.ev_built.specs.Built.{line_is_built};

use ev_abstract::Line;
use ev_body::Key;

/// Whether `run` takes the script line today: a turn, an interrupt that arrives, or mail that is
/// accepted. Own.
#[tactic(auto, unfolding(crate::specs::Built::line_is_built))]
pub fn line_is_built(line: &Line) -> bool
    ensures { result ≡ line_is_built line.now }
{
    matches!(
        line,
        Line::Turn(_) | Line::Arrive(_, Key::Irq(_)) | Line::Accept(_)
    )
}
