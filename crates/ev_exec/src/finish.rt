// The end of an instruction.

ghost use Rattle.std.specs.Prelude.{◌≡◌, true};
ghost use Rattle.ev_isa.specs.Word.{is_canonical};
ghost use Rattle.ev_effect.specs.Effect.{in_flags};
ghost use Rattle.ev_exec.specs.After.{done, task_at};

use ev_state::{Cpu, Status};

/// The instruction completes, and RIP goes to the next one.
pub fn finish(cpu: &mut Cpu, next: u64)
    requires { is_canonical next ≡ true }
    ensures { cpu.new ≡ done cpu.old (task_at cpu.old next) }
{
    cpu.kept();
    cpu.go(next);
    cpu.complete();
}

/// The instruction completes with these status flags, and RIP goes to the next one.
pub fn finish_with(cpu: &mut Cpu, status: Status, next: u64)
    requires { is_canonical next ≡ true }
    ensures { cpu.new ≡ done cpu.old (in_flags (task_at cpu.old next) status) }
{
    cpu.set_status(status);
    cpu.go(next);
    cpu.complete();
}
