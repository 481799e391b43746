// The IDT and the TSS in memory (SDM volume 3, 6.14 and 7.7).

ghost use Rattle.std.specs.Prelude.{◌≡◌, ◌<◌, ◌≤◌, ◌+◌, ◌^◌, not, ◌==◌, if◌then◌else◌};
ghost use Rattle.ev_gate.specs.Gate.{gate_at};
ghost use Rattle.ev_gate.specs.Tss.{ist_at, rsp0_at};
ghost use Rattle.ev_state.specs.Processor.{is_user, rsp};
ghost use Rattle.ev_mem.specs.Mapped.{memory};
ghost use Rattle.ev_idt.specs.IdtDelivery.{new_rsp};

use ev_gate::{Gate, gate_in};
use ev_mem::Mem;
use ev_state::Cpu;

/// The gate of a vector in the IDT at this address.
pub fn gate_at(mem: &Mem, idt: u64, vector: u8) -> Gate
    requires { idt + 4096 ≤ 2 ^ 64 }
    ensures is { result ≡ gate_at (memory mem.now).words idt vector }
    ensures ist { result.ist < 8 }
{
    let a = idt + 16 * u64::from(vector);
    gate_in(mem.word(a), mem.word(a + 8))
}

/// The stack that the gate leads to: its IST stack if it names one, else RSP0 on a change of
/// privilege, else the present one (SDM volume 3, 6.14.2 and 6.14.5).
fn stack(cpu: &Cpu, mem: &Mem, gate: &Gate) -> u64
    requires ist { gate.now.ist < 8 }
    requires tss { cpu.now.tss + 84 < 2 ^ 64 }
    ensures { result ≡ (if not (gate.now.ist == 0) then ist_at (memory mem.now).words cpu.now.tss
        gate.now.ist else (if is_user cpu.now then rsp0_at (memory mem.now).words cpu.now.tss else
        rsp cpu.now)) }
{
    if gate.ist != 0 {
        return mem.word(cpu.tss + 28 + 8 * u64::from(gate.ist));
    }
    if cpu.is_user() {
        return mem.word(cpu.tss + 4);
    }
    cpu.rsp()
}

/// The RSP from which the frame is pushed: that of the stack, aligned down to 16.
pub fn new_rsp(cpu: &Cpu, mem: &Mem, gate: &Gate) -> u64
    requires ist { gate.now.ist < 8 }
    requires tss { cpu.now.tss + 84 < 2 ^ 64 }
    ensures { result ≡ new_rsp cpu.now (memory mem.now).words gate.now }
{
    let a = stack(cpu, mem, gate);
    a - a % 16
}
