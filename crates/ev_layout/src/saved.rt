// The saved areas of tasks that wait at the opening.

ghost use Rattle.std.specs.Prelude.{◌≡◌, ◌<◌, ◌≤◌, length};
ghost use Rattle.ev_isa.specs.declared.mode.Mode.{Mode};
ghost use Rattle.ev_isa.specs.declared.mode.Mode.TheVariants.{Idt, Fred};
ghost use Rattle.ev_concrete.specs.Opening.{below_top, saved_words, stack_word};

use crate::cpu::START_FLAGS;
use ev_body::{Image, TaskSpec};
use ev_isa::Mode;

/// The words of a task's saved area under IDT, from its base up.
#[tactic(auto, unfolding(ev_isa::specs::Flags::flags_word))]
fn idt_words(task: &TaskSpec) -> [u64; 22]
    ensures { result ≡ saved_words Idt task.now }
{
    let regs = &task.regs;
    [
        regs[15],
        regs[14],
        regs[13],
        regs[12],
        regs[11],
        regs[10],
        regs[9],
        regs[8],
        regs[7],
        regs[6],
        regs[5],
        regs[3],
        regs[2],
        regs[1],
        regs[0],
        0, // error code
        0, // key
        task.start,
        0x33, // CS
        START_FLAGS,
        regs[4],
        0x2b, // SS
    ]
}

/// The words of a task's saved area under FRED, from its base up.
#[tactic(auto, unfolding(ev_isa::specs::Flags::flags_word))]
fn fred_words(task: &TaskSpec) -> [u64; 24]
    ensures { result ≡ saved_words Fred task.now }
{
    let regs = &task.regs;
    [
        regs[15],
        regs[14],
        regs[13],
        regs[12],
        regs[11],
        regs[10],
        regs[9],
        regs[8],
        regs[7],
        regs[6],
        regs[5],
        regs[3],
        regs[2],
        regs[1],
        regs[0],
        regs[0],
        0, // error code
        task.start,
        0x33, // CS
        START_FLAGS,
        regs[4],
        0x200_0000_0000_002b, // SS, and that the event came from 64-bit mode
        0,
        0,
    ]
}

/// The word so many bytes below the top of a stack at whose end these words stand.
fn below_top(words: &[u64], offset: u64) -> u64
    requires { length words.now ≤ 24 }
    ensures { result ≡ below_top words.now offset }
{
    let count = words.len() as u64;
    if offset > 8 * count {
        return 0;
    }
    words
        .get((count - offset / 8) as usize)
        .copied()
        .unwrap_or(0)
}

/// The word so many bytes below the top of a task's stack where it waits.
fn saved_word(mode: Mode, task: &TaskSpec, offset: u64) -> u64
    ensures { result ≡ below_top (saved_words mode task.now) offset }
{
    match mode {
        Mode::Idt => below_top(&idt_words(task), offset),
        Mode::Fred => below_top(&fred_words(task), offset),
    }
}

/// The word so many bytes below the top of stack n of processor p: tasks other than the first wait.
pub fn stack_word(image: &Image, mode: Mode, p: u64, n: u64, offset: u64) -> u64
    ensures { result ≡ stack_word mode image.now p n offset }
{
    if n == 0 {
        return 0;
    }
    match image.tasks.as_slice().get(p as usize) {
        Some(tasks) => match tasks.as_slice().get(n as usize) {
            Some(task) => saved_word(mode, task, offset),
            None => 0,
        },
        None => 0,
    }
}
