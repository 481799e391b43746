// Runs of scripts.

ghost use Rattle.std.specs.Prelude.{◌≡◌, ◌<◌, ◌≤◌, ◌^◌, true, [], ◌∷◌, length, Err, OnOk, OnErr};
ghost use Rattle.std.specs.List.{list_all};
ghost use Rattle.std.specs.Io.KnownBytes.{append_known};
ghost use Rattle.ev_isa.specs.declared.mode.Mode.{Mode};
ghost use Rattle.ev_isa.specs.declared.mode.Mode.TheVariants.{Idt, Fred};
ghost use Rattle.ev_body.specs.declared.image.Image.{Image};
ghost use Rattle.ev_io.specs.Transfer.{Rose, TookPrefix};
ghost use Rattle.ev_abstract.specs.CallLaws.{KeepsCalls};
ghost use Rattle.ev_abstract.specs.Run.{trace};
ghost use Rattle.ev_abstract.specs.Script.{IsScript};
ghost use Rattle.ev_built.specs.Built.{IsBuilt, line_is_built};
ghost use Rattle.ev_concrete.specs.RunText.{run_text};
ghost use Rattle.ev_core.specs.Run.{IsRun};
ghost use Rattle.ev_pair.specs.Chains.{KeepsChains};
ghost use Rattle.ev_pair.specs.Modes.{modes_of};
ghost use Rattle.ev_pair.specs.Outcome.{OnWriteFault};
ghost use Rattle.ev_pair.specs.Safety.{RunIsSafe};
ghost use Rattle.ev_pair.specs.Within.{is_within};
ghost use Rattle.ev_pair.specs.declared.fault.RunFault.{RunFault};

use crate::fault::RunFault;
use crate::modes::Modes;
use crate::side::{put_end, put_line};
use ev_abstract::Line;
use ev_accept::Accepted;
use ev_core::{Machine, Steps};
use ev_io::{Failed, Sink};
use ev_isa::Mode;
use std::alloc::Global;
use std::marker::Brand;
use std::sync::ledger::{Blank, Ledger};

/// Makes the lines of a script and writes what they and the end show.
fn put_one<L: Ledger, K: Sink>(
    machine: &mut Machine,
    mode: Mode,
    script: &[Line],
    frames: bool,
    sink: &mut K,
    steps: &mut Steps<L>,
) -> Result<(), Failed>
    requires lines { list_all line_is_built script.now ≡ true }
    requires few { length script.now < 2 ^ 32 }
    requires processors { length machine.old.parts.cpus < 256 }
    requires within { list_all (is_within (length machine.old.parts.cpus)) script.now ≡ true }
    requires count { machine.old.parts.totals.steps ≡ 0 }
    ensures ok { (image : Image) → IsRun mode image [] machine.old
        → IsScript image script.now → OnOk result (K.taken sink.new ≡ append_known (K.taken sink.old)
        (run_text image script.now (mode ∷ []) frames)) }
    ensures failed { (image : Image) → IsRun mode image [] machine.old
        → IsScript image script.now → OnErr result (TookPrefix (K.taken sink.old) (K.taken sink.new)
        (run_text image script.now (mode ∷ []) frames)) }
    ensures later { K.faults sink.old ≤ K.faults sink.new }
    ensures cause { OnErr result (Rose (K.faults sink.old) (K.faults sink.new)) }
{
    for line in script {
        put_line(machine, mode, line, frames, sink, steps)?;
    }
    put_end(machine, mode, frames, sink, steps)
}

/// The same in both modes: of each line of the script first what it shows under IDT and then what it
/// shows under FRED, and so the ends.
fn put_both<L: Ledger, K: Sink>(
    idt: &mut Machine,
    fred: &mut Machine,
    script: &[Line],
    frames: bool,
    sink: &mut K,
    steps: &mut Steps<L>,
) -> Result<(), Failed>
    requires lines { list_all line_is_built script.now ≡ true }
    requires few { length script.now < 2 ^ 32 }
    requires idt_processors { length idt.old.parts.cpus < 256 }
    requires idt_within { list_all (is_within (length idt.old.parts.cpus)) script.now ≡ true }
    requires idt_count { idt.old.parts.totals.steps ≡ 0 }
    requires fred_processors { length fred.old.parts.cpus < 256 }
    requires fred_within { list_all (is_within (length fred.old.parts.cpus)) script.now ≡ true }
    requires fred_count { fred.old.parts.totals.steps ≡ 0 }
    ensures ok { (image : Image) → IsRun Idt image [] idt.old → IsRun Fred image [] fred.old
        → IsScript image script.now → OnOk result (K.taken sink.new ≡ append_known (K.taken sink.old)
        (run_text image script.now (Idt ∷ Fred ∷ []) frames)) }
    ensures failed { (image : Image) → IsRun Idt image [] idt.old → IsRun Fred image [] fred.old
        → IsScript image script.now → OnErr result (TookPrefix (K.taken sink.old) (K.taken sink.new)
        (run_text image script.now (Idt ∷ Fred ∷ []) frames)) }
    ensures later { K.faults sink.old ≤ K.faults sink.new }
    ensures cause { OnErr result (Rose (K.faults sink.old) (K.faults sink.new)) }
{
    for line in script {
        put_line(idt, Mode::Idt, line, frames, sink, steps)?;
        put_line(fred, Mode::Fred, line, frames, sink, steps)?;
    }
    put_end(idt, Mode::Idt, frames, sink, steps)?;
    put_end(fred, Mode::Fred, frames, sink, steps)
}

/// Runs a script in one mode.
fn run_one<L: Ledger, K: Sink>(
    alloc: Global,
    accepted: &Accepted,
    script: &[Line],
    mode: Mode,
    frames: bool,
    sink: &mut K,
    steps: &mut Steps<L>,
) -> Result<(), RunFault>
    requires image { IsBuilt accepted.now.image }
    requires script { IsScript accepted.now.image script.now }
    requires lines { list_all line_is_built script.now ≡ true }
    requires few { length script.now < 2 ^ 32 }
    ensures ok { OnOk result (K.taken sink.new ≡ append_known (K.taken sink.old)
        (run_text accepted.now.image script.now (mode ∷ []) frames)) }
    ensures failed { OnErr result
        (TookPrefix (K.taken sink.old) (K.taken sink.new)
        (run_text accepted.now.image script.now (mode ∷ []) frames)) }
    ensures unwritten { result ≡ Err RunFault.NoMemory → sink.new ≡ sink.old }
    ensures later { K.faults sink.old ≤ K.faults sink.new }
    ensures cause { OnWriteFault result (Rose (K.faults sink.old) (K.faults sink.new)) }
{
    let Ok(mut machine) = Machine::open(alloc, accepted, mode) else {
        return Err(RunFault::NoMemory);
    };
    match put_one(&mut machine, mode, script, frames, sink, steps) {
        Ok(()) => Ok(()),
        Err(Failed) => Err(RunFault::WriteFault),
    }
}

/// Runs a script in both modes.
fn run_both<L: Ledger, K: Sink>(
    alloc: Global,
    accepted: &Accepted,
    script: &[Line],
    frames: bool,
    sink: &mut K,
    steps: &mut Steps<L>,
) -> Result<(), RunFault>
    requires image { IsBuilt accepted.now.image }
    requires script { IsScript accepted.now.image script.now }
    requires lines { list_all line_is_built script.now ≡ true }
    requires few { length script.now < 2 ^ 32 }
    ensures ok { OnOk result (K.taken sink.new ≡ append_known (K.taken sink.old)
        (run_text accepted.now.image script.now (Idt ∷ Fred ∷ []) frames)) }
    ensures failed { OnErr result
        (TookPrefix (K.taken sink.old) (K.taken sink.new)
        (run_text accepted.now.image script.now (Idt ∷ Fred ∷ []) frames)) }
    ensures unwritten { result ≡ Err RunFault.NoMemory → sink.new ≡ sink.old }
    ensures later { K.faults sink.old ≤ K.faults sink.new }
    ensures cause { OnWriteFault result (Rose (K.faults sink.old) (K.faults sink.new)) }
{
    let Ok(mut idt) = Machine::open(alloc, accepted, Mode::Idt) else {
        return Err(RunFault::NoMemory);
    };
    let Ok(mut fred) = Machine::open(alloc, accepted, Mode::Fred) else {
        return Err(RunFault::NoMemory);
    };
    match put_both(&mut idt, &mut fred, script, frames, sink, steps) {
        Ok(()) => Ok(()),
        Err(Failed) => Err(RunFault::WriteFault),
    }
}

/// The run for a blank ledger, in which its steps are counted.
fn run_counted<L: Ledger, K: Sink>(
    alloc: Global,
    accepted: &Accepted,
    script: &[Line],
    modes: Modes,
    frames: bool,
    sink: &mut K,
    blank: Blank,
) -> Result<(), RunFault>
    requires ledger { (blank.name ≡ L.name) × (blank.parts ≡ L.parts) × (0 < blank.parts) }
    requires image { IsBuilt accepted.now.image }
    requires script { IsScript accepted.now.image script.now }
    requires lines { list_all line_is_built script.now ≡ true }
    requires few { length script.now < 2 ^ 32 }
    ensures ok { OnOk result (K.taken sink.new ≡ append_known (K.taken sink.old)
        (run_text accepted.now.image script.now (modes_of modes) frames)) }
    ensures failed { OnErr result
        (TookPrefix (K.taken sink.old) (K.taken sink.new)
        (run_text accepted.now.image script.now (modes_of modes) frames)) }
    ensures unwritten { result ≡ Err RunFault.NoMemory → sink.new ≡ sink.old }
    ensures later { K.faults sink.old ≤ K.faults sink.new }
    ensures cause { OnWriteFault result (Rose (K.faults sink.old) (K.faults sink.new)) }
{
    let mut steps: Steps<L> = Steps::new(blank);
    match modes {
        Modes::Idt => run_one(alloc, accepted, script, Mode::Idt, frames, sink, &mut steps),
        Modes::Fred => run_one(
            alloc,
            accepted,
            script,
            Mode::Fred,
            frames,
            sink,
            &mut steps,
        ),
        Modes::Both => run_both(alloc, accepted, script, frames, sink, &mut steps),
    }
}

/// Runs a script on an image in the modes that are asked for, and writes the run's text, with its
/// frames where they are asked for. Each line goes into the sink as it is made: a fault leaves a
/// prefix of the text there. WriteFault means that the sink failed, NoMemory that memory was refused.
/// In either mode no frame of the run holds a word that was live just before its step, and behind
/// each line the bodies on a processor are a legal chain, no longer than the image's bound. In the
/// trace each call runs at most once, was queued before it ran, and ran before it is reported as done.
pub fn run_modes<K: Sink>(
    alloc: Global,
    accepted: &Accepted,
    script: &[Line],
    modes: Modes,
    frames: bool,
    sink: &mut K,
) -> Result<(), RunFault>
    requires image { IsBuilt accepted.now.image }
    requires script { IsScript accepted.now.image script.now }
    requires lines { list_all line_is_built script.now ≡ true }
    requires few { length script.now < 2 ^ 32 }
    ensures ok { OnOk result (K.taken sink.new ≡ append_known (K.taken sink.old)
        (run_text accepted.now.image script.now (modes_of modes) frames)) }
    ensures failed { OnErr result
        (TookPrefix (K.taken sink.old) (K.taken sink.new)
        (run_text accepted.now.image script.now (modes_of modes) frames)) }
    ensures safe { (mode : Mode) → RunIsSafe mode accepted.now.image script.now }
    ensures chains { KeepsChains accepted.now.image script.now }
    ensures calls { KeepsCalls (trace accepted.now.image script.now) }
    ensures unwritten { result ≡ Err RunFault.NoMemory → sink.new ≡ sink.old }
    ensures later { K.faults sink.old ≤ K.faults sink.new }
    ensures cause { OnWriteFault result (Rose (K.faults sink.old) (K.faults sink.new)) }
{
    // The limits of the image are known where it is read.
    let image = accepted.image();
    let _ = &image.processors;
    run_counted::<Brand, K>(alloc, accepted, script, modes, frames, sink, Blank::new(1))
}
