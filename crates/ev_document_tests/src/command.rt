// Lists of words that say a command, and lists that say none.

use ev_command::{Command, command_of};
use ev_isa::Mode;

#[test]
fn commands(rt: HostRuntime) {
    let both = Command::Run {
        mode: None,
        frames: false,
    };
    let one_with_frames = Command::Run {
        mode: Some(Mode::Fred),
        frames: true,
    };
    let lists: [(&[&str], Command); 7] = [
        (&["run"], both),
        (&["run", "--mode", "fred", "--frames"], one_with_frames),
        (&["run", "--frames", "--mode", "fred"], one_with_frames),
        (&["run", "--frames", "--mode=fred"], one_with_frames),
        (&["asm"], Command::Asm),
        (&["check"], Command::Check),
        (&["probe"], Command::Probe),
    ];
    for (words, command) in lists {
        assert_eq!(rt; command_of(rt.alloc(), words), Ok(Some(command)));
    }
}

#[test]
fn no_commands(rt: HostRuntime) {
    let lists: [&[&str]; 20] = [
        &[],
        &["--frames"],
        &["--", "run"],
        &["run", "--"],
        &["run", "-h"],
        &["run", "--fast"],
        &["run", "idt"],
        &["run", "--mode"],
        &["run", "--mode="],
        &["run", "--mode=", "idt"],
        &["run", "--mode", "vmx"],
        &["run", "--frames=yes"],
        &["run", "--frames", "--frames"],
        &["run", "--mode", "idt", "--mode=fred"],
        &["asm", "--frames"],
        &["check", "--help"],
        &["help"],
        &["--version"],
        // commands that aren't built yet
        &["gen", "--seed", "7", "--count", "3"],
        &["threads", "--mode=idt", "--turns", "5"],
    ];
    for words in lists {
        assert_eq!(rt; command_of(rt.alloc(), words), Ok(None));
    }
}
