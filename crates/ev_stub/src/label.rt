// Labels of the code's tables.

ghost use Rattle.std.specs.Prelude.{◌≡◌, ◌≤◌, length};
ghost use Rattle.ev_stub.specs.Lines.{name_of};

use ev_isa::Name;

/// A label of the kernel's code. Own.
#[derive(Clone, Copy, Debug, Drop)]
pub enum StubLabel {
    /// Where the tables name no body.
    Nobody,
    /// FRED: events from CPL 3.
    Fu,
    /// FRED: the table of bodies is that of the user side.
    Ft,
    /// FRED: the dispatch to a body.
    Fd,
    /// FRED: system calls.
    Fs,
    /// FRED: software interrupts.
    Fi,
    /// FRED: events from CPL 0.
    Fk,
    /// FRED: the exit of every body but those of NMIs.
    Fexit,
    /// FRED: the return to CPL 3.
    Fxu,
    /// FRED: the return to CPL 0.
    Fxk,
    /// FRED: the exit of the bodies of NMIs.
    Fexitn,
    /// IDT: events of every vector but that of NMIs.
    Common,
    /// IDT: the table of bodies is that of the user side.
    Cm1,
    /// IDT: the table of bodies is known.
    Cm2,
    /// IDT: the arguments of the body are known.
    Cm3,
    /// IDT: the exit of every body but those of NMIs.
    Exit,
    /// IDT: the return to CPL 3, by SYSRETQ where it restores the frame.
    Xu,
    /// IDT: the return to CPL 3 by IRETQ.
    Xi,
    /// IDT: the return to CPL 0.
    Xk,
    /// IDT: NMIs.
    Nmi,
    /// IDT: an NMI that didn't interrupt the repetition of another.
    N1,
    /// IDT: an NMI in another, which is to return to the repetition.
    Redir,
    /// IDT: the return of an NMI in another.
    Inret,
    /// IDT: an NMI that is in no other.
    First,
    /// IDT: the body of NMIs.
    Nbody,
    /// IDT: GS has the kernel's base.
    Nb1,
    /// IDT: the table of bodies of NMIs is known.
    Nb2,
    /// IDT: the exit of the bodies of NMIs.
    Exitn,
    /// IDT: GS has the base that it had.
    Nx1,
    /// IDT: the return of NMIs.
    Nlast,
}

/// The text of a label.
fn text_of(label: StubLabel) -> &'static str
    ensures is { result.now ≡ name_of label }
    ensures fits { length result.now ≤ 31 }
{
    match label {
        StubLabel::Nobody => "NONE",
        StubLabel::Fu => "FU",
        StubLabel::Ft => "FT",
        StubLabel::Fd => "FD",
        StubLabel::Fs => "FS",
        StubLabel::Fi => "FI",
        StubLabel::Fk => "FK",
        StubLabel::Fexit => "FEXIT",
        StubLabel::Fxu => "FXU",
        StubLabel::Fxk => "FXK",
        StubLabel::Fexitn => "FEXITN",
        StubLabel::Common => "COMMON",
        StubLabel::Cm1 => "CM1",
        StubLabel::Cm2 => "CM2",
        StubLabel::Cm3 => "CM3",
        StubLabel::Exit => "EXIT",
        StubLabel::Xu => "XU",
        StubLabel::Xi => "XI",
        StubLabel::Xk => "XK",
        StubLabel::Nmi => "NMI",
        StubLabel::N1 => "N1",
        StubLabel::Redir => "REDIR",
        StubLabel::Inret => "INRET",
        StubLabel::First => "FIRST",
        StubLabel::Nbody => "NBODY",
        StubLabel::Nb1 => "NB1",
        StubLabel::Nb2 => "NB2",
        StubLabel::Exitn => "EXITN",
        StubLabel::Nx1 => "NX1",
        StubLabel::Nlast => "NLAST",
    }
}

/// The name of a label.
pub fn name_of(label: StubLabel) -> Name
    ensures { result ≡ name_of label }
{
    Name::new(text_of(label))
}
