// The user text of a document.

ghost use Rattle.std.specs.Prelude.{◌≡◌, [], true};
ghost use Rattle.ev_asm.specs.Assembled.{is_encoded};
ghost use Rattle.ev_text.specs.TextStands.{stop_of};
ghost use Rattle.ev_text.specs.UserText.{Comes, text_ended, text_grown};

use crate::stop::Stop;
use ev_asm::{AsmFault, Labels, Stmt, Text, assemble, statement_size};
use ev_io::Cause;
use ev_isa::Many;
use std::alloc::Global;
use std::marker::Model;

/// The first address of the text.
const TEXT_BASE: u64 = 0x400000;
/// How many bytes the text has at most.
const TEXT_LIMIT: usize = 65_520;

/// The statements of a user text that stand so far, which contracts see as their list: no label is
/// given twice, and their bytes are at most 65,520. Own.
#[derive(Debug, Drop)]
pub struct UserText {
    stmts: Vec<Stmt>,
    labels: Labels,
    size: usize,
}

impl Model for UserText {
    ghost use Rattle.std.specs.Prelude.{List};
    ghost use Rattle.ev_asm.specs.declared.statement.Stmt.{Stmt};
    ghost use Rattle.ev_text.specs.TextStands.{IsText};

    ghost Value = { List Stmt };

    ghost view = { λ t. t.stmts.items };

    ghost invariant = { λ t. IsText t.stmts.items t.labels t.size };
}

/// A user text that is assembled. Own.
#[derive(Debug, Drop)]
pub struct WholeText {
    /// The bytes.
    pub bytes: Many<u8>,
    /// The labels with their addresses.
    pub labels: Labels,
}

/// What a fault of the assembler means for the document.
fn stop_of(fault: &AsmFault) -> Stop
    ensures { result ≡ stop_of fault.now }
{
    match fault {
        AsmFault::DoubleLabel(_) => Stop::Because(Cause::Double),
        AsmFault::NoLabel(_) => Stop::Because(Cause::NoLabel),
        AsmFault::TooLarge(_) => Stop::Because(Cause::Limit),
        AsmFault::NoMemory => Stop::NoMemory,
    }
}

impl UserText {
    /// A text without statements.
    pub fn new(alloc: Global) -> UserText
        ensures { result ≡ [] }
    {
        UserText {
            stmts: Vec::new(alloc),
            labels: Labels::new(alloc),
            size: 0,
        }
    }

    /// The text with a statement more.
    pub fn with(self, alloc: Global, s: Stmt) -> Result<UserText, Stop>
        requires { is_encoded s ≡ true }
        ensures { Comes (text_grown self s) result }
    {
        let UserText {
            mut stmts,
            labels,
            size,
        } = self;
        if labels.has_label_of(&s) {
            return Err(Stop::Because(Cause::Double));
        }
        let end = size + statement_size(&s);
        if end > TEXT_LIMIT {
            return Err(Stop::Because(Cause::Limit));
        }
        let Ok(labels) = labels.with_label_of(alloc, &s, TEXT_BASE + size as u64) else {
            return Err(Stop::NoMemory);
        };
        match stmts.push(s) {
            Ok(()) => Ok(UserText {
                stmts,
                labels,
                size: end,
            }),
            Err(_) => Err(Stop::NoMemory),
        }
    }

    /// The text at its end, assembled.
    pub fn end(self, alloc: Global) -> Result<WholeText, Stop>
        ensures { Comes (text_ended self) result }
    {
        let UserText { stmts, labels, .. } = self;
        match assemble(alloc, stmts.as_slice(), TEXT_BASE, TEXT_LIMIT) {
            Ok(Text { bytes, .. }) => Ok(WholeText { bytes, labels }),
            Err(fault) => Err(stop_of(&fault)),
        }
    }
}
