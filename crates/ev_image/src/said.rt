// What the lines of each section say.
#![tactic(auto, unfolding(crate::proofs::Opening::opening))]

ghost use Rattle.std.specs.Prelude.{◌≡◌, ◌∷◌, [], map, ◌==◌, ◌≤◌, true, Some, IfOk};
ghost use Rattle.std.specs.List.{list_any};
ghost use Rattle.std.specs.Option.{option_map};
ghost use Rattle.ev_asm.specs.Assembled.{is_encoded};
ghost use Rattle.ev_body.specs.Bodies.{key_number};
ghost use Rattle.ev_line.specs.Operands.{Within, among, then_make};
ghost use Rattle.ev_line.specs.Forms.{form, read_by, read_forms};
ghost use Rattle.ev_image.specs.LabelLine.{label_name, three_in};
ghost use Rattle.ev_image.specs.Sections.{behind_forms, between_forms, body_forms, cell_forms, end_forms, filled_forms, function_forms, nest_forms, new_task_forms, page_forms, part_said, processors_forms, register_forms, start_forms, taken_cells, task_forms, text_said, version_forms};
ghost use Rattle.ev_image.specs.declared.lines.KernelLine.TheVariants as KernelLine;
ghost use Rattle.ev_image.specs.declared.lines.PartEnd.TheVariants as PartEnd;
ghost use Rattle.ev_image.specs.declared.lines.StartLine.TheVariants as StartLine;

use crate::kernel::{Kernel, Start, TaskLine};
use crate::lines::{KernelLine, PartEnd, StartLine};
use ev_asm::Stmt;
use ev_body::Key;
use ev_io::Cause;
use ev_isa::Reg;
use ev_line::{key, label, number, number_within, processor, register, side};
use ev_part::{BodyLine, item, text_label};
use ev_text::{Labels, is, none, one, statement, two};

/// The version of the document.
fn version_number(operands: &[&[u8]]) -> Result<u64, Cause>
    ensures { result ≡ read_forms (form (Within 1 1 ∷ []) (λ n. n) ∷ [])
        (map (λ t. t.now) operands.now) }
{
    number_within(1, 1, one(operands)?)
}

/// The version of the document. Word where another word stands.
#[tactic(auto, unfolding(crate::proofs::Opening::words), using(crate::proofs::Opening::no_forms))]
pub fn version_said(tokens: &[&[u8]]) -> Result<u64, Cause>
    ensures { result ≡ read_by version_forms (map (λ t. t.now) tokens.now) }
{
    let Some((word, operands)) = tokens.split_first() else {
        return Err(Cause::Word);
    };
    if is(word, "image") {
        return version_number(operands);
    }
    Err(Cause::Word)
}

/// The number of processors.
fn processors_number(operands: &[&[u8]]) -> Result<u64, Cause>
    ensures small { IfOk result (λ n. n ≤ 8) }
    ensures value { result ≡ read_forms (form (Within 1 8 ∷ []) (λ n. n) ∷ [])
        (map (λ t. t.now) operands.now) }
{
    number_within(1, 8, one(operands)?)
}

/// The number of processors. Word where another word stands.
#[tactic(auto, unfolding(crate::proofs::Opening::words), using(crate::proofs::Opening::no_forms))]
pub fn processors_said(tokens: &[&[u8]]) -> Result<u64, Cause>
    ensures small { IfOk result (λ n. n ≤ 8) }
    ensures value { result ≡ read_by processors_forms (map (λ t. t.now) tokens.now) }
{
    let Some((word, operands)) = tokens.split_first() else {
        return Err(Cause::Word);
    };
    if is(word, "processors") {
        return processors_number(operands);
    }
    Err(Cause::Word)
}

/// The number of bodies that may stand on one another.
fn nest_number(operands: &[&[u8]]) -> Result<u64, Cause>
    ensures small { IfOk result (λ n. n ≤ 32) }
    ensures value { result ≡ read_forms (form (Within 1 32 ∷ []) (λ n. n) ∷ [])
        (map (λ t. t.now) operands.now) }
{
    number_within(1, 32, one(operands)?)
}

/// The number of bodies that may stand on one another. Word where another word stands.
#[tactic(auto, unfolding(crate::proofs::Opening::words), using(crate::proofs::Opening::no_forms))]
pub fn nest_said(tokens: &[&[u8]]) -> Result<u64, Cause>
    ensures small { IfOk result (λ n. n ≤ 32) }
    ensures value { result ≡ read_by nest_forms (map (λ t. t.now) tokens.now) }
{
    let Some((word, operands)) = tokens.split_first() else {
        return Err(Cause::Word);
    };
    if is(word, "nest") {
        return nest_number(operands);
    }
    Err(Cause::Word)
}

/// Whether the page was given.
fn is_page(start: &Start, page: u64) -> bool
    ensures { result ≡ among start.now.pages page }
{
    start.pages.as_slice().iter().any(|k| u64::from(*k) == page)
}

/// Whether one of the cells has this number.
fn has_number(cells: &[(u16, u64)], cell: u64) -> bool
    ensures { result ≡ list_any (λ e. e.0 == cell) cells.now }
{
    cells.iter().any(|e| u64::from(e.0) == cell)
}

/// Whether the cell was given.
fn is_cell(start: &Start, cell: u64) -> bool
    ensures { result ≡ among (taken_cells start.now) cell }
{
    has_number(start.cells.as_slice(), cell)
}

/// `page I`
#[tactic(auto, unfolding(crate::proofs::Opening::opening), using(ev_text::proofs::Ranges::number_at_most))]
fn page(start: &Start, operands: &[&[u8]]) -> Result<StartLine, Cause>
    ensures { result ≡ read_forms (page_forms start.now) (map (λ t. t.now) operands.now) }
{
    let page = number_within(0, 255, one(operands)?)?;
    if is_page(start, page) {
        return Err(Cause::Double);
    }
    Ok(StartLine::Page(page as u16))
}

/// `cell K V`
#[tactic(auto, unfolding(crate::proofs::Opening::opening), using(ev_text::proofs::Ranges::number_at_most))]
fn cell(start: &Start, operands: &[&[u8]]) -> Result<StartLine, Cause>
    ensures { result ≡ read_forms (cell_forms start.now) (map (λ t. t.now) operands.now) }
{
    let (cell, first) = two(operands)?;
    let cell = number_within(0, 255, cell)?;
    if is_cell(start, cell) {
        return Err(Cause::Double);
    }
    Ok(StartLine::Cell(cell as u16, number(first)?))
}

/// `text`
fn text(operands: &[&[u8]]) -> Result<StartLine, Cause>
    ensures { result ≡ read_forms (form [] StartLine.Text ∷ []) (map (λ t. t.now) operands.now) }
{
    none(operands)?;
    Ok(StartLine::Text)
}

/// A line before the text.
#[tactic(auto, unfolding(crate::proofs::Opening::words), using(crate::proofs::Opening::no_forms))]
pub fn start_said(start: &Start, tokens: &[&[u8]]) -> Result<StartLine, Cause>
    ensures { result ≡ read_by (start_forms start.now) (map (λ t. t.now) tokens.now) }
{
    let Some((word, operands)) = tokens.split_first() else {
        return Err(Cause::Word);
    };
    if is(word, "page") {
        return page(start, operands);
    }
    if is(word, "cell") {
        return cell(start, operands);
    }
    if is(word, "text") {
        return text(operands);
    }
    Err(Cause::Word)
}

/// A word without operands.
fn lone(operands: &[&[u8]]) -> Result<(), Cause>
    ensures { result ≡ read_forms (form [] tt ∷ []) (map (λ t. t.now) operands.now) }
{
    none(operands)
}

/// The line `endtext`.
#[tactic(auto, unfolding(crate::proofs::Opening::words), using(crate::proofs::Opening::no_forms))]
pub fn end_said(tokens: &[&[u8]]) -> Result<(), Cause>
    ensures { result ≡ read_by end_forms (map (λ t. t.now) tokens.now) }
{
    let Some((word, operands)) = tokens.split_first() else {
        return Err(Cause::Word);
    };
    if is(word, "endtext") {
        return lone(operands);
    }
    Err(Cause::Word)
}

/// The name before a `:` that ends the token.
#[tactic(auto, unfolding(crate::specs::LabelLine::label_name))]
fn label_name(token: &[u8]) -> Option<&[u8]>
    ensures { option_map (λ t. t.now) result ≡ label_name token.now }
{
    match token {
        [name @ .., b':'] => Some(name),
        _ => None,
    }
}

/// A line of the text: a label or a statement.
#[tactic(auto, unfolding(crate::specs::Sections::text_said, ev_asm::specs::Assembled::is_encoded))]
pub fn text_said(tokens: &[&[u8]]) -> Result<Stmt, Cause>
    ensures value { result ≡ text_said (map (λ t. t.now) tokens.now) }
    ensures encoded { IfOk result (λ s. is_encoded s ≡ true) }
{
    let Some((word, operands)) = tokens.split_first() else {
        return Err(Cause::Word);
    };
    match label_name(word) {
        None => statement(tokens),
        Some(name) => {
            none(operands)?;
            Ok(Stmt::Label(label(name)?))
        }
    }
}

/// Three operands and no more, else Count.
fn three<'a>(operands: &[&'a [u8]]) -> Result<(&'a [u8], &'a [u8], &'a [u8]), Cause>
    ensures { then_make (λ p. (p.0.now, p.1.now, p.2.now)) result ≡ three_in
        (map (λ t. t.now) operands.now) }
{
    match operands {
        [a, b, c] => Ok((*a, *b, *c)),
        _ => Err(Cause::Count),
    }
}

/// `task P LABEL GS`
fn task(kernel: &Kernel, operands: &[&[u8]]) -> Result<KernelLine, Cause>
    ensures { result ≡ read_forms (new_task_forms kernel.now) (map (λ t. t.now) operands.now) }
{
    let (p, start, gs) = three(operands)?;
    let p = processor(u64::from(kernel.start.processors), p)?;
    let start = text_label(&kernel.text.labels, start)?;
    let gs = number_within(0, 0xffff_ffff, gs)?;
    Ok(KernelLine::Task(p, start, gs))
}

/// Whether the register was given.
fn is_given(task: &TaskLine, r: Reg) -> bool
    ensures { result ≡ among task.now.given r }
{
    task.given
        .as_slice()
        .iter()
        .any(|g| g.number() == r.number())
}

/// `reg R V`, behind a task
fn task_register(task: &TaskLine, operands: &[&[u8]]) -> Result<KernelLine, Cause>
    ensures { result ≡ read_forms (register_forms (Some task.now)) (map (λ t. t.now) operands.now) }
{
    let (r, first) = two(operands)?;
    let r = register(r)?;
    if is_given(task, r) {
        return Err(Cause::Double);
    }
    Ok(KernelLine::Register(r, number(first)?))
}

/// `reg R V`
#[tactic(auto, using(crate::proofs::Opening::no_forms))]
fn reg(kernel: &Kernel, operands: &[&[u8]]) -> Result<KernelLine, Cause>
    ensures { result ≡ read_forms (register_forms kernel.now.last) (map (λ t. t.now) operands.now) }
{
    match &kernel.last {
        None => Err(Cause::Word),
        Some(task) => task_register(task, operands),
    }
}

/// `body KEY SIDE`
fn body(operands: &[&[u8]]) -> Result<KernelLine, Cause>
    ensures { result ≡ read_forms body_forms (map (λ t. t.now) operands.now) }
{
    let (k, s) = two(operands)?;
    let k = key(k)?;
    Ok(KernelLine::Body(k, side(s)?))
}

/// `fill`
fn fill(operands: &[&[u8]]) -> Result<KernelLine, Cause>
    ensures { result ≡ read_forms (form [] KernelLine.Fill ∷ []) (map (λ t. t.now) operands.now) }
{
    none(operands)?;
    Ok(KernelLine::Fill)
}

/// `script`
fn script(operands: &[&[u8]]) -> Result<KernelLine, Cause>
    ensures { result ≡ read_forms (form [] KernelLine.Script ∷ []) (map (λ t. t.now) operands.now) }
{
    none(operands)?;
    Ok(KernelLine::Script)
}

/// A line behind the text, before any body.
#[tactic(auto, unfolding(crate::proofs::Opening::words), using(crate::proofs::Opening::no_forms))]
pub fn task_said(kernel: &Kernel, tokens: &[&[u8]]) -> Result<KernelLine, Cause>
    ensures { result ≡ read_by (task_forms kernel.now) (map (λ t. t.now) tokens.now) }
{
    let Some((word, operands)) = tokens.split_first() else {
        return Err(Cause::Word);
    };
    if is(word, "task") {
        return task(kernel, operands);
    }
    if is(word, "reg") {
        return reg(kernel, operands);
    }
    if is(word, "body") {
        return body(operands);
    }
    if is(word, "fill") {
        return fill(operands);
    }
    if is(word, "script") {
        return script(operands);
    }
    Err(Cause::Word)
}

/// A line behind a body.
#[tactic(auto, unfolding(crate::proofs::Opening::words), using(crate::proofs::Opening::no_forms))]
pub fn between_said(tokens: &[&[u8]]) -> Result<KernelLine, Cause>
    ensures { result ≡ read_by between_forms (map (λ t. t.now) tokens.now) }
{
    let Some((word, operands)) = tokens.split_first() else {
        return Err(Cause::Word);
    };
    if is(word, "body") {
        return body(operands);
    }
    if is(word, "fill") {
        return fill(operands);
    }
    if is(word, "script") {
        return script(operands);
    }
    Err(Cause::Word)
}

/// A line behind `fill`.
#[tactic(auto, unfolding(crate::proofs::Opening::words), using(crate::proofs::Opening::no_forms))]
pub fn filled_said(tokens: &[&[u8]]) -> Result<KernelLine, Cause>
    ensures { result ≡ read_by filled_forms (map (λ t. t.now) tokens.now) }
{
    let Some((word, operands)) = tokens.split_first() else {
        return Err(Cause::Word);
    };
    if is(word, "script") {
        return script(operands);
    }
    Err(Cause::Word)
}

/// A line of a part that has no end yet: a label, an item or a jump.
#[tactic(auto, unfolding(crate::specs::Sections::part_said))]
pub fn part_said(text: &Labels, is_main: bool, tokens: &[&[u8]]) -> Result<BodyLine, Cause>
    ensures { result ≡ part_said text.now is_main (map (λ t. t.now) tokens.now) }
{
    let Some((word, operands)) = tokens.split_first() else {
        return Err(Cause::Word);
    };
    match label_name(word) {
        None => item(text, is_main, tokens),
        Some(name) => {
            none(operands)?;
            Ok(BodyLine::Here(label(name)?))
        }
    }
}

/// `func F`, in the body for cross calls
fn function(operands: &[&[u8]]) -> Result<PartEnd, Cause>
    ensures { result ≡ read_forms (function_forms true) (map (λ t. t.now) operands.now) }
{
    Ok(PartEnd::Function(number_within(0, 7, one(operands)?)?))
}

/// `endbody`
fn end_body(operands: &[&[u8]]) -> Result<PartEnd, Cause>
    ensures { result ≡ read_forms (form [] PartEnd.Body ∷ []) (map (λ t. t.now) operands.now) }
{
    none(operands)?;
    Ok(PartEnd::Body)
}

/// Whether the key is that of cross calls, the interrupt of vector FBH.
fn has_functions(key: Key) -> bool
    ensures { result ≡ (key_number key == 0xfb) }
{
    key.number() == 0xfb
}

/// A line behind the end of a part.
#[tactic(auto, unfolding(crate::proofs::Opening::words), using(crate::proofs::Opening::no_forms))]
pub fn behind_said(key: Key, tokens: &[&[u8]]) -> Result<PartEnd, Cause>
    ensures { result ≡ read_by (behind_forms key) (map (λ t. t.now) tokens.now) }
{
    let Some((word, operands)) = tokens.split_first() else {
        return Err(Cause::Word);
    };
    if is(word, "endbody") {
        return end_body(operands);
    }
    if is(word, "func") && has_functions(key) {
        return function(operands);
    }
    Err(Cause::Word)
}
