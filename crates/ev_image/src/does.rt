// What lines do to what stands.

ghost use Rattle.std.specs.Prelude.{◌≡◌, ◌++◌, true, not, IfOk, length, filter, map, Ok};
ghost use Rattle.std.specs.List.{list_all, list_any};
ghost use Rattle.ev_body.specs.Bodies.{fill, filled_keys};
ghost use Rattle.ev_body.specs.WellFormed.{is_apart, is_user_only, is_user_side};
ghost use Rattle.ev_text.specs.UserText.{Comes};
ghost use Rattle.ev_image.specs.Head.{body_does, each_has_one, every_task, fill_does, new_body, new_task, of_processor, plain_body, register_given, runs_user, script_does, start_does, task_begun, tasks_by, tasks_of, with_last, with_register};

use crate::draft::Draft;
use crate::head::Head;
use crate::kernel::{Kernel, Start, TaskLine};
use crate::lines::StartLine;
use ev_body::{Body, Item, Key, Side, TaskSpec};
use ev_io::Cause;
use ev_isa::{Many, Reg};
use ev_part::BodyLines;
use ev_text::{Stop, UserText};
use std::alloc::{AllocError, Global};

/// What a line before the text does.
pub fn start_does(alloc: Global, start: Start, line: StartLine) -> Result<Head, AllocError>
    ensures { IfOk result (λ h. start_does start line ≡ Ok h) }
{
    let Start {
        processors,
        nest,
        mut pages,
        mut cells,
    } = start;
    match line {
        StartLine::Page(page) => pages.push(page)?,
        StartLine::Cell(cell, first) => cells.push((cell, first))?,
        StartLine::Text => {
            let start = Start {
                processors,
                nest,
                pages,
                cells,
            };
            return Ok(Head::Text(start, UserText::new(alloc)));
        }
    }
    Ok(Head::Start(Start {
        processors,
        nest,
        pages,
        cells,
    }))
}

/// The tasks with the last behind them.
fn with_last(tasks: Many<TaskLine>, last: Option<TaskLine>) -> Result<Many<TaskLine>, AllocError>
    ensures { IfOk result (λ ts. ts ≡ with_last tasks last) }
{
    let mut tasks = tasks;
    if let Some(task) = last {
        tasks.push(task)?;
    }
    Ok(tasks)
}

/// How many tasks the processor has.
fn count(tasks: &[TaskLine], processor: u64) -> usize
    ensures { result ≡ length (of_processor tasks.now processor) }
{
    tasks.iter().filter(|t| t.processor == processor).count()
}

/// A task without registers.
fn new_task(alloc: Global, processor: u64, start: u64, gs: u64) -> TaskLine
    ensures { result ≡ new_task processor start gs }
{
    TaskLine {
        processor,
        task: TaskSpec {
            start,
            gs,
            regs: [0; 16],
        },
        given: Many::new(alloc),
    }
}

/// What a `task` line does.
pub fn task_begun(
    alloc: Global,
    kernel: Kernel,
    processor: u64,
    start: u64,
    gs: u64,
) -> Result<Head, Stop>
    ensures { Comes (task_begun kernel processor start gs) result }
{
    let Kernel {
        start: before,
        text,
        tasks,
        last,
        bodies,
    } = kernel;
    let Ok(tasks) = with_last(tasks, last) else {
        return Err(Stop::NoMemory);
    };
    if count(tasks.as_slice(), processor) >= 4 {
        return Err(Stop::Because(Cause::Limit));
    }
    Ok(Head::Tasks(Kernel {
        start: before,
        text,
        tasks,
        last: Some(new_task(alloc, processor, start, gs)),
        bodies,
    }))
}

/// The task with a register.
fn with_register(task: TaskLine, r: Reg, n: u64) -> Result<TaskLine, AllocError>
    ensures { IfOk result (λ t. t ≡ with_register task r n) }
{
    let TaskLine {
        processor,
        task: TaskSpec {
            start,
            gs,
            mut regs,
        },
        mut given,
    } = task;
    regs[r.number() as usize] = n;
    given.push(r)?;
    Ok(TaskLine {
        processor,
        task: TaskSpec { start, gs, regs },
        given,
    })
}

/// What a `reg` line does.
pub fn register_given(kernel: Kernel, r: Reg, n: u64) -> Result<Head, Stop>
    ensures { Comes (register_given kernel kernel.last r n) result }
{
    let Kernel {
        start,
        text,
        tasks,
        last,
        bodies,
    } = kernel;
    let Some(task) = last else {
        return Err(Stop::Because(Cause::Word));
    };
    match with_register(task, r, n) {
        Err(_) => Err(Stop::NoMemory),
        Ok(task) => Ok(Head::Tasks(Kernel {
            start,
            text,
            tasks,
            last: Some(task),
            bodies,
        })),
    }
}

/// Whether the key has the user side alone.
#[tactic(auto, unfolding(ev_body::specs::WellFormed::is_user_only))]
fn is_user_only(key: Key) -> bool
    ensures { result ≡ is_user_only key }
{
    matches!(
        key,
        Key::Sys | Key::Db | Key::Ud | Key::Ss | Key::Gp | Key::Ac
    )
}

/// Whether the side is the user side.
#[tactic(auto, unfolding(ev_body::specs::WellFormed::is_user_side))]
fn is_user_side(side: Side) -> bool
    ensures { result ≡ is_user_side side }
{
    matches!(side, Side::User)
}

/// Whether a body has another key, or no side in common.
fn is_apart(body: &Body, key: Key, side: Side) -> bool
    ensures { result ≡ is_apart body.now (new_body key side) }
{
    let same = body.key.number() == key.number();
    let user = body.side.covers(Side::User) && side.covers(Side::User);
    let kernel = body.side.covers(Side::Kernel) && side.covers(Side::Kernel);
    !same || !(user || kernel)
}

/// Whether all bodies have another key, or no side in common.
fn are_apart(bodies: &[Body], key: Key, side: Side) -> bool
    ensures { result ≡ list_all (λ b. is_apart b (new_body key side)) bodies.now }
{
    bodies.iter().all(|body| is_apart(body, key, side))
}

/// What a `body` line does.
pub fn body_does(alloc: Global, kernel: Kernel, key: Key, side: Side) -> Result<Head, Stop>
    ensures { Comes (body_does kernel key side) result }
{
    if is_user_only(key) && !is_user_side(side) {
        return Err(Stop::Because(Cause::Name));
    }
    if !are_apart(kernel.bodies.as_slice(), key, side) {
        return Err(Stop::Because(Cause::Double));
    }
    if kernel.bodies.len() >= 64 {
        return Err(Stop::Because(Cause::Limit));
    }
    Ok(Head::Body(kernel, BodyLines::new(alloc, key, side)))
}

/// The tasks of a processor.
fn tasks_of(alloc: Global, tasks: &[TaskLine], processor: u64) -> Result<Vec<TaskSpec>, AllocError>
    ensures { IfOk result (λ v. v.items ≡ tasks_of tasks.now processor) }
{
    tasks
        .iter()
        .filter(|t| t.processor == processor)
        .map(|t| t.task)
        .collect(alloc)
}

/// The tasks of each processor.
fn tasks_by(
    alloc: Global,
    tasks: &[TaskLine],
    processors: u8,
) -> Result<Vec<Many<TaskSpec>>, AllocError>
    ensures { IfOk result (λ v. v.items ≡ tasks_by tasks.now processors) }
{
    let mut rows = Vec::new(alloc);
    for p in 0..u64::from(processors) {
        rows.push(Many::from_vec(tasks_of(alloc, tasks, p)?))?;
    }
    Ok(rows)
}

/// Whether each processor has a task.
fn each_has_one(rows: &[Many<TaskSpec>]) -> bool
    ensures { result ≡ each_has_one rows.now }
{
    rows.iter().all(|row| row.len() > 0)
}

/// What the line `script` does.
pub fn script_does(alloc: Global, kernel: Kernel) -> Result<Head, Stop>
    ensures { Comes (script_does kernel (tasks_by (every_task kernel) kernel.start.processors))
        result }
{
    let Kernel {
        start,
        text,
        tasks,
        last,
        bodies,
    } = kernel;
    let Ok(tasks) = with_last(tasks, last) else {
        return Err(Stop::NoMemory);
    };
    let Ok(rows) = tasks_by(alloc, tasks.as_slice(), start.processors) else {
        return Err(Stop::NoMemory);
    };
    if !each_has_one(rows.as_slice()) {
        return Err(Stop::Because(Cause::Tasks));
    }
    let Start {
        processors,
        nest,
        pages,
        cells,
    } = start;
    Ok(Head::Opened(Draft {
        processors,
        nest,
        pages,
        cells,
        text: text.bytes,
        tasks: Many::from_vec(rows),
        bodies,
    }))
}

/// The keys whose user sides `fill` fills.
const FILLED: [Key; 8] = [
    Key::Sys,
    Key::Db,
    Key::Bp,
    Key::Ud,
    Key::Ss,
    Key::Gp,
    Key::Pf,
    Key::Ac,
];

/// Whether a body runs on the user side of the key.
fn runs(body: &Body, key: Key) -> bool
    ensures { result ≡ runs_user body.now key }
{
    body.runs_on(key.number(), Side::User)
}

/// Whether a body runs on the user side of the key.
fn is_covered(bodies: &[Body], key: Key) -> bool
    ensures { result ≡ list_any (λ b. runs_user b key) bodies.now }
{
    bodies.iter().any(|body| runs(body, key))
}

/// Whether no body runs on the user side of the key.
fn lacks(bodies: &[Body], key: Key) -> bool
    ensures { result ≡ not (list_any (λ b. runs_user b key) bodies.now) }
{
    !is_covered(bodies, key)
}

/// The keys to be filled.
fn lacking(alloc: Global, bodies: &[Body]) -> Result<Vec<Key>, AllocError>
    ensures { IfOk result (λ v. v.items ≡ filter
        (λ key. not (list_any (λ b. runs_user b key) bodies.now)) filled_keys) }
{
    FILLED
        .iter()
        .copied()
        .filter(|key| lacks(bodies, *key))
        .collect(alloc)
}

/// A body of `ret` alone.
fn plain_body(alloc: Global, key: Key) -> Result<Body, AllocError>
    ensures { IfOk result (λ b. b ≡ plain_body key) }
{
    let mut items = Many::new(alloc);
    items.push(Item::Ret)?;
    Ok(Body {
        key,
        side: Side::User,
        items,
        parts: Many::new(alloc),
    })
}

/// The bodies with a body of `ret` for each key.
fn with_plain(alloc: Global, bodies: Many<Body>, keys: &[Key]) -> Result<Many<Body>, AllocError>
    ensures { IfOk result (λ bs. bs ≡ bodies ++ map plain_body keys.now) }
{
    let mut bodies = bodies;
    for key in keys {
        bodies.push(plain_body(alloc, *key)?)?;
    }
    Ok(bodies)
}

/// The bodies with those that `fill` adds.
#[tactic(auto, using(crate::proofs::Filling::filled_so))]
fn filled(alloc: Global, bodies: Many<Body>) -> Result<Many<Body>, AllocError>
    ensures { IfOk result (λ bs. bs ≡ fill bodies) }
{
    let keys = lacking(alloc, bodies.as_slice())?;
    with_plain(alloc, bodies, keys.as_slice())
}

/// What the line `fill` does.
pub fn fill_does(alloc: Global, kernel: Kernel) -> Result<Head, Stop>
    ensures { Comes (fill_does kernel) result }
{
    let Kernel {
        start,
        text,
        tasks,
        last,
        bodies,
    } = kernel;
    let Ok(bodies) = filled(alloc, bodies) else {
        return Err(Stop::NoMemory);
    };
    if bodies.len() > 64 {
        return Err(Stop::Because(Cause::Limit));
    }
    Ok(Head::Filled(Kernel {
        start,
        text,
        tasks,
        last,
        bodies,
    }))
}
