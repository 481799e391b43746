// The kernel's addresses (own).

ghost use Rattle.std.specs.Prelude.{◌≡◌, ◌<◌};
ghost use Rattle.ev_listing.specs.AddressMap.{pcpu, record_address, task_words, stack_top, vector_stub};

/// The areas of processors.
pub const AREAS: u64 = 0xffff_8880_0000_0000;

/// The bytes of a processor's area.
pub const AREA_BYTES: u64 = 0x1_0000;

/// The table of body addresses, by key, of events from CPL 3.
pub const USER_TABLE: u64 = 0xffff_8880_0080_0000;

/// The table of body addresses, by key, of events from CPL 0.
pub const KERNEL_TABLE: u64 = 0xffff_8880_0080_1000;

/// The bytes of a table of body addresses: 257 words.
pub const TABLE_BYTES: u64 = 8 * 257;

/// The IDT.
pub const IDT: u64 = 0xffff_8880_0081_0000;

/// The bytes of the IDT.
pub const IDT_BYTES: u64 = 0x1000;

/// The page map.
pub const PAGE_MAP: u64 = 0xffff_8880_0082_0000;

/// How many data pages there are.
pub const PAGE_COUNT: u64 = 256;

/// The bytes of the page map: a word for each data page, and one behind them.
pub const PAGE_MAP_BYTES: u64 = 8 * 257;

/// The shared cells.
pub const CELLS: u64 = 0xffff_8880_0083_0000;

/// The bytes of the shared cells.
pub const CELLS_BYTES: u64 = 0x800;

/// The words of tasks.
pub const TASKS: u64 = 0xffff_8880_0084_0000;

/// The bytes of the words of a processor's tasks: four tasks, of 40H bytes each.
pub const TASKS_BYTES: u64 = 0x100;

/// The kernel's code but for bodies.
pub const CODE: u64 = 0xffff_ffff_8100_0000;

/// The bytes of the kernel's code but for bodies.
pub const CODE_BYTES: u64 = 0x6000;

/// Where the tables name no body.
pub const NO_BODY: u64 = 0xffff_ffff_8100_1ff0;

/// The entry of SYSCALL under IDT.
pub const SYSCALL_ENTRY: u64 = 0xffff_ffff_8100_3000;

/// The entry of NMIs under IDT.
pub const NMI_ENTRY: u64 = 0xffff_ffff_8100_4000;

/// The code of bodies.
pub const BODIES: u64 = 0xffff_ffff_8200_0000;

/// The bytes from the code of one body to that of the next.
pub const BODY_BYTES: u64 = 0x2_0000;

/// The user text.
pub const TEXT: u64 = 0x40_0000;

/// The bytes of the user text.
pub const TEXT_BYTES: u64 = 0x1_0000;

/// The data pages.
pub const PAGES: u64 = 0x1000_0000;

/// The bytes of a data page.
pub const PAGE_BYTES: u64 = 0x1000;

/// The stacks, in parts each of which ends with one.
pub const STACKS: u64 = 0xffff_c900_0000_0000;

/// The bytes from a processor's stacks to those of the next.
pub const STACKS_BYTES: u64 = 0x10_0000;

/// The bytes of a stack's part.
pub const STACK_PART_BYTES: u64 = 0x4000;

/// The bytes of a stack.
pub const STACK_BYTES: u64 = 0x2000;

/// The area of processor p.
pub fn area(p: u64) -> u64
    requires { p < 32 }
    ensures { result ≡ pcpu p }
{
    AREAS + AREA_BYTES * p
}

/// The call record of site k in the area of processor p.
pub fn call_record(p: u64, k: u64) -> u64
    requires p { p < 32 }
    requires k { k < 32 }
    ensures { result ≡ record_address p k }
{
    area(p) + 0x800 + 0x40 * k
}

/// The words of task i of processor p.
pub fn task_area(p: u64, i: u64) -> u64
    requires p { p < 32 }
    requires i { i < 32 }
    ensures { result ≡ task_words p i }
{
    TASKS + 0x40 * (4 * p + i)
}

/// The top of stack n of processor p.
pub fn stack_top(p: u64, n: u64) -> u64
    requires p { p < 32 }
    requires n { n < 32 }
    ensures { result ≡ stack_top p n }
{
    STACKS + STACKS_BYTES * p + STACK_PART_BYTES * (n + 1)
}

/// The stub of a vector under IDT.
pub fn stub(v: u64) -> u64
    requires { v < 256 }
    ensures { result ≡ vector_stub v }
{
    0xffff_ffff_8100_2000 + 0x10 * v
}
