// The addresses of functions.

ghost use Rattle.std.specs.Prelude.{◌≡◌, ◌≤◌, ◌<◌, ◌+◌, ◌*◌, ℕ, true, false, not, length, take, IfOk};
ghost use Rattle.std.specs.List.{list_all};
ghost use Rattle.ev_isa.specs.declared.mode.Mode.{Mode};
ghost use Rattle.ev_body.specs.declared.key.Key.{Key};
ghost use Rattle.ev_body.specs.Bodies.{body_items, function_start};
ghost use Rattle.ev_abstract.specs.Rules.{breaks_slots};
ghost use Rattle.ev_asm.specs.Assembly.{total_size};
ghost use Rattle.ev_listing.specs.Expansion.{expansion, expansions, item_address, function_address};
ghost use Rattle.ev_listing.specs.Marks.{stmts_of};
ghost use Rattle.ev_items.specs.Lines.{AreAddresses, keeps_slots};

use crate::body::all_items;
use crate::expand::expansion;
use crate::statement::line_size;
use ev_body::{Body, Image, Item, Side, first_body};
use std::alloc::{AllocError, Global};

/// The key whose body has the functions: vector FBH.
const CALLS: u16 = 0xfb;

/// The code of bodies.
const BODIES: u64 = 0xffff_ffff_8200_0000;

/// The bytes from the code of one body to that of the next.
const BODY_BYTES: u64 = 0x2_0000;

/// How many bytes an item's code has, wherever functions stand.
pub fn item_size(item: &Item) -> u64
    requires slots { breaks_slots 8 item.now ≡ false }
    ensures is { (mode : Mode) (b : ℕ) (key : Key) (n : ℕ)
        → result ≡ total_size (stmts_of (expansion mode b key (λ f. 0) n item.now)) }
    ensures small { result ≤ 480 }
{
    let lines = expansion(&[0; 8], item);
    let mut size = 0;
    for line in lines.as_slice() {
        size += line_size(line) as u64;
    }
    size
}

/// How many bytes the code of items has, wherever functions stand.
fn items_size(items: &[Item]) -> u64
    requires few { length items.now ≤ 256 }
    requires slots { list_all (λ item. not (breaks_slots 8 item)) items.now ≡ true }
    ensures is { (mode : Mode) (b : ℕ) (key : Key)
        → result ≡ total_size (stmts_of (expansions mode b key (λ f. 0) 0 items.now)) }
    ensures small { result ≤ 480 * length items.now }
{
    let mut size = 0;
    for item in items {
        size += item_size(item);
    }
    size
}

/// The number of a function's first item.
fn function_start(body: &Body, func: u64) -> usize
    requires { length (body_items body.now) ≤ 256 }
    ensures is { result ≡ function_start body.now func }
    ensures within { result ≤ length (body_items body.now) }
{
    let mut n = body.items.len();
    for part in body.parts.as_slice() {
        if part.func == func {
            return n;
        }
        n += part.items.len();
    }
    n
}

/// The address of a function in body n, whose items these are.
fn address_in(body: &Body, n: usize, items: &[Item], func: u64) -> u64
    requires number { n < 64 }
    requires items { items.now ≡ body_items body.now }
    requires few { length items.now ≤ 256 }
    requires slots { list_all (λ item. not (breaks_slots 8 item)) items.now ≡ true }
    ensures { (mode : Mode)
        → result ≡ item_address mode n body.now (function_start body.now func) }
{
    let start = function_start(body, func);
    BODIES + BODY_BYTES * n as u64 + items_size(&items[..start])
}

/// The addresses of functions 0 to 7 in body n.
fn addresses_in(alloc: Global, body: &Body, n: usize) -> Result<[u64; 8], AllocError>
    requires number { n < 64 }
    requires few { length (body_items body.now) ≤ 256 }
    requires slots { keeps_slots 8 body.now ≡ true }
    ensures { IfOk result (λ functions. (mode : Mode) → AreAddresses
        (λ f. item_address mode n body.now (function_start body.now f)) functions) }
{
    let items = all_items(alloc, body)?;
    Ok([
        address_in(body, n, &items, 0),
        address_in(body, n, &items, 1),
        address_in(body, n, &items, 2),
        address_in(body, n, &items, 3),
        address_in(body, n, &items, 4),
        address_in(body, n, &items, 5),
        address_in(body, n, &items, 6),
        address_in(body, n, &items, 7),
    ])
}

/// The addresses of functions 0 to 7, which are those of their first items; 0 where no body has the
/// functions' key.
pub fn function_addresses(alloc: Global, image: &Image) -> Result<[u64; 8], AllocError>
    requires { list_all (keeps_slots image.now.processors) image.now.bodies ≡ true }
    ensures { IfOk result (λ functions. (mode : Mode)
        → AreAddresses (function_address mode image.now) functions) }
{
    let bodies = image.bodies.as_slice();
    match first_body(bodies, CALLS, Side::User) {
        Some(n) => addresses_in(alloc, &bodies[n], n),
        None => Ok([0; 8]),
    }
}
