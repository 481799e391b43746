// The bound on nesting, without memory.

ghost use Rattle.std.specs.Prelude.{◌≡◌, ◌<◌, ◌≤◌, ◌+◌, max, ℕ, length, slice_index};
ghost use Rattle.ev_accept.specs.Bound.{access_by, faults_by, open_by, is_pf, is_bp, is_class, pf_room, bp_room, nmi_room, class_room, irq_room, entry_room, bound_of};
ghost use Rattle.ev_abstract.specs.Chain.{is_nmi};
ghost use Rattle.ev_accept.specs.Rooms.{AreRooms};

use crate::items::{Kind, has_item};
use crate::keys::least_class;
use ev_body::{Body, Key, Side};

/// How many bodies can stand on one another by page faults, breakpoints and NMIs.
#[derive(Clone, Copy, Debug, Drop)]
pub struct Rooms {
    /// By page faults, at most 1.
    pub pf: u8,
    /// By breakpoints, at most 2.
    pub bp: u8,
    /// By an NMI, at most 3.
    pub nmi: u8,
}

/// How many can stand on a body by page faults.
fn access_room(pf: u8, body: &Body) -> u8
    requires { pf ≤ 1 }
    ensures is { result ≡ access_by pf body.now }
    ensures small { result ≤ 1 }
{
    if has_item(Kind::UserAccess, body) {
        pf
    } else {
        0
    }
}

/// How many can stand on a body by faults.
fn fault_room(bp: u8, pf: u8, body: &Body) -> u8
    requires bp { bp ≤ 2 }
    requires pf { pf ≤ 1 }
    ensures is { result ≡ faults_by bp pf body.now }
    ensures small { result ≤ 2 }
{
    let breakpoints = if has_item(Kind::Breakpoint, body) {
        bp
    } else {
        0
    };
    let accesses = access_room(pf, body);
    if breakpoints < accesses {
        accesses
    } else {
        breakpoints
    }
}

/// How many can stand on a body without NMIs below.
fn open_room(faults: u8, nmi: u8, up: u8, body: &Body) -> u8
    requires faults { faults ≤ 2 }
    requires nmi { nmi ≤ 3 }
    requires up { up ≤ 21 }
    ensures is { result ≡ open_by faults nmi up body.now }
    ensures least { result ≤ 21 }
{
    let interrupts = if has_item(Kind::SetIf, body) { up } else { 0 };
    if interrupts < faults + nmi {
        faults + nmi
    } else {
        interrupts
    }
}

/// The greater of two.
fn greater(a: u8, b: u8) -> u8
    ensures { result ≡ max a b }
{
    if a < b { b } else { a }
}

#[tactic(auto, unfolding(crate::specs::Bound::is_pf))]
fn is_pf(key: Key) -> bool
    ensures { result ≡ is_pf key }
{
    matches!(key, Key::Pf)
}

#[tactic(auto, unfolding(crate::specs::Bound::is_bp))]
fn is_bp(key: Key) -> bool
    ensures { result ≡ is_bp key }
{
    matches!(key, Key::Bp)
}

#[tactic(auto, unfolding(ev_abstract::specs::Chain::is_nmi))]
fn is_nmi(key: Key) -> bool
    ensures { result ≡ is_nmi key }
{
    matches!(key, Key::Nmi)
}

#[tactic(auto, unfolding(crate::specs::Bound::is_class))]
fn is_class(class: u8, key: Key) -> bool
    ensures { result ≡ is_class class key }
{
    match key {
        Key::Irq(vector) => vector / 16 == class,
        _ => false,
    }
}

/// How many bodies of page faults can stand on one another.
fn pf_room(bodies: &[Body]) -> u8
    ensures is { result ≡ pf_room bodies.now }
    ensures small { result ≤ 1 }
{
    let mut most = 0;
    for body in bodies {
        let share = if is_pf(body.key) && body.side.covers(Side::Kernel) {
            1
        } else {
            0
        };
        most = greater(most, share);
    }
    most
}

/// How many can stand on one another by breakpoints.
fn bp_room(pf: u8, bodies: &[Body]) -> u8
    requires is { pf ≡ pf_room bodies.now }
    requires small { pf ≤ 1 }
    ensures is { result ≡ bp_room bodies.now }
    ensures small { result ≤ 2 }
{
    let mut most = 0;
    for body in bodies {
        let share = if is_bp(body.key) && body.side.covers(Side::Kernel) {
            1 + access_room(pf, body)
        } else {
            0
        };
        most = greater(most, share);
    }
    most
}

/// How many can stand on one another by an NMI.
fn nmi_room(bp: u8, pf: u8, bodies: &[Body]) -> u8
    requires bp { bp ≡ bp_room bodies.now }
    requires pf { pf ≡ pf_room bodies.now }
    requires bp_small { bp ≤ 2 }
    requires pf_small { pf ≤ 1 }
    ensures is { result ≡ nmi_room bodies.now }
    ensures small { result ≤ 3 }
{
    let mut most = 0;
    for body in bodies {
        let share = if is_nmi(body.key) && body.side.covers(Side::Kernel) {
            1 + fault_room(bp, pf, body)
        } else {
            0
        };
        most = greater(most, share);
    }
    most
}

fn rooms_of(bodies: &[Body]) -> Rooms
    ensures { AreRooms bodies.now result }
{
    let pf = pf_room(bodies);
    let bp = bp_room(pf, bodies);
    let nmi = nmi_room(bp, pf, bodies);
    Rooms { pf, bp, nmi }
}

/// How many can stand on one another by interrupts of a class and, at `up`, those above.
fn class_room(rooms: &Rooms, class: u8, up: u8, bodies: &[Body]) -> u8
    requires rooms { AreRooms bodies.now rooms.now }
    requires up { up ≤ 21 }
    ensures { result ≡ class_room bodies.now class up }
{
    let mut most = 0;
    for body in bodies {
        let share = if is_class(class, body.key) && body.side.covers(Side::Kernel) {
            1 + open_room(fault_room(rooms.bp, rooms.pf, body), rooms.nmi, up, body)
        } else {
            0
        };
        most = greater(most, share);
    }
    greater(up, most)
}

/// At n, how many can stand on one another by interrupts of the n greatest classes.
fn irq_rooms(rooms: &Rooms, bodies: &[Body]) -> [u8; 17]
    requires { AreRooms bodies.now rooms.now }
    ensures { (n : ℕ) → n < 17 → slice_index result n ≡ irq_room bodies.now n }
{
    let mut up = [0; 17];
    for n in 0..16u8 {
        let here = up[usize::from(n)];
        up[usize::from(n) + 1] = class_room(rooms, 15 - n, here, bodies);
    }
    up
}

/// How many can stand on a body that stands on user code.
fn entry_room(rooms: &Rooms, up: &[u8], body: &Body, bodies: &[Body]) -> u8
    requires rooms { AreRooms bodies.now rooms.now }
    requires count { length up.now ≡ 17 }
    requires up { (n : ℕ) → n < 17 → slice_index up.now n ≡ irq_room bodies.now n }
    ensures is { result ≡ entry_room bodies.now body.now }
    ensures small { result ≤ 21 }
{
    let faults = fault_room(rooms.bp, rooms.pf, body);
    if is_nmi(body.key) {
        faults
    } else {
        let interrupts = up[usize::from(16 - least_class(body.key))];
        open_room(faults, rooms.nmi, interrupts, body)
    }
}

/// The greatest length of a legal chain of the bodies.
pub fn bound_of(bodies: &[Body]) -> u8
    ensures { result ≡ bound_of bodies.now }
{
    let rooms = rooms_of(bodies);
    let up = irq_rooms(&rooms, bodies);
    let mut most = 0;
    for body in bodies {
        let share = if body.side.covers(Side::User) {
            1 + entry_room(&rooms, &up, body, bodies)
        } else {
            0
        };
        most = greater(most, share);
    }
    most
}
