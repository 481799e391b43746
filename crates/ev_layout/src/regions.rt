// The regions of memory.

ghost use Rattle.std.specs.Prelude.{◌≡◌, ◌<◌, ◌≤◌, ◌+◌, ◌*◌, ◌++◌, [], ◌∷◌, map, length, OnOk, IfOk};
ghost use Rattle.ev_isa.specs.Word.{numbers_from};
ghost use Rattle.ev_mem.specs.declared.region.RegionKind.{RegionKind};
ghost use Rattle.ev_listing.specs.AddressMap.{pcpu};
ghost use Rattle.ev_concrete.specs.Opening.{region, stack_regions, regions};

use crate::address::{
    AREA_BYTES, BODIES, BODY_BYTES, CELLS, CELLS_BYTES, CODE, CODE_BYTES, IDT, IDT_BYTES,
    KERNEL_TABLE, PAGE_BYTES, PAGE_MAP, PAGE_MAP_BYTES, PAGES, STACK_BYTES, TABLE_BYTES, TASKS,
    TASKS_BYTES, TEXT, TEXT_BYTES, USER_TABLE, area, stack_top,
};
use ev_body::Image;
use ev_mem::{Region, RegionKind};
use std::alloc::{AllocError, Global};

/// A region of the kernel's words.
fn kernel_region(base: u64, bytes: u64) -> Region
    ensures { result ≡ region base bytes RegionKind.Kernel }
{
    Region {
        base,
        words: bytes / 8,
        kind: RegionKind::Kernel,
    }
}

/// The stacks of processor p.
fn append_stacks(regions: &mut Vec<Region>, p: u64) -> Result<(), AllocError>
    requires { p < 32 }
    ensures { OnOk result (regions.new.items ≡ regions.old.items ++ stack_regions p) }
{
    for n in 0..7 {
        regions.push(kernel_region(stack_top(p, n) - STACK_BYTES, STACK_BYTES))?;
    }
    Ok(())
}

/// The areas of so many processors.
fn append_areas(regions: &mut Vec<Region>, processors: u64) -> Result<(), AllocError>
    requires { processors ≤ 8 }
    ensures { OnOk result (regions.new.items ≡ regions.old.items ++ map
        (λ p. region (pcpu p) 0x10000 RegionKind.Kernel) (numbers_from 0 processors)) }
{
    for p in 0..processors {
        regions.push(kernel_region(area(p), AREA_BYTES))?;
    }
    Ok(())
}

/// The user text and the data pages.
fn append_user(regions: &mut Vec<Region>) -> Result<(), AllocError>
    ensures { OnOk result (regions.new.items ≡ regions.old.items
        ++ region 0x400000 0x10000 RegionKind.Text ∷ map
        (λ i. region (0x10000000 + 0x1000 * i) 0x1000 (RegionKind.Page i)) (numbers_from 0 256)) }
{
    regions.push(Region {
        base: TEXT,
        words: TEXT_BYTES / 8,
        kind: RegionKind::Text,
    })?;
    for page in 0..256_u16 {
        regions.push(Region {
            base: PAGES + PAGE_BYTES * u64::from(page),
            words: PAGE_BYTES / 8,
            kind: RegionKind::Page(page),
        })?;
    }
    Ok(())
}

/// The regions of an image's memory.
pub fn regions(alloc: Global, image: &Image) -> Result<Vec<Region>, AllocError>
    ensures { IfOk result (λ v. v.items ≡ regions image.now) }
{
    let processors = u64::from(image.processors);
    let bodies = image.bodies.len() as u64;
    let mut regions = Vec::new(alloc);
    for p in 0..processors {
        append_stacks(&mut regions, p)?;
    }
    append_areas(&mut regions, processors)?;
    let fixed = [
        kernel_region(USER_TABLE, TABLE_BYTES),
        kernel_region(KERNEL_TABLE, TABLE_BYTES),
        kernel_region(IDT, IDT_BYTES),
        kernel_region(PAGE_MAP, PAGE_MAP_BYTES),
        kernel_region(CELLS, CELLS_BYTES),
        kernel_region(TASKS, TASKS_BYTES * processors),
        kernel_region(CODE, CODE_BYTES),
        kernel_region(BODIES, BODY_BYTES * bodies),
    ];
    regions.extend_from_slice(&fixed)?;
    append_user(&mut regions)?;
    Ok(regions)
}
