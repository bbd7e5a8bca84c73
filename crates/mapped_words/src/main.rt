//! Ten million writes and ten million reads of words through a mapping, while 47 others live. It
//! prints what it read last; `bench/mapped-words` measures it beside the same loop in plain Rust.
#![tactic(auto)]

ghost use Rattle.std.specs.Prelude.{◌≡◌, ◌<◌, IfSome};
ghost use Rattle.grant_table.specs.Table.{IsLive};
ghost use Rattle.blk_base.specs.declared.parts.Mode.TheVariants.{ReadWrite};

use anyhow::{Context, Result};
use blk_base::{Mapping, Mode};
use grant_table::Grants;
use xen_pages::Pages;

const FIRST_REFERENCE: u32 = 24;

const MAPPINGS: u32 = 48;

const TURNS: u32 = 10_000_000;

fn main(rt: HostRuntime) -> Result<()> {
    let mut pages = Pages::new(rt.alloc())?;
    let mut grants = Grants::new(rt.alloc())?;
    for gref in FIRST_REFERENCE..FIRST_REFERENCE + MAPPINGS - 1 {
        grant(&mut pages, gref);
        map(&mut grants, &mut pages, gref);
    }
    let last = FIRST_REFERENCE + MAPPINGS - 1;
    grant(&mut pages, last);
    let mapping = map(&mut grants, &mut pages, last).context("the map was refused")?;
    let seen = turns(&grants, &mut pages, mapping);
    println!(rt; "{seen}")?;
    Ok(())
}

// The front's part: the frame of the reference, then the flags.
fn grant(pages: &mut Pages, gref: u32)
    requires { gref < 512 }
{
    pages.write(0, 2 * gref + 1, gref - gref.min(6));
    pages.write(0, 2 * gref, 1);
}

fn map(grants: &mut Grants, pages: &mut Pages, gref: u32) -> Option<Mapping>
    ensures live { IfSome result (IsLive grants.new) }
    ensures writable { IfSome result (λ mapping. mapping.mode ≡ ReadWrite) }
{
    if grants.live() >= 8192 || grants.made() >= 8192 {
        return None;
    }
    match grants.map(pages, gref, Mode::ReadWrite) {
        Ok(mapping) if mapping.mode == Mode::ReadWrite => Some(mapping),
        _ => None,
    }
}

fn turns(grants: &Grants, pages: &mut Pages, mapping: Mapping) -> u32
    requires live { IsLive grants.now mapping }
    requires writable { mapping.mode ≡ ReadWrite }
{
    let mut seen = 0;
    for turn in 0..TURNS {
        grants.write(pages, mapping, turn % 1024, turn ^ seen);
        seen = grants.read(pages, mapping, turn.wrapping_mul(7) % 1024);
    }
    seen
}
