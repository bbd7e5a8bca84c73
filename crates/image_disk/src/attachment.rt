// Which image is attached to a disk.
ghost use Rattle.std.specs.Prelude.{◌≡◌, IfOk};

use blk_base::OutOfMemory;
use std::alloc::Global;
use std::marker::Model;

/// The attached image: its name, whether it may be written, and its whole number of sectors.
#[derive(Drop)]
pub struct Attached {
    name: String,
    writable: bool,
    sectors: u64,
}

impl Model for Attached {
    ghost use Rattle.std.specs.String.{string_bytes};
    ghost use Rattle.blk_io.specs.Disk.{Attachment};

    ghost Value = { Attachment };

    ghost view = { λ a. record { name = string_bytes a.name; writable = a.writable; sectors = a.sectors } };
}

impl Attached {
    /// The image of that name.
    pub fn new(
        alloc: Global,
        name: &str,
        writable: bool,
        sectors: u64,
    ) -> Result<Attached, OutOfMemory>
        ensures { IfOk result (λ image. image ≡ record { name = name.now; writable = writable; sectors = sectors }) }
    {
        let name = String::from_str(alloc, name)?;
        Ok(Attached {
            name,
            writable,
            sectors,
        })
    }
}
