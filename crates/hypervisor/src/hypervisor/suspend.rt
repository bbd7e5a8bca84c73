// A suspend: everything between the two domains vanishes.
ghost use Rattle.std.specs.Prelude.{◌≡◌, nat_lt, OnOk, OnErr};
ghost use Rattle.hypervisor.specs.Suspend.{tables_cleared, suspended};

use super::Hypervisor;
use blk_base::{OutOfMemory, Text};
use xen_pages::Pages;

const FRAME_WORDS: u32 = 1024;

// The guest's grant table has frames 0 and 1.
const TABLE_WORDS: u32 = 2 * FRAME_WORDS;

impl Hypervisor {
    /// Whether the front may make a port after a suspend: numbers of ports go on, and are below
    /// 2^32 - 1 before one more is made.
    pub fn may_suspend(&self) -> bool
        ensures { result ≡ nat_lt self.now.channels.made 4294967294 }
    {
        self.channels.made() < 4_294_967_294
    }

    /// The guest was suspended and resumed: its grant table is empty, the back's mappings are gone, and
    /// so are the ports, the events and the watches; of the keys both ends' states are left, with this
    /// text. The other words of memory stay, and the numbers of mappings and of ports go on. It fails
    /// only where there is not enough memory for the keys: then nothing has changed.
    pub fn suspend(&mut self, state: &Text) -> Result<(), OutOfMemory>
        ensures ok { OnOk result (self.new ≡ suspended state.now self.old) }
        ensures err { OnErr result (self.new ≡ self.old) }
    {
        self.keys.reset(state)?;
        clear_tables(&mut self.pages);
        self.grants.revoke_all();
        self.channels.reset();
        Ok(())
    }
}

// Clears every word of the grant table.
#[tactic(auto, using(crate::proofs::Cleared::cleared_more))]
fn clear_tables(pages: &mut Pages)
    ensures { pages.new ≡ tables_cleared pages.old }
{
    for place in 0..TABLE_WORDS {
        pages.write(place / FRAME_WORDS, place % FRAME_WORDS, 0);
    }
}
