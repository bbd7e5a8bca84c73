// The disk of the options, and what both ends published of grants in this epoch.
ghost use Rattle.std.specs.Prelude.{◌≡◌};
ghost use Rattle.report_rules.specs.Published.{no_disk};
ghost use Rattle.job_check.specs.Published.{nothing_published, published_after, is_persistent};

use report_rules::{Keeping, info_told, is_epoch, keeping_after};
use schedule_text::Line;
use segment_list::DiskInfo;
use std::marker::Model;

/// What the lines so far tell of the disk: the options of the run, and what both ends said in this
/// epoch of persistent grants.
#[derive(Drop)]
pub struct Publication {
    info: DiskInfo,
    keeping: Keeping,
}

impl Model for Publication {
    ghost use Rattle.job_check.specs.Published.{Published};

    ghost Value = { Published };

    ghost view = { λ p. record { info = p.info; keeping = p.keeping } };
}

const NO_DISK: DiskInfo = DiskInfo {
    sectors: 0,
    read_only: false,
    barrier: false,
    flush: false,
    discard: false,
    max_indirect: 0,
};

impl Publication {
    /// Nothing was published yet, of a disk that nothing is known of.
    pub fn new() -> Publication
        ensures { result ≡ nothing_published }
    {
        Publication::of(NO_DISK)
    }

    // Nothing was published yet of a disk.
    fn of(info: DiskInfo) -> Publication
        ensures { result ≡ record nothing_published { info = info } }
    {
        Publication {
            info,
            keeping: Keeping {
                offered: false,
                asked: false,
            },
        }
    }

    /// Takes in a line.
    pub fn see(&mut self, line: &Line)
        ensures { self.new ≡ published_after self.old line.now }
    {
        if is_epoch(line) {
            *self = Publication::of(self.info);
        } else {
            self.info = info_told(self.info, line);
            self.keeping = keeping_after(self.keeping, line);
        }
    }

    /// The disk of the options.
    pub fn disk(&self) -> DiskInfo
        ensures { result ≡ self.now.info }
    {
        self.info
    }

    /// Whether grants are persistent: both ends published 1.
    pub fn is_persistent(&self) -> bool
        ensures { result ≡ is_persistent self.now }
    {
        self.keeping.offered && self.keeping.asked
    }
}
