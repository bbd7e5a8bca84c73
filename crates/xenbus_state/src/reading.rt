// What a front makes of the back's keys.
ghost use Rattle.std.specs.Prelude.{◌≡◌};
ghost use Rattle.xenbus_state.specs.Reading.{count_read, fact_read, with_feature, with_fact};

use crate::keys::BackKey;
use crate::numbers::{read_long, read_number};
use crate::offer::{DiskFacts, Features};
use blk_base::{Lent, Text};

/// A number whose key may be absent, which counts as 0; `None` exactly where the text is none.
pub fn read_count(text: &Option<Lent<'_, Text>>) -> Option<u32>
    ensures { result ≡ count_read text.now }
{
    match text {
        None => Some(0),
        Some(text) => read_number(text.get()),
    }
}

/// The number that a key of the disk's facts says. `None` exactly where the text is none, where
/// `sectors` or `sector-size` is absent, and where `sector-size` isn't 512. An absent `info` is 0.
pub fn read_fact(key: BackKey, text: &Option<Lent<'_, Text>>) -> Option<u64>
    ensures { result ≡ fact_read key text.now }
{
    match (key, text) {
        (BackKey::Info, None) => Some(0),
        (_, None) => None,
        (BackKey::Sectors, Some(text)) => read_long(text.get()),
        (BackKey::SectorSize, Some(text)) => match read_number(text.get()) {
            Some(512) => Some(512),
            _ => None,
        },
        (_, Some(text)) => match read_number(text.get()) {
            Some(number) => Some(u64::from(number)),
            None => None,
        },
    }
}

impl Features {
    /// The number of a feature's key was read.
    pub fn read(&mut self, key: BackKey, number: u32)
        ensures { self.new ≡ with_feature self.old key number }
    {
        match key {
            BackKey::FeatureBarrier => self.barrier = number != 0,
            BackKey::FeatureFlushCache => self.flush = number != 0,
            BackKey::FeatureDiscard => self.discard = number != 0,
            BackKey::FeaturePersistent => self.persistent = number == 1,
            BackKey::FeatureMaxIndirectSegments => self.indirect = number,
            BackKey::MaxRingPageOrder => self.order = number,
            _ => {}
        }
    }
}

impl DiskFacts {
    /// The number of a fact's key was read.
    pub fn read(&mut self, key: BackKey, number: u64)
        ensures { self.new ≡ with_fact self.old key number }
    {
        match key {
            BackKey::Sectors => self.sectors = number,
            BackKey::Info => self.read_only = number == 4,
            _ => {}
        }
    }
}
