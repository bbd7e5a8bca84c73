// What each key says.
ghost use Rattle.std.specs.Prelude.{◌≡◌};
ghost use Rattle.xenbus_state.specs.Values.{text_of, flag_of, front_value, back_value};

use crate::keys::{BackKey, FrontKey};
use crate::offer::{DiskFacts, Features};
use blk_base::{Abi, Text};
use itoa::Buffer;

// The grant reference of the ring's first page.
const RING_GREF: u64 = 8;

const SECTOR_SIZE: u64 = 512;

// `VDISK_READONLY` of `io/blkif.h`.
const VDISK_READONLY: u64 = 4;

/// What a key says.
#[derive(Clone, Copy)]
pub enum KeyValue {
    /// A number, in decimal digits.
    Number(u64),
    /// The layout of entries (`XEN_IO_PROTO_ABI_*` of `io/protocols.h`).
    Layout(Abi),
}

/// What a front has to say to its back: the layout of entries, the order of the ring (it has
/// `2^order` pages), whether it keeps grants, and its event port.
#[derive(Clone, Copy, PartialEq, Eq)]
pub struct FrontTerms {
    pub abi: Abi,
    pub order: u32,
    pub persistent: bool,
    pub port: u32,
}

impl KeyValue {
    /// The text of the key.
    pub fn text(self) -> Text
        ensures { result ≡ text_of self }
    {
        let mut buffer = Buffer::new();
        match self {
            KeyValue::Number(number) => Text::of(buffer.format(number)),
            KeyValue::Layout(Abi::X64) => Text::of("x86_64-abi"),
            KeyValue::Layout(Abi::X32) => Text::of("x86_32-abi"),
        }
    }
}

// 1 for a feature that is there, 0 for one that isn't.
fn flag(there: bool) -> KeyValue
    ensures { result ≡ KeyValue.Number (flag_of there) }
{
    KeyValue::Number(u64::from(there))
}

/// What a key of the front says. The grant references of the ring's pages count from 8.
pub fn front_value(terms: &FrontTerms, key: FrontKey) -> KeyValue
    ensures { result ≡ front_value terms.now key }
{
    match key {
        FrontKey::RingPageOrder => KeyValue::Number(u64::from(terms.order)),
        FrontKey::RingRef => KeyValue::Number(RING_GREF),
        FrontKey::RingRefOf(page) => KeyValue::Number(RING_GREF + u64::from(page)),
        FrontKey::EventChannel => KeyValue::Number(u64::from(terms.port)),
        FrontKey::Protocol => KeyValue::Layout(terms.abi),
        FrontKey::FeaturePersistent => flag(terms.persistent),
    }
}

/// What a key of the back says.
pub fn back_value(features: &Features, disk: &DiskFacts, key: BackKey) -> KeyValue
    ensures { result ≡ back_value features.now disk.now key }
{
    match key {
        BackKey::FeatureBarrier => flag(features.barrier),
        BackKey::FeatureFlushCache => flag(features.flush),
        BackKey::FeatureDiscard => flag(features.discard),
        BackKey::FeaturePersistent => flag(features.persistent),
        BackKey::FeatureMaxIndirectSegments => KeyValue::Number(u64::from(features.indirect)),
        BackKey::MaxRingPageOrder => KeyValue::Number(u64::from(features.order)),
        BackKey::Sectors => KeyValue::Number(disk.sectors),
        BackKey::SectorSize => KeyValue::Number(SECTOR_SIZE),
        BackKey::Info if disk.read_only => KeyValue::Number(VDISK_READONLY),
        BackKey::Info => KeyValue::Number(0),
    }
}
