// The keys of both ends, and where they lie.
ghost use Rattle.std.specs.Prelude.{◌≡◌, ◌≤◌, ◌+◌, ◌++◌, codes, decimal, length};
ghost use Rattle.blk_base.specs.declared.parts.End.{End};
ghost use Rattle.key_directory.specs.Paths.{directory_of};
ghost use Rattle.xenbus_state.specs.Keys.{front_name, back_name, path_under};

use arrayvec::ArrayString;
use blk_base::{End, KeyName, Path, ShortText};
use itoa::Buffer;
use key_directory::directory_of;

/// A key that the front sets, its state aside (`io/blkif.h`, "Frontend XenBus Nodes").
#[derive(Clone, Copy, PartialEq, Eq)]
pub enum FrontKey {
    RingPageOrder,
    /// The grant reference of the only page of the ring.
    RingRef,
    /// The grant reference of this page of the ring, from 0.
    RingRefOf(u32),
    EventChannel,
    Protocol,
    FeaturePersistent,
}

/// A key that the back sets, its state aside (`io/blkif.h`, "Backend XenBus Nodes").
#[derive(Clone, Copy)]
pub enum BackKey {
    FeatureBarrier,
    FeatureFlushCache,
    FeatureDiscard,
    FeaturePersistent,
    FeatureMaxIndirectSegments,
    MaxRingPageOrder,
    Sectors,
    SectorSize,
    Info,
}

impl FrontKey {
    /// The key's name in the front's directory.
    pub fn name(self) -> KeyName
        ensures bytes { result ≡ front_name self }
        ensures short { length result ≤ 32 }
    {
        match self {
            FrontKey::RingPageOrder => KeyName::of("ring-page-order"),
            FrontKey::RingRef => KeyName::of("ring-ref"),
            FrontKey::RingRefOf(page) => numbered("ring-ref", page),
            FrontKey::EventChannel => KeyName::of("event-channel"),
            FrontKey::Protocol => KeyName::of("protocol"),
            FrontKey::FeaturePersistent => KeyName::of("feature-persistent"),
        }
    }
}

impl BackKey {
    /// The key's name in the back's directory.
    pub fn name(self) -> KeyName
        ensures bytes { result ≡ back_name self }
        ensures short { length result ≤ 32 }
    {
        match self {
            BackKey::FeatureBarrier => KeyName::of("feature-barrier"),
            BackKey::FeatureFlushCache => KeyName::of("feature-flush-cache"),
            BackKey::FeatureDiscard => KeyName::of("feature-discard"),
            BackKey::FeaturePersistent => KeyName::of("feature-persistent"),
            BackKey::FeatureMaxIndirectSegments => KeyName::of("feature-max-indirect-segments"),
            BackKey::MaxRingPageOrder => KeyName::of("max-ring-page-order"),
            BackKey::Sectors => KeyName::of("sectors"),
            BackKey::SectorSize => KeyName::of("sector-size"),
            BackKey::Info => KeyName::of("info"),
        }
    }
}

/// Where a key of the front lies.
pub fn front_path(key: FrontKey) -> Path
    ensures { result ≡ path_under End.Front (front_name key) }
{
    path(End::Front, key.name().as_str())
}

/// Where a key of the back lies.
pub fn back_path(key: BackKey) -> Path
    ensures { result ≡ path_under End.Back (back_name key) }
{
    path(End::Back, key.name().as_str())
}

/// Where the state of an end lies.
pub fn state_path(end: End) -> Path
    ensures { result ≡ path_under end (codes "state") }
{
    path(end, "state")
}

// A name under an end's directory.
fn path(end: End, name: &str) -> Path
    requires { length name.now ≤ 32 }
    ensures { result ≡ path_under end name.now }
{
    let below: ShortText<33> = joined("/", name);
    joined(directory(end), below.as_str())
}

// An end's directory.
fn directory(end: End) -> &'static str
    ensures value { result.now ≡ directory_of end }
    ensures short { length result.now ≤ 37 }
{
    directory_of(end)
}

// A name with a number after it.
fn numbered(name: &str, number: u32) -> KeyName
    requires { length name.now ≤ 20 }
    ensures bytes { result ≡ name.now ++ decimal number }
    ensures short { length result ≤ 32 }
{
    let mut buffer = Buffer::new();
    joined(name, buffer.format(number))
}

// Two texts, one after the other.
fn joined<const N: usize>(first: &str, second: &str) -> ShortText<N>
    requires { length first.now + length second.now ≤ N }
    ensures { result ≡ first.now ++ second.now }
{
    let mut text: ArrayString<N> = ArrayString::new();
    text.push_str(first);
    text.push_str(second);
    ShortText::of(text.as_str())
}
