// Which key comes after which.
ghost use Rattle.std.specs.Prelude.{◌≡◌, ◌≤◌};
ghost use Rattle.xenbus_state.specs.Programs.{next_feature, next_fact, first_published, next_published, after_page};

use crate::keys::{BackKey, FrontKey};

/// The feature that a back publishes, and a front reads, after this one.
pub fn next_feature(key: BackKey) -> Option<BackKey>
    ensures { result ≡ next_feature key }
{
    match key {
        BackKey::FeatureBarrier => Some(BackKey::FeatureFlushCache),
        BackKey::FeatureFlushCache => Some(BackKey::FeatureDiscard),
        BackKey::FeatureDiscard => Some(BackKey::FeaturePersistent),
        BackKey::FeaturePersistent => Some(BackKey::FeatureMaxIndirectSegments),
        BackKey::FeatureMaxIndirectSegments => Some(BackKey::MaxRingPageOrder),
        _ => None,
    }
}

/// The fact of the disk that a back publishes, and a front reads, after this one.
pub fn next_fact(key: BackKey) -> Option<BackKey>
    ensures { result ≡ next_fact key }
{
    match key {
        BackKey::Sectors => Some(BackKey::SectorSize),
        BackKey::SectorSize => Some(BackKey::Info),
        _ => None,
    }
}

/// The first key that a front publishes, whose ring has `2^order` pages.
pub fn first_published(order: u32) -> FrontKey
    ensures { result ≡ first_published order }
{
    if order == 0 {
        FrontKey::RingRef
    } else {
        FrontKey::RingPageOrder
    }
}

/// The key that a front, whose ring has `2^order` pages, publishes after this one; orders go from
/// 0 to 4.
pub fn next_published(order: u32, key: FrontKey) -> Option<FrontKey>
    requires { order ≤ 4 }
    ensures { result ≡ next_published order key }
{
    match key {
        FrontKey::RingPageOrder => Some(FrontKey::RingRefOf(0)),
        FrontKey::RingRefOf(page) => Some(after_page(order, page)),
        FrontKey::RingRef => Some(FrontKey::EventChannel),
        FrontKey::EventChannel => Some(FrontKey::Protocol),
        FrontKey::Protocol => Some(FrontKey::FeaturePersistent),
        FrontKey::FeaturePersistent => None,
    }
}

/// The key after that of a page's reference, where a ring has `2^order` pages.
pub fn after_page(order: u32, page: u32) -> FrontKey
    requires { order ≤ 4 }
    ensures { result ≡ after_page order page }
{
    let last = (1 << order) - 1;
    if page < last {
        FrontKey::RingRefOf(page + 1)
    } else {
        FrontKey::EventChannel
    }
}
