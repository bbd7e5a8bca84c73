// What the back's end makes of the front's keys.
ghost use Rattle.std.specs.Prelude.{◌≡◌, unwrap_or, is_some, Some, None, true};
ghost use Rattle.std.specs.Option.{option_map};
ghost use Rattle.xenbus_state.specs.Numbers.{number_of};
ghost use Rattle.xenbus_state.specs.declared.keys.FrontKey.TheVariants as key;
ghost use Rattle.xenbus_state.specs.declared.stage.BackBusStage.TheVariants as stage;
ghost use Rattle.xenbus_state.specs.BackReading.{key_read, layout_read, with_gref, with_order};
ghost use Rattle.xenbus_state.specs.BackSound.{IsGrefRead, IsFirst};

use super::BackBus;
use crate::keys::FrontKey;
use crate::numbers::read_number;
use crate::programs::after_page;
use crate::reading::read_count;
use crate::stage::BackBusStage;
use blk_base::{Abi, Lent, Text};

/// The layout of entries that a text says; an absent one is that of 64-bit guests.
fn read_layout(text: &Option<Lent<'_, Text>>) -> Option<Abi>
    ensures { result ≡ layout_read text.now }
{
    let Some(text) = text else {
        return Some(Abi::X64);
    };
    let layout = text.get().as_str();
    if layout == "x86_64-abi" {
        Some(Abi::X64)
    } else if layout == "x86_32-abi" {
        Some(Abi::X32)
    } else {
        None
    }
}

impl BackBus {
    // A key of the front was read. Whether it could be read: then what it says is kept, and the next
    // step begun.
    pub(super) fn read_key(&mut self, key: FrontKey, text: &Option<Lent<'_, Text>>) -> bool
        requires { self.old.stage ≡ stage.ReadKey key }
        ensures kept { self.new ≡ unwrap_or (key_read key text.now self.old) self.old }
        ensures good { result ≡ is_some (key_read key text.now self.old) }
    {
        match (key, text) {
            (FrontKey::RingPageOrder, None) => self.begin_pages(0, FrontKey::RingRef),
            (FrontKey::RingPageOrder, Some(text)) => self.read_order(text),
            (FrontKey::RingRefOf(page), None) => self.read_only_page(page),
            (FrontKey::RingRefOf(page), Some(text)) => {
                self.read_gref(after_page(self.terms.order, page), text)
            }
            (FrontKey::RingRef, Some(text)) => self.read_gref(FrontKey::EventChannel, text),
            (FrontKey::EventChannel, Some(text)) => self.read_port(text),
            (FrontKey::RingRef | FrontKey::EventChannel, None) => false,
            (FrontKey::Protocol, text) => self.read_protocol(text),
            (FrontKey::FeaturePersistent, text) => self.read_persistent(text),
        }
    }

    fn read_order(&mut self, text: &Lent<'_, Text>) -> bool
        requires { self.old.stage ≡ stage.ReadKey key.RingPageOrder }
        ensures kept { self.new ≡ unwrap_or (key_read key.RingPageOrder (Some text.now) self.old) self.old }
        ensures good { result ≡ is_some (key_read key.RingPageOrder (Some text.now) self.old) }
    {
        let Some(order @ 0..=4) = read_number(text.get()) else {
            return false;
        };
        self.begin_pages(order, FrontKey::RingRefOf(0))
    }

    // The order of the ring is known, and the reference of its first page is read under this name.
    fn begin_pages(&mut self, order: u32, first: FrontKey) -> bool
        requires stage { self.old.stage ≡ stage.ReadKey key.RingPageOrder }
        requires first { IsFirst order first }
        ensures kept { self.new ≡ with_order self.old first order }
        ensures good { result ≡ true }
    {
        self.terms.order = order;
        self.stage = BackBusStage::ReadKey(first);
        true
    }

    // A ring of one page may have its reference under the name without a number.
    fn read_only_page(&mut self, page: u32) -> bool
        requires { self.old.stage ≡ stage.ReadKey (key.RingRefOf page) }
        ensures kept { self.new ≡ unwrap_or (key_read (key.RingRefOf page) None self.old) self.old }
        ensures good { result ≡ is_some (key_read (key.RingRefOf page) None self.old) }
    {
        if self.terms.order != 0 {
            return false;
        }
        self.stage = BackBusStage::ReadKey(FrontKey::RingRef);
        true
    }

    #[tactic(auto, using(crate::proofs::Powers::few_pages))]
    // The reference of a page, after which this key is read.
    fn read_gref(&mut self, next: FrontKey, text: &Lent<'_, Text>) -> bool
        requires { IsGrefRead self.old.stage next self.old.terms.order }
        ensures kept { self.new ≡ unwrap_or (option_map (with_gref self.old next) (number_of text.now)) self.old }
        ensures good { result ≡ is_some (number_of text.now) }
    {
        let Some(gref) = read_number(text.get()) else {
            return false;
        };
        self.grefs.push(gref);
        self.stage = BackBusStage::ReadKey(next);
        true
    }

    fn read_port(&mut self, text: &Lent<'_, Text>) -> bool
        requires { self.old.stage ≡ stage.ReadKey key.EventChannel }
        ensures kept { self.new ≡ unwrap_or (key_read key.EventChannel (Some text.now) self.old) self.old }
        ensures good { result ≡ is_some (key_read key.EventChannel (Some text.now) self.old) }
    {
        let Some(port) = read_number(text.get()) else {
            return false;
        };
        self.terms.port = port;
        self.stage = BackBusStage::ReadKey(FrontKey::Protocol);
        true
    }

    fn read_protocol(&mut self, text: &Option<Lent<'_, Text>>) -> bool
        requires { self.old.stage ≡ stage.ReadKey key.Protocol }
        ensures kept { self.new ≡ unwrap_or (key_read key.Protocol text.now self.old) self.old }
        ensures good { result ≡ is_some (key_read key.Protocol text.now self.old) }
    {
        let Some(abi) = read_layout(text) else {
            return false;
        };
        self.terms.abi = abi;
        self.stage = BackBusStage::ReadKey(FrontKey::FeaturePersistent);
        true
    }

    fn read_persistent(&mut self, text: &Option<Lent<'_, Text>>) -> bool
        requires { self.old.stage ≡ stage.ReadKey key.FeaturePersistent }
        ensures kept { self.new ≡ unwrap_or (key_read key.FeaturePersistent text.now self.old) self.old }
        ensures good { result ≡ is_some (key_read key.FeaturePersistent text.now self.old) }
    {
        let Some(number) = read_count(text) else {
            return false;
        };
        self.terms.persistent = number == 1;
        self.stage = BackBusStage::MapPage;
        true
    }
}
