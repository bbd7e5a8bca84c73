//! A client of the kept mappings, and the same calls on another cache.
use crate::expected::same;
use blk_base::{Mapping, Mode};
use lru::LruCache;
use persist_grants::{Kept, PutBack};
use rand_core::utils::NextWord;
use rand_pcg::Pcg32;
use std::num::NonZeroUsize;
use std::process::Abort;
use std::test::Fail;

fn mapping(number: u64, gref: u32) -> Mapping {
    Mapping {
        number,
        gref,
        mode: Mode::ReadWrite,
    }
}

#[test]
fn keeps_a_mapping_for_the_next_request(rt: HostRuntime) {
    let mut kept = Kept::new(1000);
    same(&rt, kept.put_back(24, mapping(17, 24)), PutBack::Kept);
    same(&rt, kept.take(25), None);
    same(&rt, kept.take(24), Some(mapping(17, 24)));
    same(&rt, kept.take(24), None);
}

#[test]
fn hands_out_what_must_be_unmapped(rt: HostRuntime) {
    let mut none = Kept::new(0);
    same(
        &rt,
        none.put_back(24, mapping(1, 24)),
        PutBack::Out(mapping(1, 24)),
    );
    same(&rt, none.drain(), None);

    let mut two = Kept::new(2);
    same(&rt, two.put_back(24, mapping(1, 24)), PutBack::Kept);
    same(&rt, two.put_back(25, mapping(2, 25)), PutBack::Kept);
    same(
        &rt,
        two.put_back(24, mapping(3, 24)),
        PutBack::Out(mapping(1, 24)),
    );
    same(
        &rt,
        two.put_back(26, mapping(4, 26)),
        PutBack::Out(mapping(2, 25)),
    );
    same(&rt, two.drain(), Some(mapping(3, 24)));
    same(&rt, two.drain(), Some(mapping(4, 26)));
    same(&rt, two.drain(), None);
}

// The same call on both, which a word picks: what each hands out is the same.
fn call_both(
    rt: &impl Abort,
    kept: &mut Kept,
    cache: &mut LruCache<u32, Mapping>,
    word: u32,
) -> Result<(), Fail> {
    let gref = 24 + word % 7;
    let number = u64::from(word);
    let (out, cached) = if word < 1 << 30 {
        (kept.take(gref), cache.pop_entry(&gref))
    } else {
        let out = match kept.put_back(gref, mapping(number, gref)) {
            PutBack::Kept => None,
            PutBack::Out(out) => Some(out),
        };
        (out, cache.push(gref, mapping(number, gref))?)
    };
    same(rt, out, cached.map(|(_, mapping)| mapping));
    Ok(())
}

// What both keep is the same, from the least recently used on.
fn drain_both(rt: &impl Abort, kept: &mut Kept, cache: &mut LruCache<u32, Mapping>) {
    for _ in 0..8 {
        same(
            rt,
            kept.drain(),
            cache.pop_lru().map(|(_, mapping)| mapping),
        );
    }
}

#[test]
fn keeps_what_a_cache_of_recent_pairs_keeps(rt: HostRuntime) -> Result<(), Fail> {
    let mut words = Pcg32::new(1, 1);
    for (cap, room) in [(1, 1), (2, 2), (3, 3), (5, 5), (7, 7)] {
        let mut kept = Kept::new(cap);
        let room = NonZeroUsize::new(room).ok_or("a room above 0")?;
        let mut cache = LruCache::new(rt.alloc(), room)?;
        for _ in 0..16 {
            for _ in 0..50 {
                call_both(&rt, &mut kept, &mut cache, words.next_word())?;
            }
            drain_both(&rt, &mut kept, &mut cache);
        }
    }
    Ok(())
}
