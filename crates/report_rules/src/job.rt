// The request of a job.
ghost use Rattle.std.specs.Prelude.{◌≡◌};
ghost use Rattle.ring_words.specs.Shape.{entry_words_of};
ghost use Rattle.blk_layout.specs.Places.{places_of};
ghost use Rattle.report_rules.specs.Stretch.{entry_of};
ghost use Rattle.report_rules.specs.Job.{id_of};

use blk_base::Abi;
use blk_layout::{RawRequest, read_request};
use ring_words::RingShape;
use segment_list::DiskInfo;

/// What was fetched for a job: its request, the disk, and whether grants were persistent at the end
/// of the fetch.
#[derive(Clone, Copy)]
pub struct Fetched {
    pub request: RawRequest,
    pub disk: DiskInfo,
    pub persistent: bool,
}

// The words of an entry.
fn entry_words(abi: Abi) -> usize
    ensures value { result ≡ entry_words_of abi }
    ensures end { result ≡ (places_of abi).end }
{
    RingShape::of(abi, 0).entry_words() as usize
}

/// The request that words are, where they are a whole entry of this layout.
pub fn entry_of(abi: Option<Abi>, words: &[u32]) -> Option<RawRequest>
    ensures { result ≡ entry_of abi words.now }
{
    let abi = abi?;
    if words.len() == entry_words(abi) {
        Some(read_request(abi, words))
    } else {
        None
    }
}

/// The id of a request.
pub fn id_of(request: &RawRequest) -> u64
    ensures { result ≡ id_of request.now }
{
    match *request {
        RawRequest::Direct { id, .. } => id,
        RawRequest::Discard { id, .. } => id,
        RawRequest::Indirect { id, .. } => id,
    }
}
