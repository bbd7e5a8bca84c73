// What the front tells, as the numbers that C reads.
ghost use Rattle.std.specs.Prelude.{◌≡◌};
ghost use Rattle.vbd_c.specs.FrontTold.{of_kind, numbers_told, numbers_of_news, numbers_of};

use blk_front::Told;
use xenbus_state::FrontNews;

/// What the front tells: its kind, by the order of `Told` from 1 on, and then by that of `FrontNews`; the number of the
/// request, which of its sectors, and the status of its answer (`BLKIF_RSP_*`); the word for which the front is broken;
/// and the words of the sector that was read. What a kind doesn't have is 0.
#[repr(C)]
#[derive(Clone, Copy)]
pub struct FrontToldNumbers {
    pub kind: u32,
    pub id: u32,
    pub index: u32,
    pub word: u32,
    pub status: i32,
    pub words: [u32; 128],
}

/// The numbers of what is told: what happened at the ring, else what the negotiation came to; `None` where neither is
/// anything.
pub fn numbers_told(told: Option<Told>, news: Option<FrontNews>) -> Option<FrontToldNumbers>
    ensures { result ≡ numbers_told told news }
{
    match (told, news) {
        (Some(told), _) => Some(numbers_of(told)),
        (None, Some(news)) => Some(numbers_of_news(news)),
        (None, None) => None,
    }
}

// The numbers of what happened at the ring.
fn numbers_of(told: Told) -> FrontToldNumbers
    ensures { result ≡ numbers_of told }
{
    match told {
        Told::Answer { id, status } => {
            let mut numbers = of_kind(1, id, 0);
            numbers.status = i32::from(status.code());
            numbers
        }
        Told::Sector { id, index, words } => {
            let mut numbers = of_kind(2, id, 0);
            numbers.index = index;
            numbers.words = words;
            numbers
        }
        Told::Broken(word) => of_kind(3, 0, word),
    }
}

// The numbers of what the negotiation came to.
fn numbers_of_news(news: FrontNews) -> FrontToldNumbers
    ensures { result ≡ numbers_of_news news }
{
    match news {
        FrontNews::Ready => of_kind(4, 0, 0),
        FrontNews::Closing => of_kind(5, 0, 0),
        FrontNews::Closed => of_kind(6, 0, 0),
        FrontNews::Broken(word) => of_kind(3, 0, word),
    }
}

// The numbers of a kind, of a request and of a word.
fn of_kind(kind: u32, id: u32, word: u32) -> FrontToldNumbers
    ensures { result ≡ of_kind kind id word }
{
    FrontToldNumbers {
        kind,
        id,
        index: 0,
        word,
        status: 0,
        words: [0; 128],
    }
}
