// A line of the schedule from three random words.
ghost use Rattle.std.specs.Prelude.{◌≡◌};
ghost use Rattle.bench_load.specs.Text.{IsShort};
ghost use Rattle.bench_load.specs.Generated.{event_by, words_of, after_words, count_by, sector_by};

use blk_base::{SectorCount, Submission};
use rand_core::utils::NextWord;
use rand_pcg::Lcg64Xsh32;
use schedule_text::Event;

/// Draws the three words of the next line, and gives the line.
pub fn draw_event(generator: &mut Lcg64Xsh32) -> Event
    ensures says { result ≡ event_by (words_of generator.old) }
    ensures short { IsShort result }
    ensures drawn { generator.new ≡ after_words generator.old }
{
    let kind = generator.next_word();
    let place = generator.next_word();
    let size = generator.next_word();
    event(kind, place, size)
}

// The line that three words say, by the last digit of the first.
fn event(kind: u32, place: u32, size: u32) -> Event
    ensures short { IsShort result }
    ensures says { result ≡ event_by (record { kind = kind; place = place; size = size }) }
{
    match kind % 10 {
        0..=3 => Event::Submit(Submission::Write {
            sector: sector(place),
            count: count(size),
            tag: kind,
        }),
        4..=6 => Event::Submit(Submission::Read {
            sector: sector(place),
            count: count(size),
        }),
        7 => Event::Turn(1 + size % 500),
        8 => Event::Job {
            number: 1 + place % 8,
            moves: 1 + size % 300,
        },
        _ => Event::Settle,
    }
}

// The first sector of a request.
fn sector(place: u32) -> u64
    ensures { result ≡ sector_by place }
{
    u64::from(place % 4096)
}

// How many sectors a request has, 1 to 16.
fn count(size: u32) -> SectorCount
    ensures { result ≡ count_by size }
{
    match SectorCount::new(1 + size % 16) {
        Some(count) => count,
        None => unreachable!(),
    }
}
