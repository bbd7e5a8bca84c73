// The pages of the ring.
ghost use Rattle.std.specs.Prelude.{◌≡◌, ℕ};
ghost use Rattle.report_rules.specs.Ring.{page_from, word_in};

use report_rules::Standing;

/// The place of a mapping among these pages.
pub fn place_of(pages: &[Standing], number: u64) -> Option<usize>
    ensures { result ≡ page_from 0 number pages.now }
{
    for i in 0..pages.len() {
        if pages[i].number == number {
            return Some(i);
        }
    }
    None
}

/// The word of the ring that a word of a page is: its pages run on from one to the next.
pub fn word_in(page: Option<usize>, word: u32) -> Option<u128>
    ensures { result ≡ word_in page word }
{
    match page {
        None => None,
        Some(page) => Some(1024 * page as u128 + u128::from(word)),
    }
}
