// The names, paths and texts of keys.
ghost use Rattle.std.specs.Prelude.{◌≡◌, ℕ, ◌≤◌, List, length, IsAscii, true};
ghost use Rattle.std.specs.List.{list_all};
ghost use Rattle.line_text.specs.Texts.{is_graphic, is_name_byte, is_key_name, is_key_text, is_key_path, text_in};

use blk_base::ShortText;
use std::str;

/// Whether each byte is from `!` to `~`.
fn are_graphic(bytes: &[u8]) -> bool
    ensures { result ≡ list_all is_graphic bytes.now }
{
    for byte in bytes {
        if *byte < b'!' || *byte > b'~' {
            return false;
        }
    }
    true
}

/// Whether each byte is from `a` to `z`, from `0` to `9`, or `-`.
fn are_name_bytes(bytes: &[u8]) -> bool
    ensures { result ≡ list_all is_name_byte bytes.now }
{
    for byte in bytes {
        if !matches!(*byte, b'a'..=b'z' | b'0'..=b'9' | b'-') {
            return false;
        }
    }
    true
}

/// Whether the bytes are a key's name: 1 to 32 bytes from `a` to `z`, `0` to `9` and `-`.
#[tactic(auto, unfolding(crate::specs::Texts::is_key_name))]
pub fn is_key_name(bytes: &[u8]) -> bool
    ensures { result ≡ is_key_name bytes.now }
{
    !bytes.is_empty() && bytes.len() <= 32 && are_name_bytes(bytes)
}

/// Whether the bytes are a key's text: 1 to 64 bytes from `!` to `~`.
#[tactic(auto, unfolding(crate::specs::Texts::is_key_text))]
pub fn is_key_text(bytes: &[u8]) -> bool
    ensures { result ≡ is_key_text bytes.now }
{
    !bytes.is_empty() && bytes.len() <= 64 && are_graphic(bytes)
}

/// Whether the bytes are a path: 1 to 80 bytes from `!` to `~`, the first of which is `/`.
#[tactic(auto, unfolding(crate::specs::Texts::is_key_path))]
pub fn is_key_path(bytes: &[u8]) -> bool
    ensures { result ≡ is_key_path bytes.now }
{
    !bytes.is_empty() && bytes.len() <= 80 && are_graphic(bytes) && bytes[0] == b'/'
}

/// The text of a word. It is empty where a byte of the word isn't from `!` to `~`, and where the
/// word is longer than `N` bytes.
#[tactic(auto, unfolding(crate::specs::Texts::text_in))]
pub fn short_text<const N: usize>(word: &[u8]) -> ShortText<N>
    ensures { result ≡ text_in N word.now }
{
    if word.len() <= N && are_graphic(word) {
        ShortText::of(unsafe { str::from_utf8_unchecked(word) })
    } else {
        ShortText::new()
    }
}
