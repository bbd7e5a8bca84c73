// Texts and words that are copied out and in.
ghost use Rattle.std.specs.Prelude.{◌≡◌, IfSome, IfNone, length};
ghost use Rattle.vbd_c.specs.Bytes.{copied, copied_count, IsNoText, sector_of, sector_copied, is_sector_copied};

use blk_base::{SectorWords, ShortText};
use std::str;

/// Copies a text to the front of these bytes and answers its length; where it has no room there nothing is copied, and 0
/// answered.
pub fn copy_text(text: &str, bytes: &mut [u8]) -> usize
    ensures copied { bytes.new ≡ copied text.now bytes.old }
    ensures count { result ≡ copied_count text.now bytes.old }
{
    let len = text.len();
    if len > bytes.len() {
        return 0;
    }
    bytes[..len].copy_from_slice(text.as_bytes());
    len
}

/// The text that these bytes are; `None` where they are more than `N`, or no UTF-8.
pub fn short_text<const N: usize>(bytes: &[u8]) -> Option<ShortText<N>>
    ensures some { IfSome result (λ text. (text ≡ bytes.now) × ¬ (IsNoText N bytes.now)) }
    ensures none { IfNone result (IsNoText N bytes.now) }
{
    match str::from_utf8(bytes) {
        Ok(text) if text.len() <= N => Some(ShortText::of(text)),
        _ => None,
    }
}

/// The words of a sector; `None` where they aren't 128.
pub fn sector_of(words: &[u32]) -> Option<SectorWords>
    ensures { result ≡ sector_of words.now }
{
    if words.len() != 128 {
        return None;
    }
    let mut sector = [0; 128];
    sector.copy_from_slice(words);
    Some(sector)
}

/// Copies a sector's words where there is room for just that many, and answers whether.
pub fn copy_sector(sector: Option<SectorWords>, words: &mut [u32]) -> bool
    requires { IfSome sector (λ sector. length sector ≡ 128) }
    ensures words { words.new ≡ sector_copied sector words.old }
    ensures copied { result ≡ is_sector_copied sector words.old }
{
    match sector {
        Some(sector) if words.len() == 128 => {
            words.copy_from_slice(&sector);
            true
        }
        _ => false,
    }
}
