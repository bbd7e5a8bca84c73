// The reply that the back writes.
ghost use Rattle.std.specs.Prelude.{◌≡◌, ◌++◌, ◌∷◌, [], ◌<◌, length};
ghost use Rattle.blk_base.specs.Becomes.{Becomes};
ghost use Rattle.report_rules.specs.Reply.{row_of};
ghost use Rattle.job_check.specs.Replies.{no_replies, rows_with, next_place, after_value, after_other};

use arrayvec::ArrayVec;
use blk_base::OutOfMemory;
use ring_words::RingShape;
use std::marker::Model;

/// The row of words that the back writes for a job that is at its end: three of a response, and then
/// its producer.
#[derive(Drop)]
pub struct ReplyRow {
    rows: u64,
    row: ArrayVec<u32, 3>,
    pushed: Option<[u32; 3]>,
}

impl Model for ReplyRow {
    ghost use Rattle.job_check.specs.Replies.{Replies};

    ghost Value = { Replies };

    ghost view = { λ r. record { rows = r.rows; row = r.row.items; pushed = r.pushed } };
}

impl ReplyRow {
    /// Nothing was written in this epoch.
    pub fn new() -> ReplyRow
        ensures { result ≡ no_replies }
    {
        ReplyRow {
            rows: 0,
            row: ArrayVec::new(),
            pushed: None,
        }
    }

    /// How many rows have begun in this epoch.
    pub fn rows(&self) -> u64
        ensures { result ≡ self.now.rows }
    {
        self.rows
    }

    /// How many rows have begun with the word that is written next.
    pub fn rows_with(&self) -> u128
        ensures { result ≡ rows_with self.now }
    {
        let rows = u128::from(self.rows);
        if self.row.is_empty() { rows + 1 } else { rows }
    }

    /// How many words of the row under way are written: 0 between two replies.
    pub fn within(&self) -> usize
        ensures { result ≡ length self.now.row }
    {
        self.row.len()
    }

    /// The words of the reply that the last line pushed.
    #[inline(always)]
    pub fn pushed(&self) -> Option<[u32; 3]>
        ensures { result ≡ self.now.pushed }
    {
        self.pushed
    }

    /// The row with a word more; words that aren't written yet are 0. It has room for one.
    pub fn row_with(&self, value: u32) -> [u32; 3]
        requires { length self.now.row < 3 }
        ensures { result ≡ row_of (self.now.row ++ value ∷ []) 0 }
    {
        match self.row.as_slice() {
            [] => [value, 0, 0],
            [first] => [*first, value, 0],
            [first, second, ..] => [*first, *second, value],
        }
    }

    /// The word of the ring that is written next, where that producer was written last.
    pub fn next_place(&self, replied: u32, shape: &RingShape) -> u32
        ensures { result ≡ next_place self.now replied shape.now }
    {
        let within = self.row.len() as u32;
        if within < 3 {
            16 + replied % shape.entries() * shape.entry_words() + within
        } else {
            2
        }
    }

    /// Takes in a word that the back wrote. `OutOfMemory`, and nothing changed, where 2^64 - 1 rows
    /// were begun.
    pub fn write(&mut self, value: u32) -> Result<(), OutOfMemory>
        ensures written { Becomes (after_value self.old value) result self.old self.new }
    {
        match self.row.as_slice() {
            [] => {
                let Some(rows) = self.rows.checked_add(1) else {
                    return Err(OutOfMemory);
                };
                self.rows = rows;
                self.row.push(value);
                self.pushed = None;
            }
            [first, second, third] => {
                self.pushed = Some([*first, *second, *third]);
                self.row = ArrayVec::new();
            }
            _ => {
                self.row.push(value);
                self.pushed = None;
            }
        }
        Ok(())
    }

    /// Takes in a line that writes no word of the ring.
    pub fn pass(&mut self)
        ensures { self.new ≡ after_other self.old }
    {
        self.pushed = None;
    }
}
