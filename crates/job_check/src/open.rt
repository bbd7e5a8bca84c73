// One open job.
ghost use Rattle.std.specs.Prelude.{◌≡◌, IfOk};
ghost use Rattle.report_rules.specs.Work.{work_verdict};
ghost use Rattle.report_rules.specs.Job.{id_of};
ghost use Rattle.job_check.specs.Open.{begun, with_end, opened, failed_by, is_early, may_answer, with_sector, due};

mod steps;

use blk_base::{OutOfMemory, SectorWords, Status};
use blk_layout::{RawRequest, response_words};
use report_rules::{
    Fetched, Spot, Task, end_of, id_of, is_like, status_by, work_response, work_tasks, work_verdict,
};
use segment_list::DiskInfo;
use std::alloc::Global;
use std::marker::Model;

/// A job of the back that had no reply yet: how far it came in the work of its entry.
#[derive(Drop)]
pub struct OpenJob {
    alloc: Global,
    number: u64,
    request: RawRequest,
    disk: DiskInfo,
    persistent: bool,
    read: Vec<u32>,
    tasks: Vec<Task>,
    served: Status,
    spot: Option<Spot>,
    failed: bool,
    moved: u64,
    sector: Option<SectorWords>,
    ended: Option<u64>,
}

impl Model for OpenJob {
    ghost use Rattle.job_check.specs.Open.{Open};

    ghost Value = { Open };

    ghost view = { λ j. record {
      number = j.number;
      request = j.request;
      disk = j.disk;
      persistent = j.persistent;
      read = j.read.items;
      tasks = j.tasks.items;
      served = j.served;
      spot = j.spot;
      failed = j.failed;
      moved = j.moved;
      sector = j.sector;
      ended = j.ended;
    } };
}

impl OpenJob {
    /// The job of an entry that was just fetched, where so many rows of replies had begun.
    /// `OutOfMemory` where there is none for its tasks.
    pub fn open(alloc: Global, rows: u64, number: u64, f: &Fetched) -> Result<OpenJob, OutOfMemory>
        ensures { IfOk result (λ job. job ≡ opened rows number f.now) }
    {
        let mut job = OpenJob::begin(alloc, number, f)?;
        job.note_end(rows);
        Ok(job)
    }

    // The job before its end is looked for.
    fn begin(alloc: Global, number: u64, f: &Fetched) -> Result<OpenJob, OutOfMemory>
        ensures { IfOk result (λ job. job ≡ begun number f.now) }
    {
        let tasks = work_tasks(alloc, &f.request, &f.disk, f.persistent, &[])?;
        let verdict = work_verdict(alloc, &f.request, &f.disk, &[])?;
        Ok(OpenJob {
            alloc,
            number,
            request: f.request,
            disk: f.disk,
            persistent: f.persistent,
            read: Vec::new(alloc),
            tasks,
            served: status_by(&verdict),
            spot: Some(Spot {
                done: 0,
                place: 0,
                refused: false,
                mapping: None,
            }),
            failed: false,
            moved: 0,
            sector: None,
            ended: None,
        })
    }

    // Keeps when the job came to its end, where it is there.
    fn note_end(&mut self, rows: u64)
        ensures { self.new ≡ with_end rows self.old }
    {
        if self.ended.is_none() && self.due().is_some() {
            self.ended = Some(rows);
        }
    }

    /// Takes a fault of the disk at the job's last move, where so many rows of replies had begun.
    pub fn fail(&mut self, rows: u64)
        ensures { self.new ≡ failed_by rows self.old }
    {
        self.failed = true;
        self.note_end(rows);
    }

    /// The job's number: it is the job of the n-th entry that was fetched in its epoch, from 1.
    pub fn number(&self) -> u64
        ensures { result ≡ self.now.number }
    {
        self.number
    }

    /// The id of its request.
    pub fn id(&self) -> u64
        ensures { result ≡ id_of self.now.request }
    {
        id_of(&self.request)
    }

    /// How often it moved the disk.
    pub fn moved(&self) -> u64
        ensures { result ≡ self.now.moved }
    {
        self.moved
    }

    /// The words of the sector that it read last, until it moves the disk again.
    pub fn sector(&self) -> &Option<SectorWords>
        ensures { result.now ≡ self.now.sector }
    {
        &self.sector
    }

    /// Whether a row of a reply may answer the job, where the words up to `last` are looked at: it
    /// came to its end before so many rows had begun, and its response has these words.
    pub fn may_answer(&self, rows: u128, last: usize, row: &[u32; 3]) -> bool
        ensures { result ≡ may_answer rows last row.now self.now }
    {
        is_early(rows, self.ended) && is_like(last, row, &self.due())
    }

    /// Takes the words that the disk gave at the job's last move.
    pub fn give(&mut self, words: &SectorWords)
        ensures { self.new ≡ with_sector self.old words.now }
    {
        self.sector = Some(*words);
    }

    /// The three words of the response, where the work is at its end.
    pub fn due(&self) -> Option<[u32; 3]>
        ensures { result ≡ due self.now }
    {
        let status = end_of(self.failed, self.tasks.len(), self.served, self.spot)?;
        Some(response_words(&work_response(&self.request, status)))
    }
}

// Whether a job came to its end before so many rows had begun.
fn is_early(rows: u128, ended: Option<u64>) -> bool
    ensures { result ≡ is_early rows ended }
{
    match ended {
        None => false,
        Some(known) => u128::from(known) < rows,
    }
}
