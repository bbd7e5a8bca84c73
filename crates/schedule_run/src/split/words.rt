// Words of sectors and of entries, many at once.
ghost use Rattle.std.specs.Prelude.{◌≡◌, ◌≤◌, Some, None, IfSome, All, map};
ghost use Rattle.grant_table.specs.Table.{IsLive};
ghost use Rattle.hypervisor.specs.Act.{with_pages};
ghost use Rattle.blk_front.specs.Part.{IsWithin};
ghost use Rattle.back_jobs.specs.Part.{IsWithinPage};
ghost use Rattle.blk_back.specs.Hands.{hands_of};
ghost use Rattle.vbd_front.specs.Part.{sector_part, steps_of};
ghost use Rattle.vbd_back.specs.View.{both};
ghost use Rattle.vbd_back.specs.Part.{job_part, job_values, job_steps, entry_part, steps_of as back_steps};
ghost use Rattle.round_laws.specs.Movers.{front_words, front_answers, front_writes, back_answers, job_answers, job_moved, job_writes, jobs_write};
ghost use Rattle.round_laws.specs.AtOnce.{with_jobs};
ghost use Rattle.round_laws.specs.Calls.{JobsMayMove};

use back_jobs::SectorPart as JobPart;
use blk_front::SectorPart as FrontPart;
use hypervisor::Hypervisor;
use vbd_back::Backend;
use vbd_front::Frontend;

/// The front moves so many words, where it is in the middle of a sector's or of an entry's.
pub(super) fn move_front(front: &mut Frontend, under: &mut Hypervisor, count: u32)
    requires told { front.old.ring.told ≡ None }
    requires few { IfSome (front_words front.old) (λ words. count ≤ words.count) }
    ensures front { front.new ≡ steps_of front.old (front_answers (front_words front.old) under.old.pages count) }
    ensures under { under.new ≡ with_pages under.old (front_writes (front_words front.old) count under.old.pages) }
    ensures news { front.new.news ≡ front.old.news }
{
    if let Some(part) = front.sector_part() {
        move_sector(front, under, part, count);
        return;
    }
    if let Some(part) = front.entry_part() {
        let words = front.entry_words();
        under.write_front_words(part.frame, part.word, &words[..count as usize]);
        front.tell_entered(count);
    }
}

// It moves so many words of its sector.
#[inline(always)]
fn move_sector(front: &mut Frontend, under: &mut Hypervisor, part: FrontPart, count: u32)
    requires part { sector_part front.old ≡ Some part }
    requires within { IsWithin part }
    requires told { front.old.ring.told ≡ None }
    requires few { count ≤ part.count }
    ensures front { front.new ≡ steps_of front.old (front_answers (front_words front.old) under.old.pages count) }
    ensures under { under.new ≡ with_pages under.old (front_writes (front_words front.old) count under.old.pages) }
    ensures news { front.new.news ≡ front.old.news }
{
    match part.value {
        Some(value) => {
            let words = [value; 128];
            under.write_front_words(part.frame, part.word, &words[..count as usize]);
            front.tell_written(count);
        }
        None => {
            let mut words = [0u32; 128];
            under.read_front_words(part.frame, part.word, &mut words[..count as usize]);
            front.tell_read(&words[..count as usize]);
        }
    }
}

/// The back copies so many words, where it is in the middle of an entry's.
pub(super) fn move_back(back: &mut Backend, under: &Hypervisor, count: u32)
    requires told { back.old.ring.told ≡ None }
    requires few { IfSome (entry_part back.old) (λ part. count ≤ part.count) }
    requires live { All (IsLive under.now.grants) (hands_of back.old.ring) }
    ensures back { back.new ≡ back_steps back.old (back_answers under.now (entry_part back.old) count) }
    ensures hands { hands_of back.new.ring ≡ hands_of back.old.ring }
{
    let Some(part) = back.entry_part() else {
        return;
    };
    let mut words = [0u32; 128];
    under.read_words(part.mapping, part.word, &mut words[..count as usize]);
    back.tell_entry(&words[..count as usize]);
}

/// Each job that is in the middle of a sector's words moves so many, by number.
pub(super) fn move_jobs(back: &mut Backend, under: &mut Hypervisor, count: u32)
    requires may { JobsMayMove count under.old back.old.ring }
    requires live { All (IsLive under.old.grants) (hands_of back.old.ring) }
    ensures back { back.new ≡ both (with_jobs back.old.ring (map (job_moved under.old count) back.old.ring.jobs.works)) back.old.bus }
    ensures under { under.new ≡ with_pages under.old (jobs_write under.old count back.old.ring.jobs.works under.old.pages) }
{
    let mut last = 0;
    while let Some(number) = back.next_job(last) {
        move_job(back, under, number, count);
        last = number;
    }
}

// The job of a number does.
fn move_job(back: &mut Backend, under: &mut Hypervisor, number: u64, count: u32)
    requires told { back.old.ring.told ≡ None }
    requires few { IfSome (job_part back.old number) (λ part. count ≤ part.count) }
    requires live { All (IsLive under.old.grants) (hands_of back.old.ring) }
    ensures back { back.new ≡ job_steps back.old number (job_answers under.old (job_part back.old number) count) }
    ensures under { under.new ≡ with_pages under.old (job_writes under.old (job_part back.old number) (job_values back.old number) count under.old.pages) }
    ensures hands { hands_of back.new.ring ≡ hands_of back.old.ring }
{
    let Some(part) = back.sector_part(number) else {
        return;
    };
    if part.writes {
        let values = back.part_values(number);
        under.write_words(part.mapping, part.word, &values[..count as usize]);
        back.job_tell_written(number, count);
    } else {
        let mut words = [0u32; 128];
        under.read_words(part.mapping, part.word, &mut words[..count as usize]);
        back.job_tell_read(number, &words[..count as usize]);
    }
}
