// How a run begins, for whoever carries out events one by one; and the headline of its report.
ghost use Rattle.std.specs.Prelude.{[], ◌∷◌};
ghost use Rattle.blk_base.specs.Options.{Options};
ghost use Rattle.blk_io.specs.Disk.{DiskSeen};
ghost use Rattle.schedule_text.specs.Recorder.{RecorderSeen, Gained};
ghost use Rattle.schedule_text.specs.declared.line.Detail.{Detail};
ghost use Rattle.schedule_text.specs.declared.line.Line.TheVariants.{Begin};
ghost use Rattle.vbd_model.specs.World.{start_of};
ghost use Rattle.vbd_model.specs.Leads.{moment};
ghost use Rattle.schedule_run.specs.Outcome.{IsServed, HasCarried, outside};
ghost use Rattle.schedule_run.specs.Headline.{LawfulKeepsTheHeadline};

/// A machine just made carried out no events, once the recorder took a `begin` line with its options.
pub fn a_run_begins()
    ensures { (config : Options) (disk : DiskSeen) (r s : RecorderSeen) → IsServed config → (word : Detail)
        → Gained (Begin config word ∷ []) r s → HasCarried config [] (outside disk r) (moment (start_of config) disk s) }
{}

/// A lawful report keeps the headline: each frame that the back or a job touches was granted to it in
/// that mode when it was mapped, and the mapping stands (`grant_table.h`); after a producer that overran
/// the ring nothing is served until the next epoch (`io/ring.h`); and without hostile lines the report is
/// a run of the plain disk from what the image held to what it holds, each request is answered at most
/// once, and at each `quiet` line each was.
pub fn a_lawful_report_keeps_the_headline()
    ensures { LawfulKeepsTheHeadline }
{}
