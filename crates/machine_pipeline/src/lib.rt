//! How the machine of shared words (`split_model`) stands for a pipeline (`pipeline_laws`): at each
//! moment a request is at one station, by what the front, the ring (`io/ring.h`), the back and its
//! jobs have of it. Whatever happens is some steps of the pipeline, most often none or one. No word of
//! the plain disk stands here: what a report of the machine is follows from the pipeline's laws.
//!
//! The premises: a ring of 1 to 16 pages, under either layout of entries, and at most 960 segments in
//! indirect pages (`IsPlain`); the order that is agreed is the one that the front wished, and the terms
//! that the back takes are the front's own; the back moves only once the front made its ring and its
//! port, and halts only where the front closes, has no request left and is at nothing; the front leaves
//! after the back, and finds nothing that breaks it; as it connects it knows what the back published;
//! what is submitted moves or discards some sectors, or is a flush, keys are spelled as the grammar has
//! them, the domain is suspended only where another port may be made after it, and all is quiet where it
//! is found so (`AreServed`). What a schedule makes happen (`vbd_model`) is such until a word or a key is
//! overwritten.
#![tactic(auto)]

ghost use Rattle.std.specs.Prelude.{List};
ghost use Rattle.blk_base.specs.Options.{Options};
ghost use Rattle.blk_io.specs.Disk.{DiskSeen, HasLength};
ghost use Rattle.split_model.specs.World.{start_of};
ghost use Rattle.split_model.specs.Happening.{Happening, lines_of, DiskRuns};
ghost use Rattle.pipeline_laws.specs.Pipeline.{pipeline_of};
ghost use Rattle.pipeline_laws.specs.Effects.{IsOfADisk};
ghost use Rattle.machine_pipeline.specs.Plain.{IsPlain};
ghost use Rattle.machine_pipeline.specs.Allowed.{AreServed};
ghost use Rattle.machine_pipeline.specs.Step.{GoesStepwise};
ghost use Rattle.machine_pipeline.specs.Run.{IsPipelineRun};

/// Each happening of a history makes some steps of the pipeline, most often none or one, which the
/// pipeline allows: the lines that the happening shows are those of its steps, but for moves of the
/// machine, and their call of the disk is the one that the happening makes.
pub fn each_happening_is_steps_of_the_pipeline()
    ensures { (config : Options) (history : List Happening) → IsPlain config → AreServed history (start_of config)
        → GoesStepwise history (start_of config) (pipeline_of config) }
{}

/// So every history is a run of the pipeline, with the same lines and submissions, over the same disk;
/// where the disk doesn't expose what it holds, if the lines show the calls of some disk, as those of a
/// real one do, over the sectors of that disk.
pub fn every_history_is_a_run_of_the_pipeline()
    ensures { (config : Options) (history : List Happening) (before now : DiskSeen) → IsPlain config → AreServed history (start_of config)
        → HasLength before.content config.sectors → DiskRuns history (start_of config) before now
        → IsOfADisk config.sectors before.content (lines_of history (start_of config))
        → IsPipelineRun config history before.content now.content }
{}
