//! The law of trials.

ghost use Rattle.marple_laws.specs.TrialRuns.{TrialsRunOverTexts};

/// The text of generated packets is a trace that the trial's query accepts, and it prints over the packets of the trace what it
/// prints over the generated ones.
pub fn trials_run_over_texts()
    ensures { TrialsRunOverTexts }
{}
