//! What is asked of a run that stands.

/// A step that is asked for: the `k`-th standing step of process `p`, or without `k` its last one. The numbers are as a
/// user gave them: whether they name a step is seen in the run.
#[derive(Clone, Copy)]
pub struct StepAsked {
    pub p: u32,
    pub k: Option<u32>,
}

/// What is asked of a run.
#[derive(Clone, Copy)]
pub enum Question {
    /// What led to the step.
    Explain(StepAsked),
    /// How a value came to the step.
    Trail(StepAsked),
    /// A picture with this number of columns to a row, or with 0 all in one row. What led to the step stands out;
    /// without a step, everything does.
    Draw {
        columns: u32,
        step: Option<StepAsked>,
    },
    /// A script that plays the run, or only what led to the step.
    Slice(Option<StepAsked>),
    /// The clocks of the run.
    Clocks,
    /// The page of the run, for a browser.
    Page,
}
