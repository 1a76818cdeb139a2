//! What of a run is shown.
ghost use Rattle.std.specs.Prelude.{◌≡◌};
ghost use Rattle.run_trace.specs.Choice as spec;

/// What of a run is shown.
#[derive(Clone, Copy, Debug, PartialEq, Eq)]
pub struct TraceChoice {
    /// The first step; the opening is 0.
    pub from: u32,
    /// The last step.
    pub to: u32,
    /// The hart whose steps are shown; all if none is named.
    pub hart: Option<u32>,
}

impl TraceChoice {
    /// Steps of this hart are shown, or items of no hart.
    fn has_hart(&self, hart: Option<usize>) -> bool
        ensures { result ≡ spec.has_hart self.now.hart hart }
    {
        match self.hart {
            None => true,
            Some(meant) => match hart {
                None => false,
                Some(hart) => hart == meant as usize,
            },
        }
    }

    /// What stands in this step, of this hart or of none, is shown.
    pub fn has(&self, step: u32, hart: Option<usize>) -> bool
        ensures { result ≡ spec.has_step self.now step hart }
    {
        self.from <= step && (step <= self.to && self.has_hart(hart))
    }
}
