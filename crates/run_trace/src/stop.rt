//! Why no more items of a record are traced.
ghost use Rattle.std.specs.Prelude.{◌≡◌};
ghost use Rattle.run_trace.specs.Stopping as spec;

use alone_views::Unfit;
use cloak_base::Failed;
use kernel_report::lines::SoFar;

/// Why no more items of a record are traced.
#[derive(Clone, Copy, Debug, PartialEq, Eq)]
pub enum TraceStop {
    /// The last item did not fit.
    Unfit(Unfit),
    /// The output failed.
    Failed(Failed),
}

/// Whether tracing goes on after an item that was shown and taken so.
pub fn go_on(shown: SoFar, taken: Result<(), Unfit>) -> Result<(), TraceStop>
    ensures { result ≡ spec.go_on shown taken }
{
    if let Err(failed) = shown {
        return Err(TraceStop::Failed(failed));
    }
    match taken {
        Ok(()) => Ok(()),
        Err(unfit) => Err(TraceStop::Unfit(unfit)),
    }
}
