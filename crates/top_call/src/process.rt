//! The status of a process by the end of its run.
use crate::ending::Ended;
use std::io::Eprint;
use std::process::{ExitCode, Termination};

impl Termination for Ended {
    ghost use Rattle.std.specs.Prelude.{◌≡◌};
    ghost use Rattle.std.specs.Process.{exit_status};

    fn report<R: Eprint>(self, _rt: &R) -> ExitCode
        ensures { exit_status result ≡ self.status }
    {
        self.exit_code()
    }
}
