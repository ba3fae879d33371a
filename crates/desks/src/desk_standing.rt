//! What a desk answered so far.
ghost use Rattle.std.specs.Prelude.{IfErr, OnErr, OnOk, Option, ◌≡◌};
ghost use Rattle.desks.specs.Faults.{HasShown, IsOpen, first_fault};
ghost use Rattle.desks.specs.declared.desk.DeskFault.TheVariants.{Ended};

use crate::DeskFault;

/// The first fault that a desk answered, and whether it was stopped; each desk keeps one.
#[derive(Drop)]
pub struct DeskStanding {
    pub fault: Option<DeskFault>,
    pub stopped: bool,
}

impl DeskStanding {
    /// No fault and no stop.
    pub fn new() -> DeskStanding
        ensures { IsOpen result.fault result.stopped }
    {
        DeskStanding {
            fault: None,
            stopped: false,
        }
    }

    /// Whether the desk takes something. `Ended` comes after a fault or a stop.
    pub fn enter(&mut self) -> Result<(), DeskFault>
        ensures shown { HasShown self.old.fault self.old.stopped self.new.fault self.new.stopped result }
        ensures same { OnOk result (self.new ≡ self.old) }
        ensures ended { IfErr result (λ f. f ≡ Ended) }
    {
        if self.fault.is_some() {
            return Err(DeskFault::Ended);
        }
        if self.stopped {
            return Err(self.refuse(DeskFault::Ended));
        }
        Ok(())
    }

    /// Keeps the first fault, and gives this one back.
    pub fn refuse(&mut self, fault: DeskFault) -> DeskFault
        ensures given { result ≡ fault }
        ensures first { self.new.fault ≡ first_fault self.old.fault fault }
        ensures stop { self.new.stopped ≡ self.old.stopped }
    {
        if self.fault.is_none() {
            self.fault = Some(fault);
        }
        fault
    }
}
