//! That the premises of the laws can be met. The function does nothing when it runs.
ghost use Rattle.std.specs.Prelude.{[]};
ghost use Rattle.ash_requests.specs.States.{empty};
ghost use Rattle.ash_requests.specs.Premises.{ReadsSound};
ghost use Rattle.ash_soundness.specs.WellFormedLaws.{OffersNothing};
ghost use Rattle.ash_soundness.specs.WellFormedStates.{IsWellFormedState};
ghost use Rattle.ash_soundness.specs.ModuleExample.{no_host, read_adding};

/// Where each source is read as one small module, sources are read as sound modules, so that whatever requests leave is
/// well-formed; and a host that offers nothing has no function, construction, method or property for scripts.
pub fn worked_premises()
    ensures nothing { OffersNothing no_host }
    ensures sound { ReadsSound no_host read_adding }
    ensures first { IsWellFormedState read_adding no_host (empty []) }
{}
