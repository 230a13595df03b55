//! The state of the file that is not current.
ghost use Rattle.std.specs.Prelude.{◌≡◌};
ghost use Rattle.ash_journal.specs.OtherState.{is_older, is_stray, repaired, first_of, second_of};

/// The state of the file that is not current.
#[derive(Clone, Copy)]
pub(crate) enum OtherState {
    /// Its first gate is 0.
    Shut,
    /// It is an open, older generation.
    Older,
    /// It is closed, and its first gate is still to be written over.
    Stray,
}

impl OtherState {
    pub(crate) fn is_older(self) -> bool
        ensures value { result ≡ is_older self }
    {
        matches!(self, OtherState::Older)
    }

    pub(crate) fn is_stray(self) -> bool
        ensures value { result ≡ is_stray self }
    {
        matches!(self, OtherState::Stray)
    }

    /// The state once a stray gate is written over.
    pub(crate) fn repaired(self) -> OtherState
        ensures value { result ≡ repaired self }
    {
        match self {
            OtherState::Shut | OtherState::Stray => OtherState::Shut,
            OtherState::Older => OtherState::Older,
        }
    }
}

/// Whether the current disk was handed over as the second.
#[derive(Clone, Copy)]
pub(crate) struct Order {
    pub(crate) swapped: bool,
}

impl Order {
    /// Two disks, the current one first where they come as they were handed over, and the other way round.
    pub(crate) fn arrange<D>(self, first: D, second: D) -> (D, D)
        ensures current { result.0 ≡ first_of self.swapped first second }
        ensures other { result.1 ≡ second_of self.swapped first second }
    {
        if self.swapped {
            (second, first)
        } else {
            (first, second)
        }
    }
}
