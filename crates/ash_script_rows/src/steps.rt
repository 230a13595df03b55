//! What scripts ask of host objects and the service.

/// A call that a script makes of a host object, by its number, or of the service.
#[derive(Clone, Copy)]
pub enum HostStep {
    /// A counter is started with a value.
    Start(u64, i32),
    /// A counter adds.
    Add(u64, i32),
    /// A counter raises a code.
    Fail(u64, i32),
    /// A counter's value is read.
    Read(u64),
    /// A counter's value is written.
    Write(u64, i32),
    /// The service adds.
    Tally(i32),
    /// The service's total is read.
    Total,
    /// An object of the kind 9 is started.
    StartOdd(u64, i32),
    /// An object of the kind 9 runs its method, and answers `true` where an `int` is declared.
    Bad(u64),
}
