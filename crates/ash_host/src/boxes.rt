//! Boxes of host objects.
ghost use Rattle.std.specs.Prelude.{All};
ghost use Rattle.ash_host.specs.Saved.{StateFits};

use crate::HostObject;

/// Asks each box for its kind, by which it is known that the state of each is no longer than a state may be. It takes no
/// memory.
pub fn see_kinds<B: HostObject>(boxes: &[B])
    ensures fit { All (StateFits B.HostObject) boxes.now }
{
    for object in boxes {
        object.kind();
    }
}
