//! The cluster of a qubit and its checks.
ghost use Rattle.std.specs.Prelude.{◌≡◌};
ghost use Rattle.sets.specs.Sets.{elements};
ghost use Rattle.rules.specs.Clusters.{connecting, internal};
ghost use Rattle.walking.specs.Found.{listed, told};
ghost use Rattle.walking.specs.Scenes.{code_of, state_of, cluster_of, SameBytes};
ghost use Rattle.walking.specs.Steps.{Rested, Unmarked};

use crate::found::Connecting;
use crate::ground::Ground;
use crate::scene::Scene;
use crate::steps::walk;
use marking::changing::unmark;
use marks::Marks;

/// Walks the cluster of the start, lists its members and its internal checks, and tells its connecting checks.
pub(crate) fn find(scene: &Scene, ground: &mut Ground, marks: &mut Marks) -> Connecting
    requires rested { Rested (code_of scene.now) ground.old }
    requires unmarked { Unmarked (code_of scene.now) marks.old.qubits marks.old.scratch.now }
    ensures rested { Rested (code_of scene.now) ground.new }
    ensures members { ground.new.members.items ≡ elements (cluster_of scene.now) }
    ensures internal { ground.new.internal.items ≡ elements (internal (code_of scene.now) (state_of scene.now) scene.now.start (cluster_of scene.now)) }
    ensures connecting { result ≡ told (connecting (code_of scene.now) (state_of scene.now) scene.now.start (cluster_of scene.now)) }
    ensures same { SameBytes marks.old marks.new }
    ensures lender { marks.new.scratch.ghost_name ≡ marks.old.scratch.ghost_name }
{
    ground.members.clear();
    ground.internal.clear();
    ground.connecting.clear();
    walk(scene, ground, marks);
    // No check stays marked as met, and no other check's mark is read or written.
    unmark(&ground.internal, ground.met.as_mut_slice());
    unmark(&ground.connecting, ground.met.as_mut_slice());
    ground.members.sort_unstable();
    ground.internal.sort_unstable();
    tell(&ground.connecting)
}

/// None, one or several.
fn tell(checks: &[u16]) -> Connecting
    ensures { result ≡ listed checks.now }
{
    match checks {
        [] => Connecting::Absent,
        [check] => Connecting::One(*check),
        _ => Connecting::Several,
    }
}
