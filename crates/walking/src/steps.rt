//! The steps of a walk.
ghost use Rattle.std.specs.Prelude.{◌≡◌, true, false};
ghost use Rattle.sets.specs.Sets.{has};
ghost use Rattle.marks.specs.Marks.{is_marked};
ghost use Rattle.walking.specs.Scenes.{code_of, Going, Ended, IsTouched, IsVisited, IsSwept, WentOn, SameBytes};
ghost use Rattle.walking.specs.Steps.{Rested, Unmarked, Bare};

use crate::ground::Ground;
use crate::scene::Scene;
use marks::Marks;
use terms::row::Row;

/// All that is reached from the start is visited.
pub(crate) fn walk(scene: &Scene, ground: &mut Ground, marks: &mut Marks)
    requires rested { Rested (code_of scene.now) ground.old }
    requires bare { Bare ground.old }
    requires unmarked { Unmarked (code_of scene.now) marks.old.qubits marks.old.scratch.now }
    ensures over { Ended scene.now marks.new ground.new }
    ensures same { SameBytes marks.old marks.new }
    ensures lender { marks.new.scratch.ghost_name ≡ marks.old.scratch.ghost_name }
{
    marks.mark(scene.start as usize);
    ground.pending.push(scene.start);
    while let Some(q) = ground.pending.pop() {
        ground.members.push_reserved(q);
        visit(scene, q, ground, marks);
    }
}

/// The open checks of a marked qubit are met, those that were not met before.
fn visit(scene: &Scene, qubit: u16, ground: &mut Ground, marks: &mut Marks)
    requires walk { Going scene.now marks.old ground.old }
    requires marked { is_marked marks.old.qubits marks.old.scratch.now qubit ≡ true }
    ensures walk { Going scene.now marks.new ground.new }
    ensures onward { WentOn marks.old ground.old marks.new ground.new }
    ensures visited { IsVisited scene.now ground.new qubit }
    ensures lender { marks.new.scratch.ghost_name ≡ marks.old.scratch.ghost_name }
{
    for c in scene.table.checks_at(qubit) {
        if scene.is_open(*c) && !ground.met[*c as usize] {
            meet(scene, *c, ground, marks);
        }
    }
}

/// A touched check is met, for the first time.
fn meet(scene: &Scene, check: u16, ground: &mut Ground, marks: &mut Marks)
    requires walk { Going scene.now marks.old ground.old }
    requires touched { IsTouched scene.now marks.old check }
    requires fresh { has ground.old.met.items check ≡ false }
    ensures walk { Going scene.now marks.new ground.new }
    ensures onward { WentOn marks.old ground.old marks.new ground.new }
    ensures met { has ground.new.met.items check ≡ true }
    ensures lender { marks.new.scratch.ghost_name ≡ marks.old.scratch.ghost_name }
{
    spread(scene, check, ground, marks);
    ground.met[check as usize] = true;
    if scene.connects(check) {
        ground.connecting.push_reserved(check);
    } else {
        ground.internal.push_reserved(check);
    }
}

/// Of the qubits of a touched check, the erased ones of the side are marked, and those that were not marked before wait.
fn spread(scene: &Scene, check: u16, ground: &mut Ground, marks: &mut Marks)
    requires walk { Going scene.now marks.old ground.old }
    requires touched { IsTouched scene.now marks.old check }
    ensures walk { Going scene.now marks.new ground.new }
    ensures onward { WentOn marks.old ground.old marks.new ground.new }
    ensures same { ground.new.met ≡ ground.old.met }
    ensures swept { IsSwept scene.now marks.new check }
    ensures lender { marks.new.scratch.ghost_name ≡ marks.old.scratch.ghost_name }
{
    for q in scene.table.row(Row::Check(check)) {
        if scene.is_beside(*q) && !marks.is_marked(*q as usize) {
            marks.mark(*q as usize);
            ground.pending.push(*q);
        }
    }
}
