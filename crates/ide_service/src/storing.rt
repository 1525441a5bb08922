//! Storing what a writer's desk took over, under the writer's lock alone.
ghost use Rattle.std.specs.Prelude.{◌≡◌, false, true, Err, Ok, IfErr};
ghost use Rattle.ide_desks.specs.Stepping.{IsStepRefusal};
ghost use Rattle.ide_service.specs.Storing.{StoresOn};
ghost use Rattle.ide_service.specs.declared.hands.Point.{Point};
ghost use Rattle.ide_slot_journal.specs.Stands.{IsCheckpointing};

use crate::hands::{Gate, Point};
use ide_desks::{Accord, Stepped, WriterDesk};
use ide_disk::Disk;
use ide_problem::Problem;
use ide_wire::Refused;
use std::sync::Wait;

/// Makes disk calls until all that the desk took over is stored, and a checkpoint that began is made, or until the
/// gate stops it: it is asked before the first call for a record, and behind each record that is stored. Each is
/// published on the board. False where the gate stopped it.
///
/// Refusals, in this order: `Failed`, where a call failed before; `NoMemory`; `Disk`, where a call failed, after
/// which each is refused. What was stored before stays so.
pub fn store_all<R: Wait, P: Problem, D: Disk, J: Accord, G: Gate>(
    rt: &R,
    writer: &mut WriterDesk<P, D, J>,
    gate: &G,
) -> Result<bool, Refused>
    ensures all { result ≡ Ok true → writer.new.seat.stored ≡ writer.old.seat.taken }
    ensures rests { result ≡ Ok true → IsCheckpointing writer.new.half.journal → ⊥ }
    ensures on { StoresOn writer.old.seat writer.new.seat }
    ensures stopped { result ≡ Ok false → (point : Point) × G.may_stop gate.now point }
    ensures failed { writer.old.failed ≡ true → (result ≡ Err Refused.Failed) × (writer.new.half ≡ writer.old.half) }
    ensures refused { J.told → IfErr result (λ why. ∥ IsStepRefusal why ∥₁) }
{
    if writer.has_failed() {
        return Err(Refused::Failed);
    }
    for _ in rt.forever() {
        if writer.is_stored() {
            return Ok(true);
        }
        if !gate.pass(Point::BeforeSync) {
            return Ok(false);
        }
        if let Err(refused) = store_next(rt, writer) {
            return Err(refused);
        }
        if !gate.pass(Point::Stored) {
            return Ok(false);
        }
    }
    unreachable!()
}

/// Stores the oldest record that was taken over and is not stored, if there is one, or makes the checkpoint that
/// began.
fn store_next<R: Wait, P: Problem, D: Disk, J: Accord>(
    rt: &R,
    writer: &mut WriterDesk<P, D, J>,
) -> Result<(), Refused>
    ensures on { StoresOn writer.old.seat writer.new.seat }
    ensures refused { J.told → IfErr result (λ why. ∥ IsStepRefusal why ∥₁) }
{
    for _ in rt.forever() {
        match writer.disk_step() {
            Ok(Stepped::Called) => {}
            Ok(Stepped::Stored | Stepped::Rested) => return Ok(()),
            Err(refused) => return Err(refused),
        }
    }
    unreachable!()
}
