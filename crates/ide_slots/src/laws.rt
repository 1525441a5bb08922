//! Laws of two slots. The functions do nothing: their clauses are the laws.
ghost use Rattle.ide_slots.specs.FillingLaws.{CheckpointsHaveCalls, FillingsEndWhole, FillingsGoOn, FillingsStayBehind};
ghost use Rattle.ide_slots.specs.ReadingLaws.{FrontsTellCurrent, PlacesAreExact};
ghost use Rattle.ide_slots.specs.Rows.{WorkedRow};
ghost use Rattle.ide_slots.specs.SlotLaws.{GatesTell, HeadersTellApart, HoldsOneSlot, OneSideIsChosen, OneSlotIsCurrent, StoresAreSlots};
ghost use Rattle.ide_slots.specs.TwoLaws.{CheckpointsKeepStanding, OpeningsFind, RecordsKeepStanding, SidesAreChosen, StandingIsSafe, StoresBegin, WritersGoOn};

/// First pages that are valid and equal tell the same.
pub fn headers_tell_apart()
    ensures { HeadersTellApart }
{}

/// A file holds one slot at most.
pub fn holds_one_slot()
    ensures { HoldsOneSlot }
{}

/// A store on one disk is a slot of generation 0, and back.
pub fn stores_are_slots()
    ensures { StoresAreSlots }
{}

/// The byte behind the first page tells whether a slot is open.
pub fn gates_tell()
    ensures { GatesTell }
{}

/// An opening takes one side at most: that of the slot that is shown, of which there is one at most.
pub fn one_side_is_chosen()
    ensures { OneSideIsChosen }
{}

/// One slot at most is current: where one is shown, that one, and none where there is a cause for that.
pub fn one_slot_is_current()
    ensures { OneSlotIsCurrent }
{}

/// The first 4,097 bytes of each file tell which slot is current, and why none is.
pub fn fronts_tell_current()
    ensures { FrontsTellCurrent }
{}

/// A file that holds a slot lacks no record, and of any other one place at most is told.
pub fn places_are_exact()
    ensures { PlacesAreExact }
{}

/// A checkpoint of r records makes r + 7 calls.
pub fn checkpoints_have_calls()
    ensures { CheckpointsHaveCalls }
{}

/// Each good call of a checkpoint moves the filling of the other slot on.
pub fn fillings_go_on()
    ensures { FillingsGoOn }
{}

/// Until the write that opens the other slot's first gate, a crash within a call of a checkpoint leaves
/// that slot closed or of lesser generation.
pub fn fillings_stay_behind()
    ensures { FillingsStayBehind }
{}

/// From then on it leaves that slot closed or whole, and from the last sync on whole.
pub fn fillings_end_whole()
    ensures { FillingsEndWhole }
{}

/// A writer stands on a new store, and a store on one disk is shown beside a closed slot.
pub fn stores_begin()
    ensures { StoresBegin }
{}

/// Wherever a writer stands with work to do, some call of it can be made.
pub fn writers_go_on()
    ensures { WritersGoOn }
{}

/// Where a writer stands, a crash leaves the current slot, the same with the next record, or that of a
/// checkpoint whose first gate is being opened.
pub fn standing_is_safe()
    ensures { StandingIsSafe }
{}

/// Calls for the next record leave the writer standing; after a failed one, and within one, a crash
/// leaves what is safe.
pub fn records_keep_standing()
    ensures { RecordsKeepStanding }
{}

/// Calls of a checkpoint do as well, and after the last one its slot is current.
pub fn checkpoints_keep_standing()
    ensures { CheckpointsKeepStanding }
{}

/// An opening finds the slot that is shown, whose writer stands then; there is one; and one that stops
/// within loses nothing.
pub fn openings_find()
    ensures { OpeningsFind }
{}

/// Until a checkpoint turns to the other slot, an opening takes the current side, whatever a crash
/// leaves; once the slot of the checkpoint is whole, it takes the other.
pub fn sides_are_chosen()
    ensures { SidesAreChosen }
{}

/// A worked checkpoint: its first page, its calls, and where it ends.
pub fn worked_row()
    ensures { WorkedRow }
{}
