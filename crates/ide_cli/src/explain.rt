//! What refusals and faults mean, in a few sentences.
ghost use Rattle.std.specs.Prelude.{◌≡◌};
ghost use Rattle.ide_cli.specs.Explained.{meaning_of};

/// What each refusal means, `E1` to `E16`, and each fault, `F1` to `F10`.
const E1: &str =
    "No memory: an allocation was refused. Nothing that was answered before is lost. Give the process more memory, or a smaller text.";

const E2: &str =
    "Disk: the device under a store failed a read, a write, a cut or a sync. What was acknowledged stands. Open the store again when the device is well.";

const E3: &str =
    "Failed: an earlier call on this store ended in E2, and nothing is done until it is opened again.";

const E4: &str =
    "Not a store: the file has no valid header of a store, or its second file has none. It may be another file, or one whose creation was stopped before it was done.";

const E5: &str =
    "Wrong instance: the store was made for another analysis. Its answers mean nothing to this one.";

const E6: &str =
    "Damaged record: the record of that number is there, but is not whole or does not apply. Records are numbered from 0.";

const E7: &str =
    "The text has that fault on that line; lines count from 1. Ask for the fault's own name, as F2, for what it means.";

const E8: &str = "No program: nothing was loaded yet.";

const E9: &str = "No procedure of the program has that name.";

const E10: &str =
    "Has parameters: a root is where analysis begins, with nothing passed to it, so a procedure with parameters is none. Print a procedure without parameters that calls it.";

const E11: &str =
    "Already: the procedure is a root already. Or, of a store that is to be adopted, its second file has a checkpoint: it stands in two files already.";

const E12: &str =
    "Unfinished: some work is still pending, so no value is final. Let the work be done, and ask again.";

const E13: &str =
    "Stale: the work is not what the hand has claimed, as it stands; or parts of it are left. Claim again.";

const E14: &str = "Busy: the hand has a claim already. Finish it, or release it.";

const E15: &str =
    "Limit: the number of hands or workers is out of its bounds, 1 to 64, or a count is full.";

const E16: &str =
    "Out of range: the node, the position or the fact is not there. Positions count from 0, the start of the procedure.";

const F1: &str =
    "The text has more than 1,048,576 bytes. It is named on line 0, and the text was not read.";

const F2: &str =
    "The line is none that the grammar has, or no line feed ends it. Tokens stand with exactly one space between them; there are no blank lines and no comments.";

const F3: &str =
    "A line of that kind may not stand there: globals come first, then procedures, each with its variables before its statements. Or the text ends inside a procedure, or has none.";

const F4: &str =
    "With this line there are more than 1,000 procedures, 16 parameters of a procedure, 65,536 nodes or 4,096 facts.";

const F5: &str =
    "The name is declared already: globals share their names with the parameters and variables of each procedure, labels are a procedure's own, and procedures have names of their own.";

const F6: &str =
    "No variable of that name is declared: no global, and no parameter or variable of the procedure.";

const F7: &str = "No label of that name is declared in the procedure.";

const F8: &str = "No procedure of that name is declared.";

const F9: &str = "The call passes more or fewer arguments than the procedure has parameters.";

const F10: &str =
    "The call states more than eight callees, or one of them twice. A call of more procedures is several calls, with a branch between them.";

/// What the refusal or the fault of that name, one of [`ide_words::NAMES`], means: nothing, where the name is
/// none of them.
pub(crate) fn meaning_of(name: &str) -> &'static str
    ensures { result.now ≡ meaning_of name.now }
{
    match name {
        "E1" => E1,
        "E2" => E2,
        "E3" => E3,
        "E4" => E4,
        "E5" => E5,
        "E6" => E6,
        "E7" => E7,
        "E8" => E8,
        "E9" => E9,
        "E10" => E10,
        "E11" => E11,
        "E12" => E12,
        "E13" => E13,
        "E14" => E14,
        "E15" => E15,
        "E16" => E16,
        "F1" => F1,
        "F2" => F2,
        "F3" => F3,
        "F4" => F4,
        "F5" => F5,
        "F6" => F6,
        "F7" => F7,
        "F8" => F8,
        "F9" => F9,
        "F10" => F10,
        _ => "",
    }
}
