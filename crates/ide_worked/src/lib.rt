//! The worked programs, as the tests read them: `scripts/examples` writes this file from the texts of
//! `examples/`, and the gate looks that it is what would be written.
#![tactic(auto)]

pub const ADDS_IN_CALLEE: &str =
    "proc f p\nvar q\nq = p + 1\nbranch done\ncall f q\nat done\nend\nproc main\nvar a\na = 1\ncall f a\nend\n";

pub const BRANCH: &str =
    "proc main\nvar x\nbranch other\nx = 5\ngoto done\nat other\nx = 5\nat done\nend\n";

pub const BRANCH_OF_TWO: &str =
    "proc main\nvar x\nbranch other\nx = 5\ngoto done\nat other\nx = 6\nat done\nend\n";

pub const CALLEES: &str =
    "proc f p\nvar r\nr = 5\nreturn r\nend\nproc h p\nvar r\nr = 6\nreturn r\nend\nproc main\nvar a\nvar x\nvar y\na = 1\nx = call f | h a\ny = call f a\nend\n";

pub const COPIES: &str = "proc main\nvar x\nvar y\nx = 5\ny = x\nend\n";

pub const EMPTY: &str = "proc main\nend\n";

pub const INPUTS: &str =
    "proc twice p\nvar r\nr = mix p p\nreturn r\nend\nproc main\nvar x\nvar y\nvar z\nx = ?\ny = 5\nz = call twice x\ny = call twice y\nend\n";

pub const LOOP: &str = "proc main\nvar x\nx = 1\nat again\nx = x + 1\nbranch again\nend\n";

pub const NUMBER: &str = "proc main\nvar x\nx = 5\nend\n";

pub const PASSES_GLOBAL: &str =
    "global g\nproc rec n\nbranch done\ncall rec n\nat done\nreturn g\nend\nproc main\ncall rec g\nend\n";

pub const RECURSION: &str =
    "global g\nproc rec\nbranch done\ng = g + 1\ncall rec\nat done\nend\nproc main\ng = 0\ncall rec\nend\n";

pub const STATEMENTS: &str =
    "global g\nproc main\nvar x\nat L\nbranch L\nx = g + 3\ngoto L\nx = mix g x\nx = ?\nskip\nbranch M\nat M\nx = g\ng = x - 1\nreturn\nend\n";

pub const SUM_OR_NUMBER: &str =
    "proc f y\nvar x\nbranch other\nx = y + 1\ngoto done\nat other\nx = 7\nat done\nreturn x\nend\nproc main\nvar a\nvar b\nvar u\nvar v\na = 6\nb = 5\nu = call f a\nv = call f b\nend\n";

pub const TWO_CALLS: &str =
    "proc id p\nreturn p\nend\nproc main\nvar a\nvar b\nvar x\nvar y\na = 5\nb = 6\nx = call id a\ny = call id b\nend\n";

pub const UNINITIALISED: &str = "proc main\nvar x\nvar y\ny = x\nx = 1\nend\n";

pub const UNREACHABLE: &str = "proc main\nvar x\nx = 1\ngoto done\nx = 2\nat done\nend\n";

pub const WRAPPING_SUM: &str =
    "proc main\nvar x\nvar y\nx = 18446744073709551615\ny = x + 1\nend\n";
