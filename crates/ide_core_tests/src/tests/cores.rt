//! Cores that have a worked program loaded. A test ends where a call is refused that is not to be.
use ide_problem::Problem;
use ide_steps::Core;
use ide_text::{Program, parse};
use ide_wire::Refused;
use std::alloc::AllocGlobal;
use std::process::Abort;

/// What a call gave that is not to be refused.
pub(crate) fn given<T>(rt: &impl Abort, found: Result<T, Refused>) -> T {
    found.expect(rt, "this is not to be refused")
}

/// The program of a text.
fn program_of(rt: &(impl Abort + AllocGlobal), text: &str) -> Program {
    given(rt, parse(rt.alloc(), text.as_bytes()))
}

/// Loads a text.
pub(crate) fn load<P: Problem>(rt: &(impl Abort + AllocGlobal), core: &mut Core<P>, text: &str) {
    let program = program_of(rt, text);
    given(rt, core.load(program));
}

/// Makes `main` a root.
pub(crate) fn root_main<P: Problem>(rt: &impl Abort, core: &mut Core<P>) {
    given(rt, core.root(b"main"));
}

/// Loads a text, with `main` as its root.
pub(crate) fn begin<P: Problem>(rt: &(impl Abort + AllocGlobal), core: &mut Core<P>, text: &str) {
    load(rt, core, text);
    root_main(rt, core);
}
