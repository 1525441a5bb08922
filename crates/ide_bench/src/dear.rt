//! An analysis whose functions are dear, to time how hands share a table.
ghost use Rattle.std.specs.Prelude.{◌≡◌, ◌<◌, [], OnErr, OnOk};
ghost use Rattle.std.proofs.Common.{lit≤};
ghost use Rattle.ide_bench.specs.Dear.{AddsSpread, spread_end};

use ide_graph::EdgeData;
use ide_instances::{ConstFn, ConstValue};
use ide_problem::{Problem, TargetList};
use ide_wire::Fact;
use std::alloc::AllocError;
use std::sync::atomic::{AtomicU64, Ordering};

/// How many facts a fact goes to, itself among them.
const SPREAD: u16 = 10;
/// How often it is counted for each: that takes about half a microsecond.
const COUNTS: u32 = 90;

/// Over each edge alike a fact goes to itself and to those behind it, ten in all, by the identity. So a task has ten parts
/// for each edge, and each part takes half a microsecond, as where functions are composed by search or by tables.
pub(crate) struct Spread;

impl Problem for Spread {
    ghost use Rattle.ide_bench.specs.Dear.{spread_targets};
    ghost use Rattle.ide_bench.specs.DearLaws.{spread_flow};
    ghost use Rattle.ide_instances.specs.ConstValueLaws.{const_top_is_not_bottom};

    type L = ConstValue;

    type F = ConstFn;

    const TAG: u8 = 250;

    ghost TAG = { 250 };

    ghost targets = { spread_targets };

    fn flow(edge: &EdgeData, fact: Fact, out: &mut TargetList<ConstFn>) -> Result<(), AllocError> {
        add_spread(fact, end_of(edge.facts, fact), out)
    }

    ghost lawful = { spread_flow };

    ghost tag_not_zero = { lit≤ tt };

    ghost top_is_not_bottom = { const_top_is_not_bottom };
}

/// The fact behind the last that a fact goes to, where there are so many.
fn end_of(facts: u32, fact: Fact) -> Fact
    ensures { result ≡ spread_end facts fact }
{
    let end = fact.saturating_add(SPREAD);
    if u32::from(end) < facts {
        return end;
    }
    facts as u16
}

/// Adds each fact from the first to before the end, by the identity, and takes its time.
fn add_spread(first: Fact, end: Fact, targets: &mut TargetList<ConstFn>) -> Result<(), AllocError>
    ensures ok { OnOk result (AddsSpread first end targets.old.list targets.new.list) }
    ensures err { OnErr result (targets.new.list.items ≡ []) }
{
    for fact in first..end {
        take_time();
        targets.add(fact, ConstFn::Shift(0))?;
    }
    Ok(())
}

/// Counts for a while.
fn take_time() {
    let count = AtomicU64::new(0);
    for _ in 0..COUNTS {
        count.fetch_add(1, Ordering::SeqCst);
    }
}
