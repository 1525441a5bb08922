//! Rows that several threads fill, each those of its own range.
ghost use Rattle.std.specs.Prelude.{◌≡◌, ◌≤◌};
ghost use Rattle.std.specs.Thread.{IsSend, IsSync};
ghost use Rattle.ide_values.specs.Share.{AreFull, AreToFill, RangesAscend, Sharing};

use std::thread::{Threads, join_mut};

/// Rows that workers fill, each worker those of its range.
pub(crate) trait Ranges<T> {
    ghost sharing: { Self → Sharing T };

    /// The place at which the rows of a worker begin, and those of the one before it end.
    fn start(&self, worker: usize) -> usize
        requires { worker ≤ (sharing self.now).workers }
        ensures place { result ≡ (sharing self.now).start worker }
        ensures ascends { RangesAscend (sharing self.now) };

    /// Fills the rows of a worker.
    fn fill(&self, worker: usize, rows: &mut [T])
        requires { AreToFill (sharing self.now) worker 1 rows.old }
        ensures { AreFull (sharing self.now) worker 1 rows.new };
}

/// Fills the rows of so many workers from the first on, each in a thread of its own where one can
/// be made, else in the one that would have started it.
#[cycle(halves)]
pub(crate) fn fill_shared<R: Threads + Sync, T: Send, W: Ranges<T> + Sync>(
    rt: &R,
    ranges: &W,
    first: usize,
    count: usize,
    rows: &mut [T],
)
    requires { AreToFill (W.sharing ranges.now) first count rows.old }
    ensures { AreFull (W.sharing ranges.now) first count rows.new }
{
    if count == 1 {
        ranges.fill(first, rows);
        return;
    }
    let low_count = count / 2;
    let middle = first + low_count;
    let place = ranges.start(middle) - ranges.start(first);
    let (low, high) = rows.split_at_mut(place);
    fill_both(
        rt,
        ranges,
        first,
        low_count,
        low,
        middle,
        count - low_count,
        high,
    );
}

/// Fills the rows of some workers and those of others at the same time.
#[cycle(halves)]
fn fill_both<R: Threads + Sync, T: Send, W: Ranges<T> + Sync>(
    rt: &R,
    ranges: &W,
    first: usize,
    count: usize,
    low: &mut [T],
    middle: usize,
    rest: usize,
    high: &mut [T],
)
    requires low { AreToFill (W.sharing ranges.now) first count low.old }
    requires high { AreToFill (W.sharing ranges.now) middle rest high.old }
    ensures low { AreFull (W.sharing ranges.now) first count low.new }
    ensures high { AreFull (W.sharing ranges.now) middle rest high.new }
{
    let mut front = ||
        requires threads { IsSync R.row × IsSync W.row × IsSend T.row }
        requires rows { AreToFill (W.sharing ranges.now) first count low.now }
        ensures { AreFull (W.sharing ranges.entry.now) first count low.exit.now }
    { fill_shared(rt, ranges, first, count, low) };
    let mut back = ||
        requires threads { IsSync R.row × IsSync W.row × IsSend T.row }
        requires rows { AreToFill (W.sharing ranges.now) middle rest high.now }
        ensures { AreFull (W.sharing ranges.entry.now) middle rest high.exit.now }
    { fill_shared(rt, ranges, middle, rest, high) };
    join_mut(rt, &mut front, &mut back);
}
