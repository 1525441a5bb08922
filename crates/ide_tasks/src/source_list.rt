//! The sources of one procedure, with the places of their functions.
ghost use Rattle.std.specs.Prelude.{◌≡◌, ◌↔◌, ◌++◌, [], IfOk, IsTrue, List, OnOk, Some, filter, length, map, nat_eq, slice_get, slice_index_or, true, ◌-◌};
ghost use Rattle.std.specs.List.Sorted.{IsNonDecreasingBy};
ghost use Rattle.ide_tasks.specs.Sources.{Ascends, CallersAscend, from_caller, reaching_of, told_source};

use crate::partners::Reaching;
use crate::sources::Source;
use ide_lattice::EdgeFn;
use ide_wire::Fact;
use std::alloc::{AllocError, Global};
use std::marker::Model;

/// The sources of a procedure. Nearly all of them have one function, the identity: so each keeps the
/// place of its function in a list of these, which takes four bytes where a function may take 32.
/// Contracts see the list of the sources.
#[derive(Drop)]
pub(crate) struct SourceList<F: EdgeFn> {
    functions: Vec<F>,
    places: Vec<Source<u32>>,
}

impl<F: EdgeFn> Model for SourceList<F> {
    ghost use Rattle.std.specs.Prelude.{List, map};
    ghost use Rattle.ide_tasks.specs.Sources.{told_source};
    ghost use Rattle.ide_tasks.specs.declared.sources.Source.{Source};

    ghost Value = { List (Source F) };

    ghost view = { λ s. map (told_source F.edge.all_top s.functions.items) s.places.items };
}

impl<F: EdgeFn> SourceList<F> {
    /// These sources, in their order.
    pub fn of(alloc: Global, sources: &[Source<F>]) -> Result<SourceList<F>, AllocError>
        ensures { IfOk result (λ list. list ≡ sources.now) }
    {
        let mut functions = Vec::new(alloc);
        let mut places = Vec::with_capacity(alloc, sources.len())?;
        for source in sources {
            let function = place_of(&mut functions, source.from.function)?;
            places.push(Source {
                reached: source.reached,
                from: Reaching {
                    caller: source.from.caller,
                    fact: source.from.fact,
                    function,
                },
            })?;
        }
        Ok(SourceList { functions, places })
    }

    /// Makes the list where the sources of a fact are from, if the sources ascend by the fact reached.
    pub fn fill_reaching(
        &self,
        fact: Fact,
        reaching: &mut Vec<Reaching<F>>,
    ) -> Result<(), AllocError>
        ensures { Ascends self.now → OnOk result (reaching.new.items ≡ reaching_of fact self.now) }
    {
        let places = of_fact(self.places.as_slice(), fact);
        fill_origins(self.functions.as_slice(), places, reaching)
    }

    /// The sources of a fact from that caller, lent, if the sources ascend by the fact reached, and those
    /// of the fact by the caller.
    pub fn over(&self, fact: Fact, caller: usize) -> LentSources<'_, F>
        ensures { Ascends self.now → CallersAscend fact self.now → result ≡ from_caller caller fact self.now }
    {
        LentSources {
            functions: self.functions.as_slice(),
            places: of_caller(of_fact(self.places.as_slice(), fact), caller),
        }
    }
}

/// Sources, lent by what keeps them: each is told as it is asked for. Contracts see their list.
#[derive(Drop)]
pub struct LentSources<'a, F: EdgeFn> {
    functions: &'a [F],
    places: &'a [Source<u32>],
}

impl<'a, F: EdgeFn> Model for LentSources<'a, F> {
    ghost use Rattle.std.specs.Prelude.{List, map};
    ghost use Rattle.ide_tasks.specs.Sources.{told_source};
    ghost use Rattle.ide_tasks.specs.declared.sources.Source.{Source};

    ghost Value = { List (Source F) };

    ghost view = { λ s. map (told_source F.edge.all_top s.functions.now) s.places.now };
}

impl<'a, F: EdgeFn> LentSources<'a, F> {
    /// No sources.
    pub fn none() -> LentSources<'a, F>
        ensures { result ≡ [] }
    {
        LentSources {
            functions: &[],
            places: &[],
        }
    }

    /// How many they are.
    pub fn len(&self) -> usize
        ensures { result ≡ length self.now }
    {
        self.places.len()
    }

    /// Whether there are none.
    pub fn is_empty(&self) -> bool
        ensures { IsTrue result ↔ (self.now ≡ []) }
    {
        self.places.is_empty()
    }

    /// The source at an index. It takes constant time.
    pub fn get(&self, index: usize) -> Option<Source<F>>
        ensures { result ≡ slice_get self.now index }
    {
        let place = self.places.get(index)?;
        Some(told(self.functions, place))
    }
}

/// The source whose function stands at the place that it keeps.
fn told<F: EdgeFn>(functions: &[F], place: &Source<u32>) -> Source<F>
    ensures { result ≡ told_source F.edge.all_top functions.now place.now }
{
    Source {
        reached: place.reached,
        from: Reaching {
            caller: place.from.caller,
            fact: place.from.fact,
            function: function_at(functions, place.from.function),
        },
    }
}

/// The function at that place, or the always-top one past the last.
fn function_at<F: EdgeFn>(functions: &[F], place: u32) -> F
    ensures { result ≡ slice_index_or functions.now place F.edge.all_top }
{
    match functions.get(place as usize) {
        Some(function) => *function,
        None => F::all_top(),
    }
}

/// The place of a function: that of the last one, if it is the function, or else a new one. It is
/// refused where memory is wanting, or there are more than 2^32 functions.
fn place_of<F: EdgeFn>(functions: &mut Vec<F>, function: F) -> Result<u32, AllocError>
    ensures stay { IfOk result (λ _. (more : List F) × (functions.new.items ≡ functions.old.items ++ more)) }
    ensures there { IfOk result (λ place. slice_get functions.new.items place ≡ Some function) }
{
    if !is_last(functions, function) {
        functions.push(function)?;
    }
    match u32::try_from(functions.len() - 1) {
        Ok(place) => Ok(place),
        Err(_) => Err(AllocError),
    }
}

/// Whether it is the last of the functions.
fn is_last<F: EdgeFn>(functions: &[F], function: F) -> bool
    ensures { result ≡ true → slice_get functions.now (length functions.now - 1) ≡ Some function }
{
    match functions.last() {
        Some(last) => *last == function,
        None => false,
    }
}

/// Those of the sources that reach the fact: where they ascend by it, these stand together.
fn of_fact<C>(sources: &[Source<C>], fact: Fact) -> &[Source<C>]
    ensures { Ascends sources.now → result.now ≡ filter (λ source. nat_eq source.reached fact) sources.now }
{
    let first = sources.partition_point(|source| source.reached < fact);
    let rest = &sources[first..];
    let count = rest.partition_point(|source| source.reached <= fact);
    &rest[..count]
}

/// Those of the sources that are of the caller: where they ascend by it, these stand together.
fn of_caller<C>(sources: &[Source<C>], caller: usize) -> &[Source<C>]
    ensures { IsNonDecreasingBy (λ source. source.from.caller) sources.now → result.now ≡ filter (λ source. nat_eq source.from.caller caller) sources.now }
{
    let first = sources.partition_point(|source| (source.from.caller as usize) < caller);
    let rest = &sources[first..];
    let count = rest.partition_point(|source| source.from.caller as usize <= caller);
    &rest[..count]
}

/// Makes the list where the sources are from.
fn fill_origins<F: EdgeFn>(
    functions: &[F],
    places: &[Source<u32>],
    origins: &mut Vec<Reaching<F>>,
) -> Result<(), AllocError>
    ensures { OnOk result (origins.new.items ≡ map (λ place. (told_source F.edge.all_top functions.now place).from) places.now) }
{
    origins.clear();
    origins.reserve(places.len())?;
    for place in places {
        origins.push_reserved(told(functions, place).from);
    }
    Ok(())
}
