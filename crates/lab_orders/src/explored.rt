//! The orders of a script, and the distinct outcomes.
ghost use Rattle.std.specs.Prelude.{◌≡◌, ◌↔◌, ◌+◌, ◌<◌, ◌≤◌, ◌^◌, true, false, cond, All, IsTrue, IfOk, MatchOption, OnOk, sum_by};
ghost use Rattle.abstract_monitor.specs.Commands.{started};
ghost use Rattle.laws_of_runs.specs.Applied.{applied};
ghost use Rattle.lab_orders.specs.{Exploring.{AllOrMore, AreAll, AreDistinct, AreOrdered, AreOutcomes, IsAdded, IsDrawn, IsFirst, IsThatOf, IsThere, AreToldSerial, IsTried, is_shorter}, Finding.{CanStart}, Told.{AreMore, outcome_result, turns_of}};

use crate::draw::drawn_order;
use crate::laws_of_orders::{orders_are_walked, walks_are_orders};
use crate::performed::Found;
use crate::search::descend;
use crate::standing::standing_orders;
use abstract_monitor::Command;
use application_types::generation::Generation;
use application_types::units::Units;
use kd_base::{Bytes, OutOfMemory, Sequence};
use kdcs_types::Tables;
use lab_walks::{Signs, Turns, advance};
use laws_of_runs::laws_of_applications::fitted_units_make_an_application;
use rand_core::SeedableRng;
use rand_xoshiro::SplitMix64;
use std::alloc::Global;

/// What comes out of some orders: for each name the lines that are sent, the tables at the end, and the signs.
pub struct Outcome {
    /// The lines by their names, those of one name in their order. A name is the second word of a line: a terminal, or the
    /// owner of a dump.
    pub lines: Sequence<Bytes>,
    /// The lines of the tables at the end, as `show` prints them.
    pub tables: Bytes,
    /// What is worth a look in each of these orders.
    pub signs: Signs,
    /// How many of the orders that were tried come to it.
    pub orders: u64,
    /// How many of these have each transaction in one go.
    pub serial: u64,
    /// The shortest of these orders.
    pub turns: Turns,
    /// All that it sends: lines, each with its end.
    pub sent: Bytes,
}

impl Drop for Outcome {
    fn drop(self) {
        let Outcome {
            lines,
            tables,
            signs,
            orders,
            serial,
            turns,
            sent,
        } = self;
        let _ = lines;
        let _ = tables;
        let _ = signs;
        let _ = orders;
        let _ = serial;
        let _ = turns;
        let _ = sent;
    }
}

/// The distinct outcomes of a script's orders.
pub struct Explored {
    pub outcomes: Sequence<Outcome>,
    /// How many orders were tried.
    pub orders: u64,
    /// Each order comes to one of the outcomes.
    pub all: bool,
    /// All orders were tried, each once.
    pub each: bool,
}

impl Drop for Explored {
    fn drop(self) {
        let Explored {
            outcomes,
            orders,
            all,
            each,
        } = self;
        let _ = outcomes;
        let _ = orders;
        let _ = all;
        let _ = each;
    }
}

impl Explored {
    /// The outcomes of all orders, of which each was tried, or some that stand for all.
    pub(crate) fn all(outcomes: Vec<Outcome>, orders: u64, each: bool) -> Explored
        ensures outcomes { result.outcomes ≡ outcomes.items }
        ensures orders { result.orders ≡ orders }
        ensures all { result.all ≡ true }
        ensures each { result.each ≡ each }
    {
        Explored {
            outcomes: Sequence::from_vec(outcomes),
            orders,
            all: true,
            each,
        }
    }
}

// How many turns of tasks an order has.
fn turns_of(turns: &[u16]) -> usize
    ensures { result ≡ turns_of turns.now }
{
    turns.iter().filter(|task| **task > 0).count()
}

fn one_if(it: bool) -> u64
    ensures { result ≡ cond it 1 0 }
{
    if it { 1 } else { 0 }
}

impl Outcome {
    fn from_found(found: Found) -> Outcome
        ensures { IsFirst result found }
    {
        Outcome {
            lines: found.lines,
            tables: found.tables,
            signs: found.signs,
            orders: 1,
            serial: one_if(found.serial),
            turns: found.turns,
            sent: found.sent,
        }
    }

    fn is_that_of(&self, found: &Found) -> bool
        ensures { IsTrue result ↔ IsThatOf self.now found.now }
    {
        self.signs == found.signs
            && self.tables.as_slice() == found.tables.as_slice()
            && self.lines.as_slice() == found.lines.as_slice()
    }

    // One order more comes to it.
    fn count(&mut self, found: Found)
        requires orders { self.old.orders + 1 < 2 ^ 64 }
        requires serial { self.old.serial + 1 < 2 ^ 64 }
        ensures result { outcome_result self.new ≡ outcome_result self.old }
        ensures turns { self.new.turns ≡ cond (is_shorter found self.old) found.turns self.old.turns }
        ensures sent { self.new.sent ≡ cond (is_shorter found self.old) found.sent self.old.sent }
        ensures orders { self.new.orders ≡ self.old.orders + 1 }
        ensures serial { self.new.serial ≡ self.old.serial + cond found.serial 1 0 }
    {
        self.orders += 1;
        self.serial += one_if(found.serial);
        if turns_of(found.turns.as_slice()) < turns_of(self.turns.as_slice()) {
            self.turns = found.turns;
            self.sent = found.sent;
        }
    }
}

// The first place of the same outcome.
fn place_of(outcomes: &[Outcome], found: &Found) -> Option<usize>
    ensures { MatchOption result (All (λ o. IsThatOf o found.now → ⊥) outcomes.now) (λ at. IsThere outcomes.now found.now at) }
{
    for (at, outcome) in outcomes.iter().enumerate() {
        if outcome.is_that_of(found) {
            return Some(at);
        }
    }
    None
}

/// What comes out of an order is among the outcomes.
pub(crate) fn add(outcomes: &mut Vec<Outcome>, found: Found) -> Result<(), OutOfMemory>
    requires orders { sum_by (λ o. o.orders) outcomes.old.items + 1 < 2 ^ 64 }
    requires serial { All (λ o. o.serial + 1 < 2 ^ 64) outcomes.old.items }
    ensures { OnOk result (IsAdded outcomes.old.items outcomes.new.items found) }
{
    let Some(at) = place_of(outcomes.as_slice(), &found) else {
        return Ok(outcomes.push(Outcome::from_found(found))?);
    };
    outcomes[at].count(found);
    Ok(())
}

/// A generation and its units, and all outcomes, if they are known.
pub(crate) type Tried = (Generation, Units, Option<Explored>);

// All orders, one after another, if they are at most so many. Otherwise one more is found.
fn all_orders(
    alloc: Global,
    mut generation: Generation,
    mut units: Units,
    tables: &Tables,
    commands: &[Command],
    most: u64,
) -> Result<Tried, OutOfMemory>
    requires { CanStart (applied generation units) tables.now commands.now generation units }
    ensures again { IfOk result (λ n. CanStart (applied generation units) tables.now commands.now n.0 n.1) }
    ensures whole { IfOk result (λ n. AllOrMore (applied generation units) tables.now commands.now most n.2) }
{
    let mut outcomes = Vec::new(alloc);
    let mut frames = Vec::new(alloc);
    for tried in 0..most {
        let (g, u, found) = descend(alloc, generation, units, tables, commands, &mut frames)?;
        generation = g;
        units = u;
        add(&mut outcomes, found)?;
        if !advance(&mut frames)? {
            return Ok((
                generation,
                units,
                Some(Explored::all(outcomes, tried + 1, true)),
            ));
        }
    }
    let (generation, units, _more) = descend(
        alloc,
        generation,
        units,
        tables,
        commands,
        &mut frames,
    )?;
    Ok((generation, units, None))
}

// All orders, or some that stand for all.
fn whole_orders(
    alloc: Global,
    generation: Generation,
    units: Units,
    tables: &Tables,
    commands: &[Command],
    most: u64,
) -> Result<Tried, OutOfMemory>
    requires { CanStart (applied generation units) tables.now commands.now generation units }
    ensures again { IfOk result (λ n. CanStart (applied generation units) tables.now commands.now n.0 n.1) }
    ensures whole { IfOk result (λ n. AllOrMore (applied generation units) tables.now commands.now most n.2) }
{
    let (generation, units, whole) = all_orders(alloc, generation, units, tables, commands, most)?;
    if let Some(explored) = whole {
        return Ok((generation, units, Some(explored)));
    }
    standing_orders(alloc, generation, units, tables, commands, most)
}

// So many orders that are drawn.
fn drawn_orders(
    alloc: Global,
    mut generation: Generation,
    mut units: Units,
    tables: &Tables,
    commands: &[Command],
    most: u64,
    number: u64,
) -> Result<(Generation, Units, Explored), OutOfMemory>
    requires { CanStart (applied generation units) tables.now commands.now generation units }
    ensures again { IfOk result (λ n. CanStart (applied generation units) tables.now commands.now n.0 n.1) }
    ensures drawn { IfOk result (λ n. IsDrawn (applied generation units) tables.now commands.now most n.2) }
{
    let mut numbers = SplitMix64::seed_from_u64(number);
    let mut outcomes = Vec::new(alloc);
    for _drawn in 0..most {
        let (g, u, found) = drawn_order(alloc, generation, units, tables, commands, &mut numbers)?;
        generation = g;
        units = u;
        add(&mut outcomes, found)?;
    }
    let explored = Explored {
        outcomes: Sequence::from_vec(outcomes),
        orders: most,
        all: false,
        each: false,
    };
    Ok((generation, units, explored))
}

/// Tries orders of a script, from these tables, and keeps their distinct outcomes: all orders, where these are at most so
/// many, else some that stand for all, where no more than so many are followed at once, else so many that are drawn, each
/// turn of a RUN by pseudo-random numbers that follow from this one. The generation and the units come back beside them.
pub fn explore(
    alloc: Global,
    generation: Generation,
    units: Units,
    tables: &Tables,
    commands: &[Command],
    most: u64,
    number: u64,
) -> Result<(Generation, Units, Explored), OutOfMemory>
    requires { CanStart (applied generation units) tables.now commands.now generation units }
    ensures again { IfOk result (λ r. CanStart (applied generation units) tables.now commands.now r.0 r.1) }
    ensures outcomes { IfOk result (λ r. AreOutcomes (applied generation units) tables.now commands.now r.2.outcomes) }
    ensures orders { IfOk result (λ r. AreOrdered (applied generation units) tables.now commands.now r.2.outcomes) }
    ensures all { IfOk result (λ r. r.2.all ≡ true → AreAll (applied generation units) tables.now commands.now r.2.outcomes) }
    ensures tried { IfOk result (λ r. IsTried (applied generation units) tables.now commands.now r.2) }
    ensures each { IfOk result (λ r. r.2.each ≡ true → r.2.all ≡ true) }
    ensures more { IfOk result (λ r. r.2.each ≡ false → AreMore (applied generation units) commands.now (started (applied generation units) tables.now) most) }
    ensures serial { IfOk result (λ r. r.2.all ≡ true → AreToldSerial (applied generation units) tables.now commands.now r.2.outcomes) }
    ensures distinct { IfOk result (λ r. AreDistinct r.2.outcomes) }
    ensures counted { IfOk result (λ r. sum_by (λ o. o.orders) r.2.outcomes ≡ r.2.orders) }
    ensures most { IfOk result (λ r. r.2.orders ≤ most) }
    ensures drawn { IfOk result (λ r. r.2.all ≡ false → r.2.orders ≡ most) }
{
    orders_are_walked();
    walks_are_orders();
    fitted_units_make_an_application(&generation, &units);
    let _clock = tables.clock(); // for the proof
    let (generation, units, whole) = whole_orders(
        alloc, generation, units, tables, commands, most,
    )?;
    match whole {
        Some(explored) => Ok((generation, units, explored)),
        None => drawn_orders(alloc, generation, units, tables, commands, most, number),
    }
}
