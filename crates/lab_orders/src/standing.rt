//! Walks that stand for all: of turns that lead to the same, only one is followed.
ghost use Rattle.std.specs.Prelude.{◌≡◌, ◌+◌, ◌<◌, ◌≤◌, ◌∷◌, ◌++◌, true, [], All, IfOk, IfSome, OnOk, nat_lt, sum_by, get_or, length};
ghost use Rattle.abstract_monitor.specs.Commands.{started};
ghost use Rattle.laws_of_runs.specs.Applied.{applied};
ghost use Rattle.lab_walks.specs.{Frames.{IsFrame, IsWay, turn_in, turns_in}, Walks.{stand}};
ghost use Rattle.lab_orders.specs.{Exploring.{AreFollowed, IsAddedIf, IsFollowedIf, IsOfAllWalks}, Finding.{CanStart}, Standing.{AreInPlace, AreNodes, CanReplace, IsFollowed, IsPut, IsReplaced, chosen}, Told.{turns_of}};

use crate::explored::{Explored, Outcome, Tried, add};
use crate::key::Key;
use crate::look::key_of;
use crate::performed::Found;
use crate::search::{Seen, see};
use abstract_monitor::Command;
use application_types::generation::Generation;
use application_types::units::Units;
use kd_base::{OutOfMemory, Sequence};
use kdcs_types::Tables;
use lab_walks::{Frame, Turns};
use std::alloc::Global;

/// Turns that are still to be followed.
struct Node {
    /// Each of them, with what else can be in its place.
    frames: Sequence<Frame>,
    /// By what they are told from others. There is none where they are followed in any case.
    key: Option<Key>,
}

impl Drop for Node {
    fn drop(self) {
        let Node { frames, key } = self;
        let _ = frames;
        let _ = key;
    }
}

// Whether it is the turn of a task: 0 is none.
fn is_of_task(frame: &Frame) -> bool
    ensures { result ≡ nat_lt 0 (turn_in frame.now) }
{
    match frame.choices.as_slice().get(frame.at) {
        Some(task) => *task > 0,
        None => false,
    }
}

impl Node {
    // How many turns of tasks there are.
    fn turns(&self) -> usize
        ensures { result ≡ turns_of (turns_in self.now.frames) }
    {
        self.frames
            .as_slice()
            .iter()
            .filter(|frame| is_of_task(frame))
            .count()
    }

    // What is to come after these turns is as good as what is to come after the others.
    fn can_replace(&self, other: &Node) -> bool
        ensures { result ≡ true → CanReplace self.now other.now }
    {
        let Some(key) = &self.key else {
            return false;
        };
        let Some(other_key) = &other.key else {
            return false;
        };
        key.is_no_worse(other_key) && self.turns() <= other.turns()
    }
}

// One of these can replace it.
fn is_replaced(nodes: &[Node], node: &Node) -> bool
    ensures { result ≡ true → IsReplaced nodes.now node.now }
{
    for other in nodes {
        if other.can_replace(node) {
            return true;
        }
    }
    false
}

// The first place of one that it can replace.
fn place_for(nodes: &[Node], node: &Node) -> Option<usize>
    ensures { IfSome result (λ at. (at < length nodes.now) × CanReplace node.now (get_or nodes.now at node.now)) }
{
    for (at, other) in nodes.iter().enumerate() {
        if node.can_replace(other) {
            return Some(at);
        }
    }
    None
}

// A node is put among others, if none of them can replace it: in the place of one that it can replace, or behind them.
fn put(nodes: &mut Vec<Node>, node: Node) -> Result<(), OutOfMemory>
    ensures { OnOk result (IsPut nodes.old.items nodes.new.items node) }
{
    if is_replaced(nodes.as_slice(), &node) {
        return Ok(());
    }
    let Some(at) = place_for(nodes.as_slice(), &node) else {
        return Ok(nodes.push(node)?);
    };
    nodes[at] = node;
    Ok(())
}

// A frame with another of its choices.
fn chosen(alloc: Global, frame: &Frame, at: usize) -> Result<Frame, OutOfMemory>
    ensures { IfOk result (λ copy. copy ≡ chosen frame.now at) }
{
    let choices = Turns::from_vec(frame.choices.as_slice().to_vec(alloc)?);
    Ok(Frame {
        choices,
        at,
        idle: frame.idle,
    })
}

// These frames, and one more with this choice.
fn deeper_by(
    alloc: Global,
    frames: &[Frame],
    last: &Frame,
    at: usize,
) -> Result<Sequence<Frame>, OutOfMemory>
    ensures { IfOk result (λ deeper. deeper ≡ frames.now ++ chosen last.now at ∷ []) }
{
    let mut deeper = Sequence::new(alloc);
    for frame in frames {
        deeper.push(chosen(alloc, frame, frame.at)?)?;
    }
    deeper.push(chosen(alloc, last, at)?)?;
    Ok(deeper)
}

// Each choice that can be next after these turns is put among the nodes.
fn put_choices(
    alloc: Global,
    mut generation: Generation,
    mut units: Units,
    tables: &Tables,
    commands: &[Command],
    frames: &[Frame],
    last: &Frame,
    nodes: &mut Vec<Node>,
) -> Result<(Generation, Units), OutOfMemory>
    requires start { CanStart (applied generation units) tables.now commands.now generation units }
    requires way { IsWay (applied generation units) commands.now (started (applied generation units) tables.now) frames.now }
    requires last { IsFrame (applied generation units) (stand (applied generation units) commands.now (started (applied generation units) tables.now) (turns_in frames.now)) last.now }
    requires nodes { AreNodes (applied generation units) tables.now commands.now nodes.old.items }
    ensures again { IfOk result (λ n. CanStart (applied generation units) tables.now commands.now n.0 n.1) }
    ensures nodes { IfOk result (λ n. AreInPlace (applied generation units) tables.now commands.now nodes.old.items nodes.new.items) }
    ensures followed { IfOk result (λ n. IsFollowed (applied generation units) commands.now (started (applied generation units) tables.now) nodes.new.items frames.now) }
{
    for at in 0..last.choices.len() {
        let deeper = deeper_by(alloc, frames, last, at)?;
        let (g, u, key) = key_of(
            alloc,
            generation,
            units,
            tables,
            commands,
            deeper.as_slice(),
        )?;
        generation = g;
        units = u;
        put(
            nodes,
            Node {
                frames: deeper,
                key,
            },
        )?;
    }
    Ok((generation, units))
}

/// A generation and its units, and a walk, if one was found.
type Followed = (Generation, Units, Option<Found>);

// These turns are followed: they are a walk, or what can be next is put among the nodes.
fn follow(
    alloc: Global,
    generation: Generation,
    units: Units,
    tables: &Tables,
    commands: &[Command],
    frames: &[Frame],
    nodes: &mut Vec<Node>,
) -> Result<Followed, OutOfMemory>
    requires start { CanStart (applied generation units) tables.now commands.now generation units }
    requires way { IsWay (applied generation units) commands.now (started (applied generation units) tables.now) frames.now }
    requires nodes { AreNodes (applied generation units) tables.now commands.now nodes.old.items }
    ensures again { IfOk result (λ n. CanStart (applied generation units) tables.now commands.now n.0 n.1) }
    ensures nodes { IfOk result (λ n. AreInPlace (applied generation units) tables.now commands.now nodes.old.items nodes.new.items) }
    ensures followed { IfOk result (λ n. IsFollowedIf (applied generation units) tables.now commands.now nodes.new.items frames.now n.2) }
{
    let (generation, units, seen) = see(alloc, generation, units, tables, commands, frames)?;
    match seen {
        Seen::Ended(found) => Ok((generation, units, Some(found))),
        Seen::Open(last) => {
            let (generation, units) = put_choices(
                alloc, generation, units, tables, commands, frames, &last, nodes,
            )?;
            Ok((generation, units, None))
        }
    }
}

// What was found is added. False where it is one too many.
fn add_if(
    outcomes: &mut Vec<Outcome>,
    orders: &mut u64,
    most: u64,
    found: Option<Found>,
) -> Result<bool, OutOfMemory>
    requires orders { sum_by (λ o. o.orders) outcomes.old.items ≡ orders.old }
    requires serial { All (λ o. o.serial ≤ orders.old) outcomes.old.items }
    ensures { IfOk result (λ added. added ≡ true → IsAddedIf most outcomes.old.items outcomes.new.items orders.old orders.new found) }
{
    let Some(found) = found else {
        return Ok(true);
    };
    if *orders >= most {
        return Ok(false);
    }
    add(outcomes, found)?;
    *orders += 1;
    Ok(true)
}

/// A generation and its units, and the nodes of the next layer, if they are few enough.
type Layer = (Generation, Units, Option<Vec<Node>>);

// The nodes of a layer are followed by one turn. There are none where these are more than so many, or so many walks are found.
fn next_layer(
    alloc: Global,
    mut generation: Generation,
    mut units: Units,
    tables: &Tables,
    commands: &[Command],
    layer: &[Node],
    most: u64,
    outcomes: &mut Vec<Outcome>,
    orders: &mut u64,
) -> Result<Layer, OutOfMemory>
    requires start { CanStart (applied generation units) tables.now commands.now generation units }
    requires followed { AreFollowed (applied generation units) tables.now commands.now most orders.old outcomes.old.items layer.now }
    ensures again { IfOk result (λ n. CanStart (applied generation units) tables.now commands.now n.0 n.1) }
    ensures followed { IfOk result (λ n. IfSome n.2 (λ next. AreFollowed (applied generation units) tables.now commands.now most orders.new outcomes.new.items next.items)) }
{
    let mut next = Vec::new(alloc);
    for node in layer {
        let (g, u, found) = follow(
            alloc,
            generation,
            units,
            tables,
            commands,
            node.frames.as_slice(),
            &mut next,
        )?;
        generation = g;
        units = u;
        if !add_if(outcomes, orders, most, found)? {
            return Ok((generation, units, None));
        }
        if next.len() as u64 > most {
            return Ok((generation, units, None));
        }
    }
    Ok((generation, units, Some(next)))
}

/// Walks that stand for all, if neither they nor the nodes of a layer are more than so many. A layer has turns of one length,
/// and of those that lead to the same only one is followed.
pub(crate) fn standing_orders(
    alloc: Global,
    mut generation: Generation,
    mut units: Units,
    tables: &Tables,
    commands: &[Command],
    most: u64,
) -> Result<Tried, OutOfMemory>
    requires { CanStart (applied generation units) tables.now commands.now generation units }
    ensures again { IfOk result (λ n. CanStart (applied generation units) tables.now commands.now n.0 n.1) }
    ensures standing { IfOk result (λ n. IfSome n.2 (IsOfAllWalks (applied generation units) tables.now commands.now most)) }
{
    let mut outcomes = Vec::new(alloc);
    let mut orders: u64 = 0;
    let mut layer = Vec::new(alloc);
    layer.push(Node {
        frames: Sequence::new(alloc),
        key: None,
    })?;
    for _turn in 0..u64::MAX {
        if layer.is_empty() {
            return Ok((
                generation,
                units,
                Some(Explored::all(outcomes, orders, false)),
            ));
        }
        let (g, u, next) = next_layer(
            alloc,
            generation,
            units,
            tables,
            commands,
            layer.as_slice(),
            most,
            &mut outcomes,
            &mut orders,
        )?;
        generation = g;
        units = u;
        let Some(next) = next else {
            return Ok((generation, units, None));
        };
        layer = next;
    }
    Ok((generation, units, None))
}
