//! What holds of graphs, as contracts that a proof may call for.

ghost use Rattle.ir_core.specs.Laws.{GraphLaws, PlacedLaws};

use crate::Level;

/// Graphs that pushes alone made have the places of their operations as numbers.
#[inline]
pub fn laws<L: Level>()
    ensures { PlacedLaws L.operands }
{}

/// Users stand after what they use, and what the changes of a graph do to uses and to what stands before what.
#[inline]
pub fn graph_laws<L: Level>()
    ensures { GraphLaws L.operands L.with_operands }
{}
