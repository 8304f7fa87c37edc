//! A program to its circuit without parameters.

ghost use Rattle.std.specs.Prelude.{◌≡◌, ◌≤◌, ◌^◌, length, IfOk, None, Ok};
ghost use Rattle.refusals.specs.Reading.{Gives};
ghost use Rattle.ap_level.specs.Patterns.{patterns_of};
ghost use Rattle.ap_level.specs.Rules.{IsApProgram};
ghost use Rattle.tfhe_level.specs.Rules.{IsShape};
ghost use Rattle.fhe_text.specs.Spellable.{IsSpellable};
ghost use Rattle.fhe_level.specs.Limits.{limit_fault};
ghost use Rattle.fhe_level.specs.Checked.{IsChecked};
ghost use Rattle.pattern_pass.specs.Formed.{formed};
ghost use Rattle.place_pass.specs.Placing.{placed_nodes};
ghost use Rattle.compile_pipe.specs.Shapes.{shape_of};
ghost use Rattle.compile_pipe.specs.Front.{program_in, patterns_in, front_of, text_in, check_counts, typed_in};
ghost use Rattle.compile_pipe.specs.Laws.{CanClear};

use crate::fault::{FrontFault, FrontRefusal};
use crate::laws::laws;
use crate::parts::Front;
use ap_level::ApProgram;
use fhe_level::{Program, check_limits, check_types};
use fhe_text::{Source, read_program};
use pattern_pass::form;
use place_pass::place;
use refusals::Refusal;
use std::alloc::{AllocError, Global};
use tfhe_level::Shape;

/// The source that a text spells.
fn text_in(alloc: Global, bytes: &[u8]) -> Result<Source, FrontRefusal>
    requires { length bytes.now ≤ 2 ^ 20 }
    ensures exact { Gives (λ source. source) result (text_in bytes.now) }
    ensures rules { IfOk result IsSpellable }
{
    match read_program(alloc, bytes) {
        Ok(source) => Ok(source),
        Err(Refusal::Fault(fault)) => Err(Refusal::Fault(FrontFault::Text(fault))),
        Err(Refusal::Memory) => Err(Refusal::Memory),
    }
}

/// Refuses a source with a count above its limit.
fn check_counts(source: &Source) -> Result<(), FrontRefusal>
    ensures exact { Gives (λ x. x) result (check_counts source.now) }
    ensures within { IfOk result (λ x. limit_fault source.now ≡ None) }
{
    match check_limits(source) {
        Some(fault) => Err(Refusal::Fault(FrontFault::Limit(fault))),
        None => Ok(()),
    }
}

/// The program of a source.
fn typed_in(alloc: Global, source: &Source) -> Result<Program, FrontRefusal>
    requires rules { IsSpellable source.now }
    requires within { limit_fault source.now ≡ None }
    ensures exact { Gives (λ program. program) result (typed_in source.now) }
    ensures checked { IfOk result IsChecked }
{
    fhe_level::laws::checked();
    match check_types(alloc, source) {
        Ok(program) => Ok(program),
        Err(Refusal::Fault(fault)) => Err(Refusal::Fault(FrontFault::Typing(fault))),
        Err(Refusal::Memory) => Err(Refusal::Memory),
    }
}

/// The program that a text spells.
#[tactic(auto, unfolding(crate::specs::Front::program_in))]
fn program_in(alloc: Global, bytes: &[u8]) -> Result<Program, FrontRefusal>
    requires { length bytes.now ≤ 2 ^ 20 }
    ensures exact { Gives (λ program. program) result (program_in bytes.now) }
    ensures checked { IfOk result IsChecked }
{
    let source = text_in(alloc, bytes)?;
    check_counts(&source)?;
    typed_in(alloc, &source)
}

/// The patterns of a program.
fn patterns_in(alloc: Global, program: &Program) -> Result<ApProgram, FrontRefusal>
    requires { IsChecked program.now }
    ensures exact { Gives patterns_of result (patterns_in program.now) }
    ensures rules { IfOk result IsApProgram }
{
    match form(alloc, program) {
        Ok(patterns) => Ok(patterns),
        Err(Refusal::Fault(fault)) => Err(Refusal::Fault(FrontFault::from(fault))),
        Err(Refusal::Memory) => Err(Refusal::Memory),
    }
}

/// The circuit of patterns.
fn shape_in(alloc: Global, patterns: &ApProgram) -> Result<Shape, AllocError>
    requires { IsApProgram patterns.now }
    ensures exact { IfOk result (λ shape. shape ≡ shape_of (placed_nodes (patterns_of patterns.now))) }
    ensures rules { IfOk result IsShape }
{
    let shape = place(alloc, patterns)?;
    Ok(shape)
}

/// The program that a text spells, and its circuit.
#[tactic(auto, unfolding(crate::specs::Front::front_of))]
fn whole(alloc: Global, bytes: &[u8]) -> Result<Front, FrontRefusal>
    requires { length bytes.now ≤ 2 ^ 20 }
    ensures exact { Gives (λ front. front) result (front_of bytes.now) }
    ensures checked { IfOk result (λ front. IsChecked front.program) }
    ensures rules { IfOk result (λ front. IsShape front.shape) }
{
    let program = program_in(alloc, bytes)?;
    let patterns = patterns_in(alloc, &program)?;
    let shape = shape_in(alloc, &patterns)?;
    Ok(Front { program, shape })
}

/// The program that a text of at most 2^20 bytes spells, and its circuit without parameters: forms and look-ups of all
/// statements, those that a result hangs on, and the nodes of the circuit.
///
/// The first fault is the answer: that of the text, then a count above its limit, then the first rule of types that is
/// broken, then for each statement in order a number of its form above 2^40, more than 2^20 weights so far, and values that
/// do not lie in its type.
pub fn front(alloc: Global, program: &[u8]) -> Result<Front, FrontRefusal>
    requires { length program.now ≤ 2 ^ 20 }
    ensures exact { Gives (λ front. front) result (front_of program.now) }
    // The program can be computed, and the circuit keeps the rules of circuits.
    ensures checked { IfOk result (λ front. IsChecked front.program) }
    ensures rules { IfOk result (λ front. IsShape front.shape) }
    ensures clear { IfOk result (λ front. CanClear front.program) }
{
    laws();
    let front = whole(alloc, program)?;
    Ok(front)
}
