//! The room that a circuit is run in.

ghost use Rattle.std.specs.Prelude.{◌≡◌, ◌+◌, ◌*◌, ◌^◌, ◌<◌, ◌≤◌, length, map, take, replicate, All, Some, IfOk};
ghost use Rattle.key_switch.specs.Switching.{switched};
ghost use Rattle.lut_encode.specs.TestPolynomial.{test_polynomial};
ghost use Rattle.fhe_params.specs.Params.{IsParams, big_dimension};
ghost use Rattle.ir_core.specs.Placed.{IsPlaced};
ghost use Rattle.tfhe_level.specs.Operations.{is_switch};
ghost use Rattle.tfhe_level.specs.Nodes.{nodes_of};
ghost use Rattle.circuit_run.specs.Running.{row_at, lin_row, looked_up_by};
ghost use Rattle.circuit_run.specs.Rooms.{big_length, small_length, IsRoomOf, zero_room};
ghost use Rattle.circuit_run.specs.Steps.{with_big, with_small};

use crate::node::{copy_at, copy_into, lin_at};
use blind_rotate::{BootKey, Room, bootstrap_into};
use fhe_params::{Params, dimension};
use key_switch::{SwitchKey, switch_into};
use lut_encode::test_poly_into;
use lwe_core::{Big, Lwe, Small};
use negacyclic::Poly;
use std::alloc::{AllocError, Global};
use std::marker::Model;
use tfhe_level::{Circuit, TfheOp};

/// The room that a circuit is run in: the ciphertexts of all operations, a test polynomial, and the room of bootstraps.
/// A clause sees the words of the ciphertexts, and the shape of those of bootstraps.
#[derive(Debug, Drop)]
pub struct RunRoom {
    big: Vec<Lwe<Big>>,
    small: Vec<Lwe<Small>>,
    test: Poly,
    boot: Room,
}

impl Model for RunRoom {
    ghost use Rattle.std.specs.Prelude.{◌≡◌, ◌^◌, length};
    ghost use Rattle.circuit_run.specs.Rooms.{RoomWords, room_words};

    ghost Value = { RoomWords };

    ghost view = { λ r. room_words r.big.items r.small.items r.boot };

    ghost invariant = { λ r. length r.test ≡ 2 ^ r.boot.log_n };
}

/// Whether an operation is a key switch.
fn is_switch(op: &TfheOp) -> bool
    ensures { result ≡ is_switch op.now }
{
    matches!(op, TfheOp::Switch { .. })
}

/// The room for the ciphertext of an operation under the big key: a body alone for a key switch.
fn big_room(alloc: Global, params: &Params, op: &TfheOp) -> Result<Lwe<Big>, AllocError>
    requires { IsParams params.now }
    ensures { IfOk result (λ c. c ≡ replicate (big_length params.now op.now) 0) }
{
    let dim = if is_switch(op) {
        0
    } else {
        dimension(params) as usize
    };
    Lwe::new(alloc, dim)
}

/// The room for its ciphertext under the small key: a body alone for each other operation.
fn small_room(alloc: Global, params: &Params, op: &TfheOp) -> Result<Lwe<Small>, AllocError>
    requires { IsParams params.now }
    ensures { IfOk result (λ c. c ≡ replicate (small_length params.now op.now) 0) }
{
    let dim = if is_switch(op) {
        params.lwe.n as usize
    } else {
        0
    };
    Lwe::new(alloc, dim)
}

/// The room for the ciphertexts of all operations under the big key.
fn big_rooms(alloc: Global, circuit: &Circuit) -> Result<Vec<Lwe<Big>>, AllocError>
    requires placed { IsPlaced circuit.now.shape.graph }
    requires params { IsParams circuit.now.params }
    ensures { IfOk result (λ rows. rows.items
        ≡ map (λ op. replicate (big_length circuit.now.params op) 0) (nodes_of circuit.now.shape)) }
{
    let mut rows = Vec::new(alloc);
    for number in 0..circuit.shape.node_count() {
        let row = big_room(alloc, &circuit.params, circuit.shape.node(number))?;
        rows.push(row)?;
    }
    Ok(rows)
}

/// The room for those under the small key.
fn small_rooms(alloc: Global, circuit: &Circuit) -> Result<Vec<Lwe<Small>>, AllocError>
    requires placed { IsPlaced circuit.now.shape.graph }
    requires params { IsParams circuit.now.params }
    ensures { IfOk result (λ rows. rows.items
        ≡ map (λ op. replicate (small_length circuit.now.params op) 0) (nodes_of circuit.now.shape)) }
{
    let mut rows = Vec::new(alloc);
    for number in 0..circuit.shape.node_count() {
        let row = small_room(alloc, &circuit.params, circuit.shape.node(number))?;
        rows.push(row)?;
    }
    Ok(rows)
}

/// Sets a test polynomial to that of a table, of as many coefficients.
fn test_into(test: &mut Poly, entries: &[i64], width: u32)
    requires some_bits { 1 ≤ width }
    requires within { 2 ^ width < length test.old }
    requires some { 1 ≤ length entries.now }
    requires few { length entries.now ≤ 2 ^ width }
    ensures words { test.new ≡ test_polynomial entries.now (length test.old) width }
    ensures length { length test.new ≡ length test.old }
{
    test_poly_into(test, entries, width);
}

/// Sets `out` to the bootstrap of a ciphertext with the test polynomial of a table.
fn boot_into(
    out: &mut Lwe<Big>,
    test: &mut Poly,
    room: &mut Room,
    key: &BootKey,
    width: u32,
    entries: &[i64],
    c: &Lwe<Small>,
)
    requires key { key.now.shape ≡ room.old }
    requires test { length test.old ≡ 2 ^ key.now.shape.log_n }
    requires some_bits { 1 ≤ width }
    requires within { 2 ^ width < 2 ^ key.now.shape.log_n }
    requires some { 1 ≤ length entries.now }
    requires few { length entries.now ≤ 2 ^ width }
    requires small { length c.now ≡ length key.now.ggsws + 1 }
    requires big { length out.old ≡ key.now.shape.k * 2 ^ key.now.shape.log_n + 1 }
    ensures words { out.new ≡ looked_up_by (Some key.now) width entries.now c.now }
    ensures length { length out.new ≡ length out.old }
    ensures test_stays { length test.new ≡ length test.old }
    ensures room_stays { room.new ≡ room.old }
{
    test_into(test, entries, width);
    bootstrap_into(out, room, key, test, c);
}

impl RunRoom {
    /// The room for a circuit, all words 0. It fails only for memory.
    pub fn new(alloc: Global, circuit: &Circuit) -> Result<RunRoom, AllocError>
        requires placed { IsPlaced circuit.now.shape.graph }
        requires params { IsParams circuit.now.params }
        ensures words { IfOk result (λ room. room ≡ zero_room circuit.now) }
        ensures room { IfOk result (IsRoomOf circuit.now) }
    {
        let glwe = &circuit.params.glwe;
        let big = big_rooms(alloc, circuit)?;
        let small = small_rooms(alloc, circuit)?;
        let test = Poly::new(alloc, glwe.log_n)?;
        let boot = Room::new(alloc, glwe.k, glwe.log_n)?;
        Ok(RunRoom {
            big,
            small,
            test,
            boot,
        })
    }

    /// The ciphertext of an input, a weighted sum, a bootstrap or an out, by its number, as `evaluate` left it.
    #[inline]
    pub fn big(&self, node: u32) -> &Lwe<Big>
        requires { node < length self.now.big }
        ensures { result.now ≡ row_at self.now.big node }
    {
        &self.big[node as usize]
    }

    /// The ciphertext of a key switch, by its number, as `evaluate` left it.
    #[inline]
    pub fn small(&self, node: u32) -> &Lwe<Small>
        requires { node < length self.now.small }
        ensures { result.now ≡ row_at self.now.small node }
    {
        &self.small[node as usize]
    }

    /// Copies an input.
    pub(crate) fn set_input(&mut self, node: u32, input: &Lwe<Big>)
        requires there { node < length self.old.big }
        requires fits { length input.now ≡ length (row_at self.old.big node) }
        ensures room { self.new ≡ with_big self.old node input.now }
        ensures lengths { map length self.new.big ≡ map length self.old.big }
    {
        copy_into(&mut self.big[node as usize], input);
    }

    /// Copies the ciphertext of an earlier operation.
    pub(crate) fn set_out(&mut self, node: u32, source: u32)
        requires there { node < length self.old.big }
        requires earlier { source < node }
        requires fits { length (row_at self.old.big source) ≡ length (row_at self.old.big node) }
        ensures room { self.new ≡ with_big self.old node (row_at self.old.big source) }
        ensures lengths { map length self.new.big ≡ map length self.old.big }
    {
        copy_at(self.big.as_mut_slice(), node as usize, source as usize);
    }

    /// Computes a weighted sum of earlier operations.
    pub(crate) fn set_lin(
        &mut self,
        node: u32,
        dim: usize,
        width: u32,
        constant: i64,
        terms: &[(u32, i64)],
    )
        requires there { node < length self.old.big }
        requires width { width ≤ 16 }
        requires dim { length (row_at self.old.big node) ≡ dim + 1 }
        requires earlier { All (λ t. t.0 < node) terms.now }
        requires fit { All (λ t. length (row_at self.old.big t.0) ≡ dim + 1) terms.now }
        ensures room { self.new
            ≡ with_big self.old node (lin_row dim width constant terms.now (take node self.old.big)) }
        ensures lengths { map length self.new.big ≡ map length self.old.big }
    {
        lin_at(
            self.big.as_mut_slice(),
            node as usize,
            dim,
            width,
            constant,
            terms,
        );
    }

    /// Switches the ciphertext of an operation to the small key.
    pub(crate) fn set_switch(&mut self, node: u32, key: &SwitchKey, source: u32)
        requires there { node < length self.old.small }
        requires source { source < length self.old.big }
        requires big { length (row_at self.old.big source) ≡ key.now.big_dim + 1 }
        requires small { length (row_at self.old.small node) ≡ key.now.small_dim + 1 }
        ensures room { self.new ≡ with_small self.old node (switched key.now (row_at self.old.big source)) }
        ensures lengths { map length self.new.small ≡ map length self.old.small }
    {
        key.known();
        key_switch::laws::laws();
        switch_into(
            &mut self.small[node as usize],
            key,
            &self.big[source as usize],
        );
    }

    /// Looks up in a table what a key switch stands for, by a bootstrap.
    pub(crate) fn set_boot(
        &mut self,
        node: u32,
        key: &BootKey,
        width: u32,
        entries: &[i64],
        source: u32,
    )
        requires there { node < length self.old.big }
        requires source { source < length self.old.small }
        requires key { key.now.shape ≡ self.old.shape }
        requires some_bits { 1 ≤ width }
        requires within { 2 ^ width < 2 ^ key.now.shape.log_n }
        requires some { 1 ≤ length entries.now }
        requires few { length entries.now ≤ 2 ^ width }
        requires small { length (row_at self.old.small source) ≡ length key.now.ggsws + 1 }
        requires big { length (row_at self.old.big node) ≡ key.now.shape.k * 2 ^ key.now.shape.log_n + 1 }
        ensures room { self.new
            ≡ with_big self.old node (looked_up_by (Some key.now) width entries.now (row_at self.old.small source)) }
        ensures lengths { map length self.new.big ≡ map length self.old.big }
    {
        boot_into(
            &mut self.big[node as usize],
            &mut self.test,
            &mut self.boot,
            key,
            width,
            entries,
            &self.small[source as usize],
        );
    }
}
