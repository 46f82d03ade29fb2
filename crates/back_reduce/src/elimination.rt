ghost use Rattle.std.specs.Prelude.{◌≡◌, ◌<◌, IfOk, None, replicate};
ghost use Rattle.back_reduce.specs.declared.problem.Problem.{Problem};
ghost use Rattle.back_reduce.specs.declared.table.Held.{Held};
ghost use Rattle.back_reduce.specs.Pivots.{held_row, ArePivots};
ghost use Rattle.back_reduce.specs.Sequential.{holder_in, value_in};
ghost use Rattle.back_reduce.specs.Table.{IsEliminated};

use crate::NoMemory;
use crate::pivots::PivotRows;
use crate::problem::Problem;
use crate::row::Row;
use crate::table::{Held, insert};
use field_table::Field;
use std::alloc::Global;
use std::marker::Model;

/// The pivots that one thread finds, taking the rows in their order.
#[derive(Debug, Drop)]
pub struct SeqPivots {
    problem: Problem,
    table: Vec<Option<Held>>,
}

impl Model for SeqPivots {
    ghost use Rattle.back_reduce.specs.Sequential.{IsSequential, Sequential};

    ghost Value = { Sequential };

    ghost view = { λ s. record { problem = s.problem; table = s.table.items } };

    ghost invariant = { λ s. IsSequential s.problem s.table.items };
}

impl PivotRows for SeqPivots {
    ghost given = { λ s. s.problem };

    ghost holders = { λ s. holder_in s.table };

    ghost values = { λ s. value_in s.table };

    fn problem(&self) -> &Problem {
        &self.problem
    }

    fn holder(&self, column: u32) -> Option<u32> {
        match &self.table[column as usize] {
            Some(held) => Some(held.holder),
            None => None,
        }
    }

    fn value(&self, column: u32, at: u32) -> u32 {
        match &self.table[column as usize] {
            Some(held) => held.row.at(at as usize),
            None => 0,
        }
    }

    fn row(&self, alloc: Global, column: u32) -> Result<Row, NoMemory> {
        match &self.table[column as usize] {
            Some(held) => held.row.copy(alloc),
            None => Ok(Row::zeros(alloc, self.problem.m)),
        }
    }
}

/// Elimination by one thread, which takes the rows in their order.
pub fn eliminate(alloc: Global, field: &Field, problem: Problem) -> Result<SeqPivots, NoMemory>
    requires { problem.modulus ≡ field.now }
    ensures { IfOk result (λ pivots. pivots.problem ≡ problem) }
{
    let table = table_of(alloc, field, &problem)?;
    Ok(SeqPivots { problem, table })
}

/// The rows that are left of all rows of the problem.
fn table_of(alloc: Global, field: &Field, problem: &Problem) -> Result<Vec<Option<Held>>, NoMemory>
    requires { problem.now.modulus ≡ field.now }
    ensures { IfOk result (λ table. IsEliminated problem.now problem.now.n table.items) }
{
    let mut table = no_rows(alloc, problem.m as usize)?;
    let mut buffer = vec![in alloc; 0u32; problem.m as usize]?;
    for r in 0..problem.n {
        let row = &problem.rows[r as usize];
        insert(
            alloc,
            field,
            table.as_mut_slice(),
            r,
            row,
            buffer.as_mut_slice(),
        )?;
    }
    Ok(table)
}

/// A table in which no row leads.
fn no_rows(alloc: Global, columns: usize) -> Result<Vec<Option<Held>>, NoMemory>
    ensures { IfOk result (λ table. table.items ≡ replicate columns None) }
{
    let mut table = Vec::with_capacity(alloc, columns)?;
    for _ in 0..columns {
        table.push(None)?;
    }
    Ok(table)
}
