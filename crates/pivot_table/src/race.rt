ghost use Rattle.std.specs.Prelude.{◌≡◌, ◌<◌, ◌≤◌, [], IfOk};
ghost use Rattle.pivot_table.specs.Shares.{first_share};
ghost use Rattle.pivot_table.specs.Workers.{fresh_crew};

use crate::NoMemory;
use crate::law::{Deal, Law};
use crate::share::{Setting, Share};
use crate::worker::Worker;
use atomic_table::{Seat, Table};
use back_reduce::Problem;
use field_table::Field;
use ideal_laws::Call;
use std::alloc::Global;
use std::marker::Model;

/// The words of a race, which its workers share.
#[derive(Drop)]
pub struct Race {
    pub(crate) table: Table<u8, Share, Setting, Law, Global>,
    pub(crate) field: Field,
    pub(crate) setting: Setting,
    /// Room for the words at the end.
    pub(crate) room: Vec<u64>,
    /// Room for a list of calls for each worker.
    pub(crate) logs: Vec<Vec<Call>>,
}

impl Model for Race {
    ghost use Rattle.pivot_table.specs.Workers.{Arena, arena_of};

    ghost Value = { Arena };

    ghost use Rattle.pivot_table.specs.RaceFields.{IsRace};

    ghost view = { λ r. arena_of r.table.shared.table_id r.setting };

    ghost invariant = { IsRace };
}

impl Race {
    /// A race before the first step, with its workers by their seats. It takes all memory of the race.
    pub fn new(
        alloc: Global,
        field: &Field,
        problem: Problem,
        crew: u32,
    ) -> Result<(Race, Vec<Worker>), NoMemory>
        requires some { 0 < crew }
        requires few { crew ≤ 64 }
        requires field { field.now ≡ problem.modulus }
        ensures problem { IfOk result (λ r. r.0.problem ≡ problem) }
        ensures crew { IfOk result (λ r. r.0.crew ≡ crew) }
        ensures workers { IfOk result (λ r. r.1.items ≡ fresh_crew r.0) }
    {
        // The clauses of this call tell that the modulus makes a field, and is small.
        let _modulus = field.modulus();
        let m = problem.m as usize;
        let count = 1 + m + problem.n as usize * ((m + 1) / 2);
        let field = field.copy(alloc)?;
        let room = vec![in alloc; 0; count]?;
        let logs = Vec::with_capacity(alloc, crew as usize)?;
        let setting = Setting { problem, crew };
        let (table, seat) = Table::of_words(alloc, room.as_slice(), &setting)?;
        let race = Race {
            table,
            field,
            setting,
            room,
            logs,
        };
        let workers = race.dealt(alloc, seat)?;
        Ok((race, workers))
    }

    /// Cuts the first seat into the seats of the workers.
    fn dealt(&self, alloc: Global, first: Seat<u8, Share>) -> Result<Vec<Worker>, NoMemory>
        requires table { first.table_id ≡ self.now.table }
        requires share { first.me ≡ (first_share (record { problem = self.now.problem; crew = self.now.crew }), []) }
        ensures workers { IfOk result (λ workers. workers.items ≡ fresh_crew self.now) }
    {
        let crew = self.setting.crew;
        let mut rest = first;
        let mut workers = Vec::with_capacity(alloc, crew as usize)?;
        for number in 0..crew {
            let seat = self.table.shared.split_seat::<Deal>(&mut rest);
            workers.push(Worker::begin(alloc, &self.setting.problem, number, seat)?)?;
        }
        Ok(workers)
    }

    /// The degree of the problem.
    pub fn degree(&self) -> u32
        ensures { result ≡ self.now.problem.degree }
    {
        self.setting.problem.degree
    }
}
