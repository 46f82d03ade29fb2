ghost use Rattle.std.specs.Prelude.{◌≡◌, ◌<◌, ◌≤◌, ◌-◌, ◌^◌, ℕ, All, length};
ghost use Rattle.std.specs.Vec.{vec_capacity};
ghost use Rattle.pivot_core.specs.declared.view.Phase.TheVariants as phase;
ghost use Rattle.pivot_core.specs.Meets.{IsClaiming, MayMeet};
ghost use Rattle.pivot_core.specs.Steps.{IsMet};
ghost use Rattle.pivot_core.specs.Views as views;
ghost use Rattle.pivot_core.specs.Views.{sight_of};

use crate::event::Reply;
use crate::lists::{clear, clear_from, copy_row, lead, row_told, scale, stamp_told};
use crate::view::{Phase, View};
use back_reduce::Problem;
use field_table::Field;
use ideal_laws::{Answer, Call};
use lane_kernel::axpy_lanes;
use std::mem;

impl View {
    /// Goes on with the row that stands in `current`, made monic, or gives it up where it is 0. Before its leading
    /// column it is 0 and stays so.
    fn settle(&mut self, field: &Field, problem: &Problem, row: u32)
        requires field { field.now ≡ problem.now.modulus }
        requires residues { All (λ a. a < problem.now.modulus) self.old.current.items }
        requires current { length self.old.current.items ≡ problem.now.m }
        requires seen { length self.old.seen.items ≡ problem.now.m }
        ensures settled { sight_of self.new ≡ views.settle problem.now (sight_of self.old) self.old.current.items row }
        ensures capacity { vec_capacity self.new.calls ≡ vec_capacity self.old.calls }
    {
        let _columns = problem.m;
        match lead(self.current.as_slice()) {
            Some(column) => {
                let a = field.inv(self.current[column]);
                scale(
                    field,
                    a,
                    column,
                    self.current.as_slice(),
                    self.seen.as_mut_slice(),
                );
                mem::swap(&mut self.current, &mut self.seen);
                clear_from(column, self.seen.as_mut_slice());
                self.phase = Phase::Looking {
                    row,
                    column: column as u32,
                };
            }
            None => {
                clear(self.seen.as_mut_slice());
                self.phase = Phase::Fresh;
            }
        }
    }

    /// Begins to read the holder's row. Nothing is seen so far.
    fn begin(&mut self, row: u32, column: u32, holder: u32)
        ensures begun { sight_of self.new ≡ record (sight_of self.old)
            { phase = phase.Reading row column holder column } }
        ensures capacity { vec_capacity self.new.calls ≡ vec_capacity self.old.calls }
    {
        self.phase = Phase::Reading {
            row,
            column,
            holder,
            at: column,
        };
    }

    fn draw(&mut self, field: &Field, problem: &Problem, old: u64) -> Reply
        requires field { field.now ≡ problem.now.modulus }
        requires may { MayMeet problem.now (sight_of self.old) old }
        requires phase { self.old.phase ≡ phase.Fresh }
        ensures met { IsMet problem.now (sight_of self.old) old (sight_of self.new) result }
        ensures capacity { vec_capacity self.old.calls ≤ vec_capacity self.new.calls }
    {
        self.steps += 1;
        if old >= u64::from(problem.n) {
            self.phase = Phase::Ended;
            return Reply::Drew(None);
        }
        let row = old as u32;
        self.drawn += 1;
        copy_row(problem, row, self.current.as_mut_slice());
        self.settle(field, problem, row);
        Reply::Drew(Some(row))
    }

    fn look(&mut self, problem: &Problem, row: u32, column: u32, old: u64) -> Reply
        requires may { MayMeet problem.now (sight_of self.old) old }
        requires phase { self.old.phase ≡ phase.Looking row column }
        ensures met { IsMet problem.now (sight_of self.old) old (sight_of self.new) result }
        ensures capacity { vec_capacity self.old.calls ≤ vec_capacity self.new.calls }
    {
        self.steps += 1;
        if old == 0 {
            self.phase = Phase::Putting {
                row,
                column,
                at: column,
            };
            return Reply::Free;
        }
        let holder = row_told(old);
        let stamp = stamp_told(old);
        self.clock = self.clock.max(stamp);
        self.begin(row, column, holder);
        Reply::Held { row: holder, stamp }
    }

    fn put(&mut self, problem: &Problem, row: u32, column: u32, at: u32) -> Reply
        requires phase { self.old.phase ≡ phase.Putting row column at }
        requires at { at < problem.now.m }
        requires steps { self.old.steps < 2 ^ 64 - 1 }
        ensures met { (old : ℕ) → IsMet problem.now (sight_of self.old) old (sight_of self.new) result }
        ensures capacity { vec_capacity self.old.calls ≤ vec_capacity self.new.calls }
    {
        let m = problem.m;
        self.steps += 1;
        if at + 1 < m {
            self.phase = Phase::Putting {
                row,
                column,
                at: at + 1,
            };
            return Reply::Stored;
        }
        self.phase = Phase::Claiming { row, column };
        Reply::Stored
    }

    fn claim(&mut self, problem: &Problem, row: u32, column: u32, old: u64) -> Reply
        requires may { MayMeet problem.now (sight_of self.old) old }
        requires phase { self.old.phase ≡ phase.Claiming row column }
        requires room { length self.old.calls.items < vec_capacity self.old.calls }
        ensures met { IsMet problem.now (sight_of self.old) old (sight_of self.new) result }
        ensures capacity { vec_capacity self.old.calls ≤ vec_capacity self.new.calls }
    {
        self.steps += 1;
        if old == 0 {
            self.clock += 1;
            let call = Call {
                seat: self.seat,
                stamp: self.clock,
                column,
                row,
                answer: Answer::Won,
            };
            self.calls.push_reserved(call);
            self.phase = Phase::Fresh;
            clear(self.current.as_mut_slice());
            return Reply::Claimed(Answer::Won);
        }
        let answer = Answer::Lost {
            row: row_told(old),
            stamp: stamp_told(old),
        };
        self.clock = self.clock.max(stamp_told(old)) + 1;
        let call = Call {
            seat: self.seat,
            stamp: self.clock,
            column,
            row,
            answer,
        };
        self.calls.push_reserved(call);
        self.begin(row, column, row_told(old));
        Reply::Claimed(answer)
    }

    fn read(
        &mut self,
        field: &Field,
        problem: &Problem,
        row: u32,
        column: u32,
        holder: u32,
        at: u32,
        old: u64,
    ) -> Reply
        requires field { field.now ≡ problem.now.modulus }
        requires may { MayMeet problem.now (sight_of self.old) old }
        requires phase { self.old.phase ≡ phase.Reading row column holder at }
        ensures met { IsMet problem.now (sight_of self.old) old (sight_of self.new) result }
        ensures capacity { vec_capacity self.old.calls ≤ vec_capacity self.new.calls }
    {
        let m = problem.m;
        let _modulus = field.modulus();
        self.steps += 1;
        let word = old as u32;
        self.seen[at as usize] = word;
        if at + 1 < m {
            self.phase = Phase::Reading {
                row,
                column,
                holder,
                at: at + 1,
            };
            return Reply::Got(word);
        }
        let minus = field.neg(1);
        axpy_lanes(
            field,
            self.current.as_mut_slice(),
            minus,
            self.seen.as_slice(),
        );
        self.settle(field, problem, row);
        Reply::Got(word)
    }

    /// The next step of the view, on the word that it meets.
    pub fn met(&mut self, field: &Field, problem: &Problem, old: u64) -> Reply
        requires field { field.now ≡ problem.now.modulus }
        requires may { MayMeet problem.now (sight_of self.old) old }
        requires room { IsClaiming self.old.phase → length self.old.calls.items < vec_capacity self.old.calls }
        ensures met { IsMet problem.now (sight_of self.old) old (sight_of self.new) result }
        ensures capacity { vec_capacity self.old.calls ≤ vec_capacity self.new.calls }
    {
        match self.phase {
            Phase::Fresh => self.draw(field, problem, old),
            Phase::Looking { row, column } => self.look(problem, row, column, old),
            Phase::Putting { row, column, at } => self.put(problem, row, column, at),
            Phase::Claiming { row, column } => self.claim(problem, row, column, old),
            Phase::Reading {
                row,
                column,
                holder,
                at,
            } => { self.read(field, problem, row, column, holder, at, old) }
            Phase::Ended => Reply::Stored,
        }
    }
}
