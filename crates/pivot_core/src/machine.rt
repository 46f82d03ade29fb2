ghost use Rattle.std.specs.Prelude.{◌≡◌, ◌↔◌, ◌<◌, ◌≤◌, All, IfOk, IfSome, IsNone, IsTrue, None, Some, length, map};
ghost use Rattle.std.specs.Prelude.{min};
ghost use Rattle.std.specs.List.{range_with_len};
ghost use Rattle.std.specs.Vec.{vec_capacity};
ghost use Rattle.pivot_core.specs.Cores.{IsMade, MayStep};
ghost use Rattle.pivot_core.specs.Finished.{found_holders, found_values};
ghost use Rattle.pivot_core.specs.Laws.{logs_of};
ghost use Rattle.pivot_core.specs.Phases.{is_ended};
ghost use Rattle.pivot_core.specs.Runs.{HasEnded, after_event, holders, opening, step_at, values, view_at};
ghost use Rattle.pivot_core.specs.Steps.{Stepped};
ghost use Rattle.pivot_core.specs.Views.{fresh, sight_of};

use crate::NoMemory;
use crate::event::{Event, Reply};
use crate::next::{comes_next, word_met};
use crate::pivots::{CorePivots, calls_of};
use crate::view::{Phase, View};
use back_reduce::Problem;
use field_table::Field;
use ideal_laws::Call;
use std::alloc::Global;
use std::marker::Model;

/// The machine of claims on one thread: the steps of the seats come one by one, in any order.
#[derive(Debug, Drop)]
pub struct Core {
    field: Field,
    problem: Problem,
    words: Vec<u64>,
    views: Vec<View>,
    /// How many seats have not ended.
    going: u32,
    /// Room for a list of calls for each seat.
    logs: Vec<Vec<Call>>,
}

impl Model for Core {
    ghost use Rattle.std.specs.Prelude.{length};
    ghost use Rattle.pivot_core.specs.Cores.{Machine, state_of};

    ghost Value = { Machine };

    ghost use Rattle.pivot_core.specs.CoreFields.{IsRun};

    ghost view = { λ c. record {
      problem = c.problem;
      crew = length c.views.items;
      state = state_of c.words.items c.views.items;
    } };

    ghost invariant = { IsRun };
}

impl Core {
    /// The machine before the first step. It takes all memory that its run takes.
    pub fn new(alloc: Global, field: &Field, problem: Problem, crew: u32) -> Result<Core, NoMemory>
        requires some { 0 < crew }
        requires few { crew ≤ 64 }
        requires field { field.now ≡ problem.modulus }
        ensures problem { IfOk result (λ core. core.problem ≡ problem) }
        ensures crew { IfOk result (λ core. core.crew ≡ crew) }
        ensures state { IfOk result (λ core. core.state ≡ opening problem crew) }
    {
        let _modulus = field.modulus();
        let m = problem.m as usize;
        let count = 1 + m + problem.n as usize * m;
        let field = field.copy(alloc)?;
        let words = vec![in alloc; 0; count]?;
        let views = fresh_views(alloc, &problem, crew)?;
        let logs = Vec::with_capacity(alloc, crew as usize)?;
        Ok(Core {
            field,
            problem,
            words,
            views,
            going: crew,
            logs,
        })
    }

    pub fn view(&self, seat: u32) -> &View
        requires { seat < self.now.crew }
        ensures { sight_of result.now ≡ view_at self.now.problem self.now.state seat }
    {
        &self.views[seat as usize]
    }

    /// Makes the step of the event, where it is the next of a seat that is there.
    pub fn step(&mut self, event: Event) -> Option<Reply>
        ensures state { self.new.state ≡ after_event self.old.problem self.old.state event }
        ensures problem { self.new.problem ≡ self.old.problem }
        ensures crew { self.new.crew ≡ self.old.crew }
        ensures reply { IfSome result (λ r. (t : Stepped) × (step_at self.old.problem self.old.state event ≡ Some t)
            × (t.reply ≡ r)) }
        ensures none { IsNone result ↔ (step_at self.old.problem self.old.state event ≡ None) }
    {
        let seat = event.seat as usize;
        if seat >= self.views.len() {
            return None;
        }
        if !comes_next(event.kind, self.views[seat].phase) {
            return None;
        }
        let _sizes = (self.problem.n, self.problem.m);
        let words = self.words.as_mut_slice();
        let reply = make_step(&self.field, &self.problem, words, &mut self.views[seat]);
        self.going -= ended_count(self.views[seat].phase);
        Some(reply)
    }

    /// Whether every view has ended.
    pub fn ended(&self) -> bool
        ensures { IsTrue result ↔ HasEnded self.now.problem self.now.state }
    {
        self.going == 0
    }

    /// The pivots that the seats have found, with their calls. It takes no memory.
    pub fn finish(self) -> CorePivots
        requires { HasEnded self.problem self.state }
        ensures problem { result.problem ≡ self.problem }
        ensures holders { found_holders result ≡ holders self.problem self.state }
        ensures values { found_values result ≡ values self.problem self.state }
        ensures logs { result.logs ≡ logs_of self.state }
    {
        let problem = self.problem;
        let words = self.words;
        let logs = calls_of(self.views, self.logs);
        CorePivots {
            problem,
            words,
            logs,
        }
    }
}

/// 1 for a phase in which a view has ended.
fn ended_count(phase: Phase) -> u32
    ensures { result ≡ is_ended phase }
{
    match phase {
        Phase::Ended => 1,
        _ => 0,
    }
}

/// Makes the next step of a view, on the word that it meets.
fn make_step(field: &Field, problem: &Problem, words: &mut [u64], view: &mut View) -> Reply
    requires field { field.now ≡ problem.now.modulus }
    requires may { MayStep problem.now words.old view.old }
    ensures made { IsMade problem.now words.old (sight_of view.old) words.new (sight_of view.new) result }
    ensures capacity { vec_capacity view.old.calls ≤ vec_capacity view.new.calls }
{
    let at = word_met(problem, view.phase);
    let old = words[at];
    let word = view.word_left(problem, old);
    let reply = view.met(field, problem, old);
    words[at] = word;
    reply
}

/// The views of all seats of a crew, by their numbers, before their first steps.
fn fresh_views(alloc: Global, problem: &Problem, crew: u32) -> Result<Vec<View>, NoMemory>
    ensures views { IfOk result (λ views. map sight_of views.items
        ≡ map (fresh problem.now.m) (range_with_len 0 crew)) }
    ensures room { IfOk result (λ views. All (λ v. min problem.now.n problem.now.m ≤ vec_capacity v.calls)
        views.items) }
{
    let mut views = Vec::with_capacity(alloc, crew as usize)?;
    for seat in 0..crew {
        views.push(View::fresh(alloc, problem, seat)?)?;
    }
    Ok(views)
}
