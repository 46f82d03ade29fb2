ghost use Rattle.std.specs.Prelude.{◌≡◌, ◌≢◌, ◌<◌, ◌≤◌, ◌^◌, All, MatchOption, length};
ghost use Rattle.free_poly.specs.Terms.{HasResidues, UsesLetters};
ghost use Rattle.ideal_laws.specs.Engine.{IsReducedUpto};
ghost use Rattle.ideal_laws.specs.Laws.{IsRelation};
ghost use Rattle.job_steps.specs.States.{state_of};
ghost use Rattle.job_steps.specs.Status.{PrintsNothing};
ghost use Rattle.job_steps.specs.Statuses.{IsAnsweredInParts};
ghost use Rattle.bergman_cli.specs.Jobs.{IsAsked};
ghost use Rattle.bergman_cli.specs.Normal.{HasNone, IsAbove, IsAnsweredBy, IsFirstPlace, IsNormalOutcome};

use crate::cut::first_relations;
use bg_io::{Sink, write_all};
use cofactors::{CofactorFault, answer_text, lead_degree_within, normal_form, normal_form_laws};
use command_words::Job;
use field_table::Field;
use free_poly::Poly;
use ideal_laws::{Basis, DegreeEngine, EngineFault, Presentation, lower_law, run, setting_law};
use job_steps::{InputProblem, Status};
use lead_index::index_of;
use std::alloc::Global;
use std::thread::Threads;
use words::Alphabet;

/// A question may have so many triples.
const MOST_TRIPLES: u32 = 16_384;

/// The command `normal`: the last relations are questions. The answer to each, its normal form with products, is
/// written before the next one is looked for.
pub fn run_normal<R: Threads + Sync, E: DegreeEngine, K: Sink>(
    rt: &R,
    alloc: Global,
    job: &Job,
    engine: &mut E,
    field: &Field,
    given: &Presentation,
    out: &mut K,
) -> Status
    requires { IsAsked job.now (E.kinds engine.old) field.now given.now }

    ensures end { IsAnsweredInParts (IsNormalOutcome job.now given.now.alphabet given.now.relations)
        (state_of K.Sink out.old) (state_of K.Sink out.new) result }
    ensures nothing { PrintsNothing result → out.new ≡ out.old }
    ensures writes { result ≢ Status.WriteFault → K.faults out.new ≡ K.faults out.old }
{
    let relations = given.relations.as_slice();
    let count = relations.len() as u32;
    if count < job.ask {
        return Status::Input(InputProblem::TooFewRelations { relations: count });
    }
    let size = count - job.ask;
    let questions = &relations[size as usize..];
    if let Some(place) = first_above(&given.alphabet, questions, job.bound) {
        return Status::Input(InputProblem::AboveBound {
            relation: size + place + 1,
        });
    }
    let Ok(ideal) = first_relations(alloc, given, size as usize) else {
        return Status::NoMemory;
    };
    lower_law();
    setting_law(field, given);
    setting_law(field, &ideal);
    match run(rt, alloc, engine, field, &ideal, job.bound) {
        Ok(basis) => write_answers(alloc, field, &ideal, &basis, questions, out),
        Err(
            EngineFault::Limit {
                kind,
                degree,
                value,
            },
        ) => Status::Limit {
            kind,
            degree,
            value,
        },
        Err(EngineFault::NoMemory) => Status::NoMemory,
    }
}

/// The place of the first question of a degree above the bound.
fn first_above(alphabet: &Alphabet, questions: &[Poly], bound: u32) -> Option<u32>
    requires few { length questions.now < 2 ^ 32 }
    requires bound { bound ≤ 64 }
    requires letters { All (UsesLetters (length alphabet.now.weights)) questions.now }
    ensures { MatchOption result (HasNone (IsAbove alphabet.now.weights bound) questions.now)
        (λ place. IsFirstPlace (IsAbove alphabet.now.weights bound) questions.now place) }
{
    for (place, question) in questions.iter().enumerate() {
        if lead_degree_within(alphabet, question, 65) > bound {
            return Some(place as u32);
        }
    }
    None
}

/// Writes the answers to the questions one by one, up to the first one that has too many triples.
fn write_answers<K: Sink>(
    alloc: Global,
    field: &Field,
    ideal: &Presentation,
    basis: &Basis,
    questions: &[Poly],
    out: &mut K,
) -> Status
    requires few { length questions.now < 2 ^ 32 }
    requires elements { All (IsRelation field.now ideal.now.alphabet.weights) questions.now }
    requires within { HasNone (IsAbove ideal.now.alphabet.weights basis.now.done) questions.now }
    requires weights { basis.now.weights ≡ ideal.now.alphabet.weights }
    requires reduced { IsReducedUpto field.now ideal.now.relations basis.now }
    requires relations { All (HasResidues field.now) ideal.now.relations }

    ensures end { IsAnsweredInParts (IsAnsweredBy field.now ideal.now.alphabet ideal.now.relations questions.now)
        (state_of K.Sink out.old) (state_of K.Sink out.new) result }
    ensures nothing { PrintsNothing result → out.new ≡ out.old }
    ensures writes { result ≢ Status.WriteFault → K.faults out.new ≡ K.faults out.old }
{
    lower_law();
    normal_form_laws();
    setting_law(field, ideal);
    let _done = basis.done();
    let Ok(index) = index_of(alloc, basis) else {
        return Status::NoMemory;
    };
    for (place, question) in questions.iter().enumerate() {
        match normal_form(alloc, field, ideal, basis, &index, question, MOST_TRIPLES) {
            Ok(certificate) => {
                let number = place as u32 + 1;
                let Ok(answer) = answer_text(alloc, &ideal.alphabet, field, number, &certificate)
                else {
                    return Status::NoMemory;
                };
                match write_all(out, answer.as_slice()) {
                    Ok(()) => {}
                    Err(_) => return Status::WriteFault,
                }
            }
            Err(CofactorFault::TooMany) => {
                return Status::Products {
                    degree: lead_degree_within(&ideal.alphabet, question, 65),
                    value: u64::from(MOST_TRIPLES) + 1,
                };
            }
            Err(CofactorFault::NoMemory) => return Status::NoMemory,
        }
    }
    Status::Done
}
