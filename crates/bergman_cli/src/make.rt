ghost use Rattle.std.specs.Prelude.{◌≡◌, ◌++◌, ◌*◌, ◌^◌, ◌≤◌, ℕ, [], IfOk, decimal, length, sum_by};
ghost use Rattle.ideal_laws.specs.Quantities.{terms_in};
ghost use Rattle.bergman_cli.specs.Jobs.{IsAsked};
ghost use Rattle.bergman_cli.specs.Make.{IsMakeOutcome, coefficient_sum, number_line, summary_text};

use command_words::Job;
use field_table::Field;
use free_poly::Term;
use hilbert::{SeriesFault, count_law, series};
use ideal_laws::{
    Basis, DegreeEngine, LimitKind, Limits, Presentation, lower_law, run, setting_law,
};
use itoa::Buffer;
use job_steps::Answer;
use std::alloc::{AllocError, Global};
use std::thread::Threads;
use words::NoMemory;

/// The command `make`: the summary of the basis and of the last coefficient.
pub fn make_answer<R: Threads + Sync, E: DegreeEngine>(
    rt: &R,
    alloc: Global,
    job: &Job,
    engine: &mut E,
    field: &Field,
    given: &Presentation,
) -> Result<Answer, NoMemory>
    requires { IsAsked job.now (E.kinds engine.old) field.now given.now }
    ensures { IfOk result (λ answer. IsMakeOutcome job.now given.now.alphabet given.now.relations answer.status
        answer.text) }
{
    setting_law(field, given);
    lower_law();
    count_law();
    let basis = match run(rt, alloc, engine, field, given, job.bound) {
        Ok(basis) => basis,
        Err(fault) => return Answer::stopped(alloc, fault),
    };
    match series(
        alloc,
        &given.alphabet,
        &basis,
        job.bound,
        &Limits::standard(),
    ) {
        Ok(numbers) => {
            let coefficient = numbers[job.bound as usize];
            let relations = given.relations.as_slice().len();
            let text = summary_text(alloc, job, relations, &basis, coefficient)?;
            Ok(Answer::done(text))
        }
        Err(SeriesFault::Limit { degree, value, .. }) => {
            Ok(Answer::limit(alloc, LimitKind::NormalWords, degree, value))
        }
        Err(SeriesFault::NoMemory) => Err(AllocError),
    }
}

/// The lines of the summary.
fn summary_text(
    alloc: Global,
    job: &Job,
    relations: usize,
    basis: &Basis,
    coefficient: u64,
) -> Result<Vec<u8>, NoMemory>
    ensures { IfOk result (λ text. text.items ≡ summary_text job.now.number relations basis.now.elements
        job.now.bound coefficient) }
{
    let (terms, sum) = totals(basis);
    let mut text = Vec::new(alloc);
    push_line(&mut text, b"% make", u128::from(job.number))?;
    push_line(&mut text, b"relations", relations as u128)?;
    push_line(&mut text, b"elements", u128::from(basis.len()))?;
    push_line(&mut text, b"terms", terms)?;
    push_line(&mut text, b"sum", sum)?;
    text.extend_from_slice(b"coefficient ")?;
    push_number(&mut text, u128::from(job.bound))?;
    push_line(&mut text, b"", u128::from(coefficient))?;
    Ok(text)
}

/// How many terms all elements have, and the sum of their coefficients.
fn totals(basis: &Basis) -> (u128, u128)
    ensures terms { result.0 ≡ terms_in basis.now.elements }
    ensures sum { result.1 ≡ coefficient_sum basis.now.elements }
{
    let _done = basis.done();
    let mut count: u128 = 0;
    let mut sum: u128 = 0;
    for place in 0..basis.len() {
        let terms = basis.element(place).terms();
        count += terms.len() as u128;
        sum += coefficients_in(terms);
    }
    (count, sum)
}

fn coefficients_in(terms: &[Term]) -> u128
    ensures value { result ≡ sum_by (λ t. t.coefficient) terms.now }
    ensures small { result ≤ length terms.now * 2 ^ 32 }
{
    let mut sum: u128 = 0;
    for term in terms {
        sum += u128::from(term.coefficient);
    }
    sum
}

fn push_line(text: &mut Vec<u8>, name: &[u8], number: u128) -> Result<(), NoMemory>
    ensures { IfOk result (λ _. text.new.items ≡ text.old.items ++ number_line name.now number) }
{
    text.extend_from_slice(name)?;
    text.extend_from_slice(b" ")?;
    push_number(text, number)?;
    text.extend_from_slice(b"\n")
}

fn push_number(text: &mut Vec<u8>, number: u128) -> Result<(), NoMemory>
    ensures { IfOk result (λ _. text.new.items ≡ text.old.items ++ decimal number) }
{
    let mut digits = Buffer::new();
    text.extend_from_slice(digits.format(number).as_bytes())
}
