ghost use Rattle.std.specs.Prelude.{◌≡◌, ◌≢◌, ◌+◌, ◌≤◌, ◌<◌, ℕ, List, [], All, Err, IfErr, IfOk, OnOk, length, true};
ghost use Rattle.std.specs.List.{flat_map, slice_range};
ghost use Rattle.free_poly.specs.declared.term.Term.{Term};
ghost use Rattle.free_poly.specs.Poly.{IsMonic};
ghost use Rattle.free_poly.specs.Terms.{HasResidues, UsesLetters};
ghost use Rattle.ideal_laws.specs.declared.account.Account.{Account};
ghost use Rattle.ideal_laws.specs.declared.presentation.Presentation.{Presentation};
ghost use Rattle.ideal_laws.specs.Engine.{Elements, IsNextDegree, IsReducedUpto, of_degree};
ghost use Rattle.ideal_laws.specs.Kept.{IsKept};
ghost use Rattle.ideal_laws.specs.Limits.{standard_limits};
ghost use Rattle.poly_writer.specs.Texts.{degree_text, element_line, series_text};
ghost use Rattle.job_steps.specs.Gains.{CountsWrites, GainsAll, HasPrinted, IsUndone, IsUnwritten};
ghost use Rattle.job_steps.specs.Printing.{IsBasisUndone, IsNextUndone, IsSeriesUndone, IsWholeSeries, OfNext, task_of};
ghost use Rattle.job_steps.specs.Progress.{IsBasisSoFar, whole};
ghost use Rattle.job_steps.specs.States.{state_of, teller_state};
ghost use Rattle.job_steps.specs.Traces.{ArePrintable, OfNextTrace, OfTrace, Tells};

use crate::degree_lines::write_degree;
use crate::telling::{Teller, tell_degree};
use bg_io::{Sink, write_all};
use field_table::Field;
use hilbert::{SeriesFault, count_law, series};
use ideal_laws::{
    Basis, DegreeEngine, EngineFault, LimitKind, Limits, Presentation, advance, lower_law,
    setting_law,
};
use poly_writer::series_text;
use std::alloc::{AllocError, Global};
use std::thread::Threads;

/// What is to be printed of an ideal: the basis of degrees 1 to a bound, and the coefficients of degrees 0 to there.
#[derive(Debug, Clone, Copy, PartialEq, Eq)]
pub struct Asked {
    pub bound: u32,
    pub basis: bool,
    pub series: bool,
    /// Whether the account of each degree is told.
    pub trace: bool,
}

/// Why it was not all printed.
#[derive(Debug, Clone, Copy, PartialEq, Eq)]
pub enum PrintFault {
    Limit {
        kind: LimitKind,
        degree: u32,
        value: u64,
    },
    WriteFault,
    NoMemory,
}

impl From<AllocError> for PrintFault {
    ghost use Rattle.job_steps.specs.declared.print.PrintFault.TheVariants.{NoMemory};
    ghost use Rattle.std.specs.Prelude.{◌≡◌};

    ghost from_gives = { λ _ fault. fault ≡ NoMemory };

    fn from(_refused: AllocError) -> PrintFault {
        PrintFault::NoMemory
    }
}

/// Computes the degrees up to the bound. The trace of each is told, where it is asked for, and its lines are written
/// before the next one is asked for; and then the series is written. The first failed write to `out` ends it.
pub fn print_job<R: Threads + Sync, E: DegreeEngine, K: Sink, T: Sink>(
    rt: &R,
    alloc: Global,
    engine: &mut E,
    field: &Field,
    given: &Presentation,
    asked: Asked,
    out: &mut K,
    teller: &mut Teller<'_, T>,
) -> Result<(), PrintFault>
    requires small { asked.bound ≤ 64 }
    requires residues { All (HasResidues field.now) given.now.relations }
    requires printable { asked.trace ≡ true → ArePrintable (E.may_account engine.old) field.now given.now }

    ensures done { OnOk result (HasPrinted (task_of field.now given.now (E.kinds engine.old) asked) whole
        (state_of K.Sink out.old) (state_of K.Sink out.new)) }
    ensures told { OnOk result (OfTrace (E.may_account engine.old)
        (task_of field.now given.now (E.kinds engine.old) asked) asked.trace asked.bound
        (Tells (teller_state T.Sink teller.old) (teller_state T.Sink teller.new))) }
    ensures undone { IfErr result (IsUndone (task_of field.now given.now (E.kinds engine.old) asked)
        (state_of K.Sink out.old) (state_of K.Sink out.new)
        (λ e. OfTrace (E.may_account engine.old) (task_of field.now given.now (E.kinds engine.old) asked)
        asked.trace e (Tells (teller_state T.Sink teller.old) (teller_state T.Sink teller.new)))) }
    ensures steady { result ≢ Err PrintFault.WriteFault → K.faults out.new ≡ K.faults out.old }
    ensures calls { CountsWrites (state_of K.Sink out.old) (state_of K.Sink out.new) result }
    ensures same_sink { teller.new.err.ghost_name ≡ teller.old.err.ghost_name }
{
    setting_law(field, given);
    let basis = print_basis(rt, alloc, engine, field, given, asked, out, teller)?;
    if !asked.series {
        return Ok(());
    }
    match print_series(alloc, field, given, &basis, out) {
        Ok(()) => Ok(()),
        Err(fault) => Err(fault),
    }
}

/// Computes and prints the basis.
fn print_basis<R: Threads + Sync, E: DegreeEngine, K: Sink, T: Sink>(
    rt: &R,
    alloc: Global,
    engine: &mut E,
    field: &Field,
    given: &Presentation,
    asked: Asked,
    out: &mut K,
    teller: &mut Teller<'_, T>,
) -> Result<Basis, PrintFault>
    requires small { asked.bound ≤ 64 }
    requires residues { All (HasResidues field.now) given.now.relations }
    requires printable { asked.trace ≡ true → ArePrintable (E.may_account engine.old) field.now given.now }

    ensures done { IfOk result (λ basis. basis.done ≡ asked.bound) }
    ensures weights { IfOk result (λ basis. basis.weights ≡ given.now.alphabet.weights) }
    ensures reduced { IfOk result (IsReducedUpto field.now given.now.relations) }
    ensures printed { OnOk result ((text : List ℕ) × IsBasisSoFar
        (task_of field.now given.now (E.kinds engine.old) asked) asked.bound text
        × GainsAll (state_of K.Sink out.old) (state_of K.Sink out.new) text) }
    ensures told { OnOk result (OfTrace (E.may_account engine.old)
        (task_of field.now given.now (E.kinds engine.old) asked) asked.trace asked.bound
        (Tells (teller_state T.Sink teller.old) (teller_state T.Sink teller.new))) }
    ensures undone { IfErr result (IsBasisUndone (task_of field.now given.now (E.kinds engine.old) asked)
        (state_of K.Sink out.old) (state_of K.Sink out.new)
        (λ e. OfTrace (E.may_account engine.old) (task_of field.now given.now (E.kinds engine.old) asked)
        asked.trace e (Tells (teller_state T.Sink teller.old) (teller_state T.Sink teller.new)))) }
    ensures steady { result ≢ Err PrintFault.WriteFault → K.faults out.new ≡ K.faults out.old }
    ensures calls { CountsWrites (state_of K.Sink out.old) (state_of K.Sink out.new) result }
    ensures same_sink { teller.new.err.ghost_name ≡ teller.old.err.ghost_name }
{
    let mut basis = Basis::new(alloc, &given.alphabet);
    for _degree in 0..asked.bound {
        print_next(
            rt, alloc, engine, field, given, asked, &mut basis, out, teller,
        )?;
    }
    Ok(basis)
}

/// Computes the next degree, tells its trace and writes its lines, as far as they are asked for.
fn print_next<R: Threads + Sync, E: DegreeEngine, K: Sink, T: Sink>(
    rt: &R,
    alloc: Global,
    engine: &mut E,
    field: &Field,
    given: &Presentation,
    asked: Asked,
    basis: &mut Basis,
    out: &mut K,
    teller: &mut Teller<'_, T>,
) -> Result<(), PrintFault>
    requires next { IsNextDegree field.now given.now basis.old (basis.old.done + 1) }
    requires printable { asked.trace ≡ true → ArePrintable (E.may_account engine.old) field.now given.now }

    ensures weights { basis.new.weights ≡ basis.old.weights }
    ensures kept { IsKept basis.old × IsKept basis.new }
    ensures done { OnOk result (basis.new.done ≡ basis.old.done + 1) }
    ensures reduced { OnOk result (IsReducedUpto field.now given.now.relations basis.new) }
    ensures printed { OnOk result (OfNext (task_of field.now given.now (E.kinds engine.old) asked) basis.old
        (GainsAll (state_of K.Sink out.old) (state_of K.Sink out.new))) }
    ensures told { OnOk result (OfNextTrace (E.may_account engine.old) field.now given.now basis.old asked.trace
        (Tells (teller_state T.Sink teller.old) (teller_state T.Sink teller.new))) }
    ensures undone { IfErr result (IsNextUndone (task_of field.now given.now (E.kinds engine.old) asked) basis.old
        (state_of K.Sink out.old) (state_of K.Sink out.new)
        (Tells (teller_state T.Sink teller.old) (teller_state T.Sink teller.new) [])
        (OfNextTrace (E.may_account engine.old) field.now given.now basis.old asked.trace
        (Tells (teller_state T.Sink teller.old) (teller_state T.Sink teller.new)))) }
    ensures steady { result ≢ Err PrintFault.WriteFault → K.faults out.new ≡ K.faults out.old }
    ensures calls { CountsWrites (state_of K.Sink out.old) (state_of K.Sink out.new) result }

    ensures same_sink { teller.new.err.ghost_name ≡ teller.old.err.ghost_name }
    ensures kinds { E.kinds engine.new ≡ E.kinds engine.old }
    ensures accounts { (p : ℕ) (rs : Presentation) (b : Elements) (e : ℕ) (a : Account) →
        E.may_account engine.new p rs b e a → E.may_account engine.old p rs b e a }
{
    setting_law(field, given);
    match advance(rt, alloc, engine, field, given, basis) {
        Err(
            EngineFault::Limit {
                kind,
                degree,
                value,
            },
        ) => Err(PrintFault::Limit {
            kind,
            degree,
            value,
        }),
        Err(EngineFault::NoMemory) => Err(PrintFault::NoMemory),
        Ok(account) => {
            let d = basis.done();
            tell_degree(alloc, asked.trace, &given.alphabet, d, &account, teller)?;
            if !asked.basis {
                return Ok(());
            }
            match write_degree(rt, alloc, &given.alphabet, field, basis, out) {
                Ok(()) => Ok(()),
                Err(fault) => Err(fault),
            }
        }
    }
}

/// Writes the series of a reduced basis.
fn print_series<K: Sink>(
    alloc: Global,
    field: &Field,
    given: &Presentation,
    basis: &Basis,
    out: &mut K,
) -> Result<(), PrintFault>
    requires weights { basis.now.weights ≡ given.now.alphabet.weights }
    requires reduced { IsReducedUpto field.now given.now.relations basis.now }
    requires residues { All (HasResidues field.now) given.now.relations }

    ensures printed { OnOk result ((text : List ℕ) × IsWholeSeries field.now given.now.alphabet given.now.relations
        standard_limits.normal_words basis.now.done text
        × GainsAll (state_of K.Sink out.old) (state_of K.Sink out.new) text) }
    ensures undone { IfErr result (IsSeriesUndone field.now given.now.alphabet given.now.relations
        standard_limits.normal_words basis.now.done (state_of K.Sink out.old) (state_of K.Sink out.new)) }
    ensures steady { result ≢ Err PrintFault.WriteFault → K.faults out.new ≡ K.faults out.old }
    ensures calls { CountsWrites (state_of K.Sink out.old) (state_of K.Sink out.new) result }
{
    setting_law(field, given);
    lower_law();
    count_law();
    let limits = Limits::standard();
    match series(alloc, &given.alphabet, basis, basis.done(), &limits) {
        Ok(numbers) => match write_series(alloc, numbers.as_slice(), out) {
            Ok(()) => Ok(()),
            Err(fault) => Err(fault),
        },
        Err(
            SeriesFault::Limit {
                degree,
                value,
                below,
            },
        ) => match write_series(alloc, below.as_slice(), out) {
            Ok(()) => Err(PrintFault::Limit {
                kind: LimitKind::NormalWords,
                degree,
                value,
            }),
            Err(fault) => Err(fault),
        },
        Err(SeriesFault::NoMemory) => Err(PrintFault::NoMemory),
    }
}

/// Writes the text of these numbers of degrees 0, 1 and so on.
fn write_series<K: Sink>(alloc: Global, numbers: &[u64], out: &mut K) -> Result<(), PrintFault>
    ensures written { OnOk result (GainsAll (state_of K.Sink out.old) (state_of K.Sink out.new)
        (series_text numbers.now)) }
    ensures unwritten { IfErr result (IsUnwritten (state_of K.Sink out.old) (state_of K.Sink out.new)
        (series_text numbers.now)) }
    ensures steady { result ≢ Err PrintFault.WriteFault → K.faults out.new ≡ K.faults out.old }
    ensures calls { CountsWrites (state_of K.Sink out.old) (state_of K.Sink out.new) result }
{
    let text = series_text(alloc, numbers)?;
    write_text(out, text.as_slice())
}

/// Writes a text.
pub(crate) fn write_text<K: Sink>(out: &mut K, text: &[u8]) -> Result<(), PrintFault>
    ensures written { OnOk result (GainsAll (state_of K.Sink out.old) (state_of K.Sink out.new) text.now) }
    ensures unwritten { IfErr result (IsUnwritten (state_of K.Sink out.old) (state_of K.Sink out.new) text.now) }
    ensures steady { result ≢ Err PrintFault.WriteFault → K.faults out.new ≡ K.faults out.old }
    ensures calls { CountsWrites (state_of K.Sink out.old) (state_of K.Sink out.new) result }
{
    match write_all(out, text) {
        Ok(()) => Ok(()),
        Err(_) => Err(PrintFault::WriteFault),
    }
}
