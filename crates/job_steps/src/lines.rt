ghost use Rattle.std.specs.Prelude.{◌≡◌, ◌+◌, ◌≤◌, ◌++◌, ◌∷◌, [], codes, decimal, length};
ghost use Rattle.job_steps.specs.Lines.{counted, fault_line, input_text, kind_text, limit_text, line};
ghost use Rattle.job_steps.specs.Lines.{problem_text, usage_text, want_text};

use crate::status::{InputProblem, Status};
use command_words::{UsageFault, key_name};
use ideal_laws::LimitKind;
use itoa::Buffer;
use relation_reader::{InputFault, Want};
use std::marker::Model;

/// A line of at most 96 bytes, which takes no memory: a fault is told where memory is wanting too.
#[derive(Drop)]
pub struct Line {
    bytes: [u8; 96],
    len: usize,
}

impl Model for Line {
    ghost use Rattle.std.specs.Prelude.{List, take, ◌≤◌, ℕ};

    ghost Value = { List ℕ };

    ghost view = { λ l. take l.len l.bytes };

    ghost invariant = { λ l. l.len ≤ 96 };
}

impl Line {
    pub fn as_bytes(&self) -> &[u8]
        ensures { result.now ≡ self.now }
    {
        &self.bytes[..self.len]
    }

    fn empty() -> Line
        ensures { result ≡ [] }
    {
        Line {
            bytes: [0; 96],
            len: 0,
        }
    }

    fn push(&mut self, byte: u8)
        requires { length self.old + 1 ≤ 96 }
        ensures text { self.new ≡ self.old ++ byte ∷ [] }
        ensures size { length self.new ≡ length self.old + 1 }
    {
        self.bytes[self.len] = byte;
        self.len += 1;
    }

    fn push_text(&mut self, text: &[u8])
        requires { length self.old + length text.now ≤ 96 }
        ensures text { self.new ≡ self.old ++ text.now }
        ensures size { length self.new ≡ length self.old + length text.now }
    {
        for byte in text {
            self.push(*byte);
        }
    }

    fn push_number(&mut self, number: u64)
        requires { length self.old + 20 ≤ 96 }
        ensures text { self.new ≡ self.old ++ decimal number }
        ensures size { length self.new ≤ length self.old + 20 }
    {
        let mut digits = Buffer::new();
        self.push_text(digits.format(number).as_bytes());
    }
}

/// The line that is told of a status; of a run that is done, none.
pub fn fault_line(status: &Status) -> Line
    ensures { result ≡ fault_line status.now }
{
    match status {
        Status::Done => Line::empty(),
        Status::Usage(fault) => usage_line(*fault),
        Status::Input(problem) => problem_line(*problem),
        Status::Limit {
            kind,
            degree,
            value,
        } => limit_line(kind_name(*kind), *degree, *value),
        Status::Chains { degree, value } => limit_line(b"chains", *degree, *value),
        Status::Products { degree, value } => limit_line(b"products", *degree, *value),
        Status::ReadFault => line_of(b"read fault", b""),
        Status::WriteFault => line_of(b"write fault", b""),
        Status::NoMemory => line_of(b"no memory", b""),
    }
}

fn usage_line(fault: UsageFault) -> Line
    ensures { result ≡ line (codes "usage: " ++ usage_text fault) }
{
    match fault {
        UsageFault::NoCommand => line_of(b"usage: no command", b""),
        UsageFault::UnknownCommand => line_of(b"usage: unknown command", b""),
        UsageFault::UnknownKey { word } => numbered_line(b"usage: word ", word, b"unknown key"),
        UsageFault::RepeatedKey { word } => numbered_line(b"usage: word ", word, b"repeated key"),
        UsageFault::BadValue { word } => numbered_line(b"usage: word ", word, b"bad value"),
        UsageFault::MissingKey { key } => line_of(b"usage: missing ", key_name(key)),
    }
}

fn problem_line(problem: InputProblem) -> Line
    ensures { result ≡ line (codes "input: " ++ problem_text problem) }
{
    match problem {
        InputProblem::TooLong => line_of(b"input: more than 1048576 bytes", b""),
        InputProblem::Text(fault) => input_line(fault),
        InputProblem::TooFewNames { names } => counted_line(names, b" names"),
        InputProblem::Shape { relation } => {
            numbered_line(
                b"input: relation ",
                relation,
                b"not of an ideal or a module",
            )
        }
        InputProblem::TooFewRelations { relations } => counted_line(relations, b" relations"),
        InputProblem::AboveBound { relation } => {
            numbered_line(b"input: relation ", relation, b"above the bound")
        }
    }
}

fn input_line(fault: InputFault) -> Line
    ensures { result ≡ line (codes "input: " ++ input_text fault) }
{
    match fault {
        InputFault::BadByte { at } => numbered_line(b"input: byte ", at, b"bad byte"),
        InputFault::NumberTooWide { at } => numbered_line(b"input: byte ", at, b"number too wide"),
        InputFault::Expected { at, what } => {
            numbered_line(b"input: byte ", at, expected_name(what))
        }
        InputFault::NoVariable { at } => numbered_line(b"input: byte ", at, b"no variable"),
        InputFault::AfterEnd { at } => numbered_line(b"input: byte ", at, b"text after the end"),
        InputFault::NameTooLong { at } => numbered_line(b"input: byte ", at, b"name too long"),
        InputFault::TooManyVariables { at } => {
            numbered_line(b"input: byte ", at, b"too many variables")
        }
        InputFault::RepeatedVariable { at } => {
            numbered_line(b"input: byte ", at, b"repeated variable")
        }
        InputFault::WeightOutOfRange { at } => {
            numbered_line(b"input: byte ", at, b"weight out of range")
        }
        InputFault::TooManyRelations { at } => {
            numbered_line(b"input: byte ", at, b"too many relations")
        }
        InputFault::UnknownVariable { at } => {
            numbered_line(b"input: byte ", at, b"unknown variable")
        }
        InputFault::ExponentTooLarge { at } => {
            numbered_line(b"input: byte ", at, b"exponent too large")
        }
        InputFault::WordTooLong { at } => numbered_line(b"input: byte ", at, b"word too long"),
        InputFault::NotHomogeneous { relation } => {
            numbered_line(b"input: relation ", relation, b"not homogeneous")
        }
        InputFault::Constant { relation } => {
            numbered_line(b"input: relation ", relation, b"constant")
        }
    }
}

/// The line of what passed its limit in a degree.
fn limit_line(name: &[u8], degree: u32, value: u64) -> Line
    requires { length name.now ≤ 12 }
    ensures { result ≡ line (limit_text name.now degree value) }
{
    let mut line = Line::empty();
    line.push_text(b"bergman: limit: ");
    line.push_text(name);
    line.push_text(b" ");
    line.push_number(value);
    line.push_text(b" in degree ");
    line.push_number(u64::from(degree));
    line.push_text(b"\n");
    line
}

fn line_of(front: &[u8], back: &[u8]) -> Line
    requires front { length front.now ≤ 30 }
    requires back { length back.now ≤ 30 }
    ensures { result ≡ line (front.now ++ back.now) }
{
    let mut line = Line::empty();
    line.push_text(b"bergman: ");
    line.push_text(front);
    line.push_text(back);
    line.push_text(b"\n");
    line
}

/// The line with the number between these, and `: ` behind it.
fn numbered_line(front: &[u8], number: u32, back: &[u8]) -> Line
    requires front { length front.now ≤ 30 }
    requires back { length back.now ≤ 30 }
    ensures { result ≡ line (front.now ++ (decimal number ++ (codes ": " ++ back.now))) }
{
    let mut line = Line::empty();
    line.push_text(b"bergman: ");
    line.push_text(front);
    line.push_number(u64::from(number));
    line.push_text(b": ");
    line.push_text(back);
    line.push_text(b"\n");
    line
}

/// The line that tells how few there are.
fn counted_line(number: u32, back: &[u8]) -> Line
    requires { length back.now ≤ 30 }
    ensures { result ≡ line (codes "input: " ++ counted number back.now) }
{
    let mut line = Line::empty();
    line.push_text(b"bergman: input: only ");
    line.push_number(u64::from(number));
    line.push_text(back);
    line.push_text(b"\n");
    line
}

fn expected_name(what: Want) -> &'static [u8]
    ensures text { result.now ≡ codes "expected " ++ want_text what }
    ensures short { length result.now ≤ 30 }
{
    match what {
        Want::Vars => b"expected vars",
        Want::Name => b"expected a name",
        Want::ListMark => b"expected , or ;",
        Want::Term => b"expected a term",
        Want::Factor => b"expected a factor",
        Want::Exponent => b"expected an exponent",
        Want::Operator => b"expected an operator",
        Want::Weight => b"expected a weight",
    }
}

fn kind_name(kind: LimitKind) -> &'static [u8]
    ensures text { result.now ≡ kind_text kind }
    ensures short { length result.now ≤ 12 }
{
    match kind {
        LimitKind::PlainWords => b"plain words",
        LimitKind::Rows => b"rows",
        LimitKind::Columns => b"columns",
        LimitKind::Entries => b"entries",
        LimitKind::Cells => b"cells",
        LimitKind::Terms => b"terms",
        LimitKind::NormalWords => b"normal words",
    }
}
