ghost use Rattle.std.specs.Prelude.{◌≡◌, ℕ, List, All, None, IsSome, IfSome, MatchOption, MatchResult, false};
ghost use Rattle.std.specs.Prelude.{replicate, unwrap_or};
ghost use Rattle.command_words.specs.declared.job.Key.{Key};
ghost use Rattle.command_words.specs.Keys.{required_of};
ghost use Rattle.command_words.specs.Values.{IsValue, default_of, value_at};
ghost use Rattle.command_words.specs.Draft.{IsFirstGap, IsRefusal, Takes, answer_in, count_in, engine_in, kept};
ghost use Rattle.command_words.specs.Draft.{place_of, show_in};

use crate::job::{Command, EngineKind, Job, Key, Show, UsageFault};
use crate::table::{key_in, required_row, value_said};
use crate::value::Value;

/// What the words so far say, each value at the place of its key.
#[derive(Drop)]
pub struct Draft {
    values: [Option<Value>; 12],
}

impl Draft {
    pub fn new() -> Draft
        ensures { result.values ≡ replicate 12 None }
    {
        Draft { values: [None; 12] }
    }

    /// Takes one word more, which has this number.
    pub fn take(&mut self, command: Command, number: u32, word: &[u8]) -> Result<(), UsageFault>
        ensures { MatchResult result (λ _. Takes command self.old.values self.new.values word.now)
            (IsRefusal command self.old.values word.now number) }
    {
        let Some(key) = key_in(command, word) else {
            return Err(UsageFault::UnknownKey { word: number });
        };
        if self.value_of(key).is_some() {
            return Err(UsageFault::RepeatedKey { word: number });
        }
        let Some(value) = value_said(key, word) else {
            return Err(UsageFault::BadValue { word: number });
        };
        self.values[place_of(key)] = Some(value);
        Ok(())
    }

    /// The first required key that no word had.
    pub fn missing(&self, command: Command) -> Option<Key>
        ensures { MatchOption result (All (λ key. IsSome (kept self.now.values key)) (required_of command))
            (IsFirstGap (required_of command) self.now.values) }
    {
        for key in required_row(command) {
            if self.value_of(*key).is_none() {
                return Some(*key);
            }
        }
        None
    }

    /// The job with these values, and with defaults for the other keys.
    pub fn job(&self, command: Command) -> Job
        requires { (key : Key) → IfSome (kept self.now.values key) (λ value. (text : List ℕ) × IsValue key text value) }
        ensures command { result.command ≡ command }
        ensures values { (key : Key) → value_at key result ≡ unwrap_or (kept self.now.values key) (default_of key) }
    {
        Job {
            command,
            modulus: self.count_of(Key::Mod, 0),
            bound: self.count_of(Key::Deg, 0),
            workers: self.count_of(Key::Workers, 1),
            show: self.show(),
            trace: self.answer_of(Key::Trace),
            engine: self.engine(),
            schedule: self.count_of(Key::Schedule, 0),
            number: self.count_of(Key::Number, 0),
            letters: self.count_of(Key::Vars, 0),
            gens: self.count_of(Key::Gens, 0),
            list: self.answer_of(Key::List),
            ask: self.count_of(Key::Ask, 0),
        }
    }

    fn count_of(&self, key: Key, otherwise: u32) -> u32
        ensures { result ≡ count_in (kept self.now.values key) otherwise }
    {
        match self.value_of(key) {
            Some(Value::Count(count)) => count,
            _ => otherwise,
        }
    }

    fn answer_of(&self, key: Key) -> bool
        ensures { result ≡ answer_in (kept self.now.values key) false }
    {
        match self.value_of(key) {
            Some(Value::Answer(answer)) => answer,
            _ => false,
        }
    }

    fn show(&self) -> Show
        ensures { result ≡ show_in (kept self.now.values Key.Show) Show.Both }
    {
        match self.value_of(Key::Show) {
            Some(Value::Shown(show)) => show,
            _ => Show::Both,
        }
    }

    fn engine(&self) -> EngineKind
        ensures { result ≡ engine_in (kept self.now.values Key.Engine) EngineKind.Race }
    {
        match self.value_of(Key::Engine) {
            Some(Value::Kind(engine)) => engine,
            _ => EngineKind::Race,
        }
    }

    fn value_of(&self, key: Key) -> Option<Value>
        ensures { result ≡ kept self.now.values key }
    {
        self.values[place_of(key)]
    }
}

fn place_of(key: Key) -> usize
    ensures { result ≡ place_of key }
{
    key as usize
}
