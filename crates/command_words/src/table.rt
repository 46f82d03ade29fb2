ghost use Rattle.std.specs.Prelude.{◌≡◌, ◌≢◌, ◌≤◌, ℕ, List, MatchOption, Contains, length};
ghost use Rattle.command_words.specs.declared.job.Command.{Command};
ghost use Rattle.command_words.specs.declared.value.Value.{Value};
ghost use Rattle.command_words.specs.Keys.{command_name, keys_of, name_of, required_of};
ghost use Rattle.command_words.specs.Refusals.{HasKey, IsUnknown, IsWordOf, Says};

use crate::job::{Command, Key};
use crate::value::{Value, value_in};

const GB: [Key; 7] = [
    Key::Mod,
    Key::Deg,
    Key::Workers,
    Key::Show,
    Key::Trace,
    Key::Engine,
    Key::Schedule,
];

const MAKE: [Key; 7] = [
    Key::Mod,
    Key::Deg,
    Key::Number,
    Key::Vars,
    Key::Workers,
    Key::Engine,
    Key::Schedule,
];

const MODULE: [Key; 7] = [
    Key::Mod,
    Key::Deg,
    Key::Gens,
    Key::Workers,
    Key::Show,
    Key::Engine,
    Key::Schedule,
];

const CHAINS: [Key; 6] = [
    Key::Mod,
    Key::Deg,
    Key::Workers,
    Key::Engine,
    Key::Schedule,
    Key::List,
];

const NORMAL: [Key; 6] = [
    Key::Mod,
    Key::Deg,
    Key::Ask,
    Key::Workers,
    Key::Engine,
    Key::Schedule,
];

/// The keys of the command, required ones first.
fn row_of(command: Command) -> &'static [Key]
    ensures { result.now ≡ keys_of command }
{
    match command {
        Command::Gb => &GB,
        Command::Make => &MAKE,
        Command::Module => &MODULE,
        Command::Chains => &CHAINS,
        Command::Normal => &NORMAL,
    }
}

/// The keys that the command must have.
pub fn required_row(command: Command) -> &'static [Key]
    ensures { result.now ≡ required_of command }
{
    match command {
        Command::Gb => &GB[..2],
        Command::Make => &MAKE[..4],
        Command::Module => &MODULE[..3],
        Command::Chains => &CHAINS[..2],
        Command::Normal => &NORMAL[..3],
    }
}

pub fn command_in(word: &[u8]) -> Option<Command>
    ensures { MatchOption result ((command : Command) → word.now ≢ command_name command)
        (λ command. word.now ≡ command_name command) }
{
    match word {
        b"gb" => Some(Command::Gb),
        b"make" => Some(Command::Make),
        b"module" => Some(Command::Module),
        b"chains" => Some(Command::Chains),
        b"normal" => Some(Command::Normal),
        _ => None,
    }
}

/// The key of the command that the word has.
pub fn key_in(command: Command, word: &[u8]) -> Option<Key>
    ensures { MatchOption result (IsUnknown command word.now)
        (λ key. Contains (keys_of command) key × HasKey key word.now) }
{
    for key in row_of(command) {
        if text_behind(*key, word).is_some() {
            return Some(*key);
        }
    }
    None
}

/// The value of the key that the word says.
pub fn value_said(key: Key, word: &[u8]) -> Option<Value>
    ensures { MatchOption result ((value : Value) → Says key word.now value → ⊥) (Says key word.now) }
{
    match text_behind(key, word) {
        Some(text) => value_in(key, text),
        None => None,
    }
}

/// What stands behind the key and its `=`.
fn text_behind(key: Key, word: &[u8]) -> Option<&[u8]>
    ensures { MatchOption result (HasKey key word.now → ⊥) (λ text. IsWordOf key text.now word.now) }
{
    word.strip_prefix(key_name(key))?
        .strip_prefix(b"=".as_slice())
}

/// How the key is written.
pub fn key_name(key: Key) -> &'static [u8]
    ensures text { result.now ≡ name_of key }
    ensures short { length result.now ≤ 8 }
{
    match key {
        Key::Mod => b"mod",
        Key::Deg => b"deg",
        Key::Workers => b"workers",
        Key::Show => b"show",
        Key::Trace => b"trace",
        Key::Engine => b"engine",
        Key::Schedule => b"schedule",
        Key::Number => b"number",
        Key::Vars => b"vars",
        Key::Gens => b"gens",
        Key::List => b"list",
        Key::Ask => b"ask",
    }
}
