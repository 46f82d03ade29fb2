use crate::job::{Command, EngineKind, Job, Key, Show, UsageFault};
use crate::read::read_words;
use std::process::Abort;
use std::test::Fail;

fn expect_answer<R: Abort + AllocGlobal>(
    rt: &R,
    line: &str,
    answer: Result<Job, UsageFault>,
) -> Result<(), Fail> {
    let mut words = Vec::new(rt.alloc());
    for word in line.split(' ') {
        if !word.is_empty() {
            words.push(String::from_str(rt.alloc(), word)?)?;
        }
    }
    assert_eq!(rt; read_words(words.as_slice()), answer, "{line}");
    Ok(())
}

/// The job of `gb mod=101 deg=3`.
const SHORT: Job = Job {
    command: Command::Gb,
    modulus: 101,
    bound: 3,
    workers: 1,
    show: Show::Both,
    trace: false,
    engine: EngineKind::Race,
    schedule: 0,
    number: 0,
    letters: 0,
    gens: 0,
    list: false,
    ask: 0,
};

#[test]
fn each_fault_has_its_word(rt: HostRuntime) -> Result<(), Fail> {
    let table: [(&str, UsageFault); 14] = [
        ("", UsageFault::NoCommand),
        ("frob", UsageFault::UnknownCommand),
        (
            "gb mod=101 deg=3 color=red",
            UsageFault::UnknownKey { word: 4 },
        ),
        (
            "gb mod=101 mod=7 deg=3",
            UsageFault::RepeatedKey { word: 3 },
        ),
        ("gb mod=1 deg=3", UsageFault::BadValue { word: 2 }),
        ("gb mod=101", UsageFault::MissingKey { key: Key::Deg }),
        ("gb mod=101 deg=65", UsageFault::BadValue { word: 3 }),
        ("gb mod=2147483648 deg=3", UsageFault::BadValue { word: 2 }),
        (
            "make mod=101 deg=4 number=0",
            UsageFault::MissingKey { key: Key::Vars },
        ),
        ("gb deg=3 mod", UsageFault::UnknownKey { word: 3 }),
        ("gb mod=101 deg=3 show=", UsageFault::BadValue { word: 4 }),
        (
            "gb mod=101 deg=3 list=yes",
            UsageFault::UnknownKey { word: 4 },
        ),
        ("chains deg=x show=both", UsageFault::BadValue { word: 2 }),
        (
            "normal mod=7 deg=3 ask=4097",
            UsageFault::BadValue { word: 4 },
        ),
    ];
    for (line, fault) in table {
        expect_answer(&rt, line, Err(fault))?;
    }
    Ok(())
}

#[test]
fn each_command_has_its_keys(rt: HostRuntime) -> Result<(), Fail> {
    let table: [(&str, Job); 8] = [
        ("gb mod=0101 deg=03", SHORT),
        (
            "gb deg=3 mod=1000003",
            Job {
                modulus: 1_000_003,
                ..SHORT
            },
        ),
        (
            "gb mod=101 deg=3 workers=4 show=series trace=yes engine=race schedule=4294967295",
            Job {
                workers: 4,
                show: Show::Series,
                trace: true,
                engine: EngineKind::Race,
                schedule: 4_294_967_295,
                ..SHORT
            },
        ),
        (
            "make schedule=7 engine=core workers=64 vars=33 number=9 deg=64 mod=2",
            Job {
                command: Command::Make,
                modulus: 2,
                bound: 64,
                workers: 64,
                engine: EngineKind::Core,
                schedule: 7,
                number: 9,
                letters: 33,
                ..SHORT
            },
        ),
        (
            "module mod=101 deg=3 gens=64 workers=2 show=basis engine=seq schedule=1",
            Job {
                command: Command::Module,
                workers: 2,
                show: Show::Basis,
                engine: EngineKind::Seq,
                schedule: 1,
                gens: 64,
                ..SHORT
            },
        ),
        (
            "chains mod=65521 deg=1 workers=1 engine=plain schedule=0 list=yes",
            Job {
                command: Command::Chains,
                modulus: 65521,
                bound: 1,
                engine: EngineKind::Plain,
                list: true,
                ..SHORT
            },
        ),
        (
            "normal mod=101 deg=3 ask=4096 workers=3 engine=seq schedule=5",
            Job {
                command: Command::Normal,
                workers: 3,
                engine: EngineKind::Seq,
                schedule: 5,
                ask: 4096,
                ..SHORT
            },
        ),
        ("gb trace=no show=both mod=101 deg=3", SHORT),
    ];
    for (line, job) in table {
        expect_answer(&rt, line, Ok(job))?;
    }
    Ok(())
}
