use crate::lines::fault_line;
use crate::status::{InputProblem, Status};
use command_words::{Key, UsageFault};
use ideal_laws::LimitKind;
use relation_reader::{InputFault, Want};
use std::test::Fail;

#[test]
fn each_fault_has_its_line(rt: HostRuntime) -> Result<(), Fail> {
    let table: [(Status, &str); 12] = [
        (Status::Done, ""),
        (
            Status::Usage(UsageFault::NoCommand),
            "bergman: usage: no command\n",
        ),
        (
            Status::Usage(UsageFault::RepeatedKey { word: 3 }),
            "bergman: usage: word 3: repeated key\n",
        ),
        (
            Status::Usage(UsageFault::MissingKey { key: Key::Deg }),
            "bergman: usage: missing deg\n",
        ),
        (
            Status::Input(InputProblem::TooLong),
            "bergman: input: more than 1048576 bytes\n",
        ),
        (
            Status::Input(InputProblem::Text(InputFault::Expected {
                at: 0,
                what: Want::ListMark,
            })),
            "bergman: input: byte 0: expected , or ;\n",
        ),
        (
            Status::Input(InputProblem::Text(InputFault::NotHomogeneous {
                relation: 4_294_967_295,
            })),
            "bergman: input: relation 4294967295: not homogeneous\n",
        ),
        (
            Status::Limit {
                kind: LimitKind::NormalWords,
                degree: 64,
                value: u64::MAX,
            },
            "bergman: limit: normal words 18446744073709551615 in degree 64\n",
        ),
        (
            Status::Input(InputProblem::TooFewNames { names: 2 }),
            "bergman: input: only 2 names\n",
        ),
        (
            Status::Input(InputProblem::Shape {
                relation: 4_294_967_295,
            }),
            "bergman: input: relation 4294967295: not of an ideal or a module\n",
        ),
        (
            Status::Input(InputProblem::TooFewRelations { relations: 1 }),
            "bergman: input: only 1 relations\n",
        ),
        (
            Status::Products {
                degree: 3,
                value: 16_385,
            },
            "bergman: limit: products 16385 in degree 3\n",
        ),
    ];
    for (status, line) in table {
        assert_eq!(rt; fault_line(&status).as_bytes(), line.as_bytes(), "{line}");
    }
    Ok(())
}
