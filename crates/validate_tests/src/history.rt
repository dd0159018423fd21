// The rules of a schema over the history of one configuration.
use crate::support::{answer, entry, no, path, yes};
use config::{Config, Entry};
use fault::Report;
use schema::{NodeRow, Path, Schema, SchemaFault};
use std::process::Abort;
use std::test::Fail;
use validate::{SchemaRules, Validator};

fn list(parent: u32, maximum: u32) -> NodeRow {
    NodeRow {
        kind: 1,
        parent,
        lo: 1,
        hi: 9,
        mandatory: 0,
        reference: 0,
        maximum,
    }
}

fn leaf(parent: u32, mandatory: u32, reference: u32) -> NodeRow {
    NodeRow {
        kind: 2,
        parent,
        lo: 0,
        hi: 9,
        mandatory,
        reference,
        maximum: 0,
    }
}

// List 1 at the top and list 2 in it, two entries each at most. Leaf 3 in list 1, 4 in list 2 and 5 at the top are mandatory.
// Leaf 6 at the top and 7 in list 2 refer to list 1.
fn rules() -> Result<SchemaRules, SchemaFault> {
    let rows = [
        list(0, 2),
        list(1, 2),
        leaf(1, 1, 0),
        leaf(2, 1, 0),
        leaf(0, 1, 0),
        leaf(0, 0, 1),
        leaf(2, 0, 1),
    ];
    Ok(SchemaRules {
        schema: Schema::check(&rows)?,
    })
}

#[derive(Clone, Copy)]
enum Step {
    Put(Entry),
    Gone(Path),
}

#[test]
fn each_rule(rt: HostRuntime) -> Result<(), Fail> {
    let steps: [(Step, Report); 13] = [
        (Step::Gone(path(9, 9, 9)), no(1, 5, 0, 0)),
        (Step::Put(entry(5, 0, 0, 1)), yes()),
        (Step::Put(entry(1, 4, 0, 0)), no(1, 3, 4, 0)),
        (Step::Put(entry(3, 4, 0, 2)), yes()),
        (Step::Put(entry(6, 0, 0, 5)), no(2, 6, 0, 0)),
        (Step::Put(entry(6, 0, 0, 4)), yes()),
        (Step::Put(entry(2, 4, 1, 0)), no(1, 4, 4, 1)),
        (Step::Put(entry(4, 4, 1, 0)), yes()),
        (Step::Put(entry(2, 4, 2, 0)), no(1, 4, 4, 2)),
        (Step::Put(entry(4, 4, 2, 0)), yes()),
        (Step::Put(entry(2, 4, 3, 0)), no(1, 4, 4, 3)),
        (Step::Put(entry(4, 4, 3, 0)), no(3, 2, 4, 0)),
        (Step::Put(entry(99, 4, 3, 0)), no(3, 2, 4, 0)),
    ];
    run(&rt, &steps)
}

#[test]
fn the_lowest_is_told(rt: HostRuntime) -> Result<(), Fail> {
    let steps: [(Step, Report); 16] = [
        (Step::Put(entry(5, 0, 0, 1)), yes()),
        (Step::Put(entry(1, 4, 0, 0)), no(1, 3, 4, 0)),
        (Step::Put(entry(1, 3, 0, 0)), no(1, 3, 3, 0)),
        (Step::Put(entry(3, 3, 0, 0)), no(1, 3, 4, 0)),
        (Step::Put(entry(3, 4, 0, 0)), yes()),
        (Step::Put(entry(2, 4, 1, 0)), no(1, 4, 4, 1)),
        (Step::Put(entry(4, 4, 1, 0)), yes()),
        (Step::Put(entry(2, 3, 1, 0)), no(1, 4, 3, 1)),
        (Step::Put(entry(4, 3, 1, 0)), yes()),
        (Step::Put(entry(2, 4, 2, 0)), no(1, 4, 4, 2)),
        (Step::Put(entry(4, 4, 2, 0)), yes()),
        (Step::Put(entry(7, 4, 1, 9)), no(2, 7, 4, 1)),
        (Step::Put(entry(6, 0, 0, 9)), no(2, 6, 0, 0)),
        (Step::Put(entry(1, 9, 0, 0)), no(1, 3, 9, 0)),
        (Step::Put(entry(3, 9, 0, 0)), no(3, 1, 0, 0)),
        (Step::Gone(path(5, 0, 0)), no(1, 5, 0, 0)),
    ];
    run(&rt, &steps)
}

fn run(rt: &impl Abort, steps: &[(Step, Report)]) -> Result<(), Fail> {
    let rules = rules()?;
    let mut config = Config::empty();
    for (step, expected) in steps {
        match *step {
            Step::Put(entry) => assert!(rt; config.put(entry).is_ok(), "put"),
            Step::Gone(path) => {
                let _ = config.take_out(path);
            }
        }
        assert_eq!(rt; answer(&rules, &config), *expected);
    }
    Ok(())
}
