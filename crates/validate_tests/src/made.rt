// Required values: which records are taken, and rule 4 at its edges.
use crate::support::{answer, entry, no, path, yes};
use config::{Config, Entry};
use fault::Report;
use schema::Range;
use std::test::Fail;
use validate::{Bound, Required};

fn bound(node: u8, k1: u32, lo: u32, hi: u32) -> Bound {
    Bound {
        path: path(node, k1, 0),
        values: Range { lo, hi },
    }
}

// Eight zeros where the records are taken.
fn made(records: &[Bound]) -> Report {
    match Required::new(records) {
        Ok(_) => yes(),
        Err(fault) => fault.report(),
    }
}

#[test]
fn which_records_are_taken(rt: HostRuntime) {
    let many = [
        bound(1, 0, 0, 0),
        bound(1, 1, 5, 5),
        bound(1, 2, 0, 9),
        bound(2, 0, 0, 9),
        bound(2, 1, 0, 9),
        bound(3, 0, 0, 9),
        bound(3, 1, 0, 9),
        bound(9, 9, 0, 9),
        bound(10, 0, 0, 9),
    ];
    let refused = Report {
        number: 14,
        layer: 3,
        cause: 0,
        item: 0,
        kept: 0,
        node: 0,
        k1: 0,
        k2: 0,
    };
    assert_eq!(rt; made(&many[0..0]), yes());
    assert_eq!(rt; made(&many[0..8]), yes());
    assert_eq!(rt; made(&many), refused, "nine");
    assert_eq!(rt;
        made(&[bound(1, 0, 0, 1), bound(1, 0, 2, 3)]),
        refused,
        "equal paths"
    );
    assert_eq!(rt;
        made(&[bound(2, 0, 0, 1), bound(1, 5, 0, 1)]),
        refused,
        "falling paths"
    );
    assert_eq!(rt;
        made(&[bound(1, 0, 0, 1), bound(1, 1, 6, 5)]),
        refused,
        "lo above hi"
    );
}

#[test]
fn rule_four(rt: HostRuntime) -> Result<(), Fail> {
    let required = Required::new(&[bound(1, 4, 0, 0), bound(3, 4, 2, 5), bound(99, 0, 0, 9)])?;
    let steps: [(Entry, Report); 7] = [
        (entry(3, 4, 0, 1), no(4, 1, 4, 0)),
        (entry(1, 4, 0, 0), no(4, 3, 4, 0)),
        (entry(3, 4, 0, 2), no(4, 99, 0, 0)),
        (entry(99, 0, 0, 7), yes()),
        (entry(3, 4, 0, 5), yes()),
        (entry(3, 4, 0, 6), no(4, 3, 4, 0)),
        (entry(1, 4, 0, 1), no(4, 1, 4, 0)),
    ];
    let mut config = Config::empty();
    for (put, expected) in &steps {
        assert!(rt; config.put(*put).is_ok());
        assert_eq!(rt; answer(&required, &config), *expected);
    }
    assert!(rt; required.get(path(3, 4, 0)).is_some());
    assert!(rt; required.get(path(3, 4, 1)).is_none());
    Ok(())
}
