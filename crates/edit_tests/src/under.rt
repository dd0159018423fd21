// What lies under a list, two levels down.
use super::given::{DELETE, MERGE, Numbers, REMOVE, REPLACE, Step, config, has, perform, schema};
use std::test::Fail;

// Three entries of the outer list. Entry 3 has three entries of the inner list, and each of the others one.
const ALL: [Numbers; 17] = [
    (1, 2, 0, 0),
    (1, 3, 0, 0),
    (1, 4, 0, 0),
    (2, 2, 11, 0),
    (2, 3, 10, 0),
    (2, 3, 11, 0),
    (2, 3, 20, 0),
    (2, 4, 11, 0),
    (3, 2, 11, 30),
    (3, 3, 10, 31),
    (3, 3, 11, 32),
    (3, 3, 20, 33),
    (3, 4, 11, 34),
    (4, 0, 0, 50),
    (5, 2, 0, 70),
    (5, 3, 0, 71),
    (5, 4, 0, 72),
];

// (2, 3, 11) is empty.
const INNER_EMPTY: [Numbers; 16] = [
    (1, 2, 0, 0),
    (1, 3, 0, 0),
    (1, 4, 0, 0),
    (2, 2, 11, 0),
    (2, 3, 10, 0),
    (2, 3, 11, 0),
    (2, 3, 20, 0),
    (2, 4, 11, 0),
    (3, 2, 11, 30),
    (3, 3, 10, 31),
    (3, 3, 20, 33),
    (3, 4, 11, 34),
    (4, 0, 0, 50),
    (5, 2, 0, 70),
    (5, 3, 0, 71),
    (5, 4, 0, 72),
];

// (2, 3, 20) is gone.
const INNER_GONE: [Numbers; 14] = [
    (1, 2, 0, 0),
    (1, 3, 0, 0),
    (1, 4, 0, 0),
    (2, 2, 11, 0),
    (2, 3, 10, 0),
    (2, 3, 11, 0),
    (2, 4, 11, 0),
    (3, 2, 11, 30),
    (3, 3, 10, 31),
    (3, 4, 11, 34),
    (4, 0, 0, 50),
    (5, 2, 0, 70),
    (5, 3, 0, 71),
    (5, 4, 0, 72),
];

// (1, 3, 0) is empty.
const OUTER_EMPTY: [Numbers; 10] = [
    (1, 2, 0, 0),
    (1, 3, 0, 0),
    (1, 4, 0, 0),
    (2, 2, 11, 0),
    (2, 4, 11, 0),
    (3, 2, 11, 30),
    (3, 4, 11, 34),
    (4, 0, 0, 50),
    (5, 2, 0, 70),
    (5, 4, 0, 72),
];

// (1, 4, 0) is gone.
const OUTER_GONE: [Numbers; 6] = [
    (1, 2, 0, 0),
    (1, 3, 0, 0),
    (2, 2, 11, 0),
    (3, 2, 11, 30),
    (4, 0, 0, 50),
    (5, 2, 0, 70),
];

// Items one after another, and the entries after each.
const STEPS: [(Step, &'static [Numbers]); 8] = [
    ((MERGE, 1, 3, 0, 0), &ALL),
    ((MERGE, 2, 3, 11, 0), &ALL),
    ((REPLACE, 2, 3, 11, 0), &INNER_EMPTY),
    ((DELETE, 2, 3, 20, 0), &INNER_GONE),
    ((REPLACE, 1, 3, 0, 0), &OUTER_EMPTY),
    ((DELETE, 1, 4, 0, 0), &OUTER_GONE),
    (
        (REMOVE, 1, 3, 0, 0),
        &[
            (1, 2, 0, 0),
            (2, 2, 11, 0),
            (3, 2, 11, 30),
            (4, 0, 0, 50),
            (5, 2, 0, 70),
        ],
    ),
    ((REMOVE, 1, 2, 0, 0), &[(4, 0, 0, 50)]),
];

#[test]
fn one_after_another(rt: HostRuntime) -> Result<(), Fail> {
    let schema = schema()?;
    let mut config = config(&rt, &ALL);
    for (step, after) in STEPS {
        perform(&rt, &schema, &mut config, step, 0);
        has(&rt, &config, after, &step);
    }
    Ok(())
}
