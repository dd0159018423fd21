// Entries put in and taken out, and which configurations a schema allows.
use super::given::{Numbers, counted, entry, path, schema};
use config::{Config, Entry};
use std::test::Fail;

// Puts the entry in, or takes it out, and says whether that was done.
fn done(config: &mut Config, put: bool, step: Entry) -> bool {
    if put {
        config.put(step).is_ok() && config.get(step.path) == Some(step)
    } else {
        config.take_out(step.path) == Some(step)
    }
}

// An entry to put in (true) or to take out of 48 entries, whether that is done, and the number of entries then. A full
// configuration takes no further path, and a new value at a path that it has.
const STEPS: [(bool, Numbers, bool, usize); 11] = [
    (true, (1, 49, 0, 0), false, 48),
    (true, (0, 0, 0, 0), false, 48),
    (true, (1, 48, 0, 5), true, 48),
    (false, (1, 49, 0, 0), false, 48),
    (false, (1, 48, 0, 5), true, 47),
    (false, (1, 48, 0, 5), false, 47),
    (true, (1, 49, 0, 0), true, 48),
    (true, (1, 48, 0, 5), false, 48),
    (false, (1, 1, 0, 0), true, 47),
    (false, (1, 25, 0, 0), true, 46),
    (true, (0, 0, 0, 0), true, 47),
];

#[test]
fn full(rt: HostRuntime) {
    let mut config = counted(&rt, 48);
    for (put, numbers, expected, count) in STEPS {
        let before = config;
        assert_eq!(rt; done(&mut config, put, entry(numbers)), expected);
        assert_eq!(rt; config.entries().len(), count, "{numbers:?}");
        assert!(rt; expected || config == before, "a refusal changes nothing");
    }
}

// The entries as they come, and the order that they stand in.
const MIXED: [Numbers; 5] = [
    (4, 0, 0, 1),
    (2, 3, 11, 2),
    (2, 4, 10, 3),
    (1, 9, 0, 4),
    (2, 3, 10, 5),
];

const ORDERED: [Numbers; 5] = [
    (1, 9, 0, 4),
    (2, 3, 10, 5),
    (2, 3, 11, 2),
    (2, 4, 10, 3),
    (4, 0, 0, 1),
];

#[test]
fn order(rt: HostRuntime) {
    let mut config = Config::empty();
    for numbers in MIXED {
        assert!(rt; config.put(entry(numbers)).is_ok());
    }
    let entries = config.entries();
    assert!(rt; entries.len() == 5);
    for (i, (&held, numbers)) in entries.iter().zip(ORDERED).enumerate() {
        assert!(rt; held == entry(numbers), "place {i}");
    }
}

// Equal are configurations with the same entries, whatever their unused places hold.
#[test]
fn equality(rt: HostRuntime) {
    let mut config = counted(&rt, 3);
    for (gone, count) in [(3, 2), (2, 1), (1, 0)] {
        assert!(rt; config.take_out(path(1, gone, 0)).is_some());
        for other in 0..4 {
            assert_eq!(rt; config == counted(&rt, other), other == count);
        }
    }
    assert!(rt; config.put(entry((1, 1, 0, 1))).is_ok());
    assert!(rt; config != counted(&rt, 1), "another value");
}

// Each entry to put in, and whether the configuration is lawful with it.
const LAWFUL: [(Numbers, bool); 7] = [
    ((4, 0, 0, 50), true),
    ((3, 3, 10, 30), false), // no list around it
    ((2, 3, 10, 0), false),
    ((1, 3, 0, 0), true),
    ((1, 4, 0, 1), false),
    ((1, 4, 0, 0), true),
    ((4, 0, 0, 61), false),
];

// A path, and whether then the entry of the list around it is there.
const HELD: [((u8, u32, u32), bool); 7] = [
    ((3, 3, 10), true),
    ((3, 3, 11), false),
    ((3, 4, 10), false),
    ((2, 4, 20), true),
    ((2, 5, 20), false),
    ((4, 0, 0), true), // at the top
    ((1, 9, 0), true),
];

#[test]
fn lawfulness(rt: HostRuntime) -> Result<(), Fail> {
    let schema = schema()?;
    let mut config = Config::empty();
    assert!(rt; config.is_lawful(&schema));
    for (numbers, lawful) in LAWFUL {
        assert!(rt; config.put(entry(numbers)).is_ok());
        assert_eq!(rt; config.is_lawful(&schema), lawful, "{numbers:?}");
    }
    for ((node, k1, k2), held) in HELD {
        assert_eq!(rt; config.holds(&schema, path(node, k1, k2)), held);
    }
    Ok(())
}
