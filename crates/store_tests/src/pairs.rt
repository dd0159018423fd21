// The schema and the configurations of the tests.
use config::{Config, Entry};
use schema::{NodeRow, Path, Schema, SchemaFault};

// A list of interfaces with keys 1 to 9, and the MTU of an interface, 64 to 1500. Not the branch switch of the programs: no leaf
// has to be there.
pub(crate) fn schema() -> Result<Schema, SchemaFault> {
    let list = NodeRow {
        kind: 1,
        parent: 0,
        lo: 1,
        hi: 9,
        mandatory: 0,
        reference: 0,
        maximum: 0,
    };
    let leaf = NodeRow {
        kind: 2,
        parent: 1,
        lo: 64,
        hi: 1500,
        mandatory: 0,
        reference: 0,
        maximum: 0,
    };
    Schema::check(&[list, leaf])
}

// The entries of these nodes, keys and values.
pub(crate) fn config_of(entries: &[(u8, u32, u32)]) -> Config {
    let mut config = Config::empty();
    for (node, k1, value) in entries.iter().copied() {
        let path = Path { node, k1, k2: 0 };
        let _ = config.put(Entry { path, value });
    }
    config
}

// Two configurations, and the home blocks in which they differ: the first `changed` of three. The count is a byte of its own, so
// that sums of it need no bound, which is plainer than the length of a slice.
#[derive(Clone, Copy)]
pub(crate) struct Pair {
    pub(crate) old: Config,
    pub(crate) new: Config,
    pub(crate) targets: [u32; 3],
    pub(crate) changed: u8,
}

impl Pair {
    // How many home blocks differ.
    pub(crate) fn count(&self) -> u32 {
        u32::from(self.changed)
    }

    // The home block of this place among those that differ.
    pub(crate) fn target(&self, place: u32) -> u32 {
        self.targets.get(place as usize).copied().unwrap_or(0)
    }
}

// Three interfaces: two entries of the list in block 27, one with the first MTU in block 28, two MTUs in block 29.
const THREE: [(u8, u32, u32); 6] = [
    (1, 4, 0),
    (1, 5, 0),
    (1, 6, 0),
    (2, 4, 1500),
    (2, 5, 1500),
    (2, 6, 1500),
];

// Another MTU: block 29 alone.
fn mtu() -> Pair {
    let mut entries = THREE;
    entries[5] = (2, 6, 1400);
    Pair {
        old: config_of(&THREE),
        new: config_of(&entries),
        targets: [29, 0, 0],
        changed: 1,
    }
}

// The first interface: the count in block 26, the entries in block 27.
fn first_interface() -> Pair {
    Pair {
        old: Config::empty(),
        new: config_of(&[(1, 4, 0), (2, 4, 1500)]),
        targets: [26, 27, 0],
        changed: 2,
    }
}

// Interface 3 for interface 5: the count, block 27 and block 29, while block 28 stays.
fn other_interface() -> Pair {
    Pair {
        old: config_of(&THREE),
        new: config_of(&[(1, 3, 0), (1, 4, 0), (1, 6, 0), (2, 4, 1500), (2, 6, 1500)]),
        targets: [26, 27, 29],
        changed: 3,
    }
}

pub(crate) fn pairs() -> [Pair; 3] {
    [mtu(), first_interface(), other_interface()]
}
