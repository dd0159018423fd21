// The branch switch: the rows of its schema, and its first image.
use schema::NodeRow;

// Node 1 is the list of interfaces, with keys 1 to 9 and at most 3 entries. Node 2 is the mandatory MTU of an interface, 64
// to 1500. Node 3 is the uplink, 1 to 9, which has to be the key of an interface.
pub const ROWS: [NodeRow; 3] = [
    NodeRow {
        kind: 1,
        parent: 0,
        lo: 1,
        hi: 9,
        mandatory: 0,
        reference: 0,
        maximum: 3,
    },
    NodeRow {
        kind: 2,
        parent: 1,
        lo: 64,
        hi: 1500,
        mandatory: 1,
        reference: 0,
        maximum: 0,
    },
    NodeRow {
        kind: 2,
        parent: 0,
        lo: 1,
        hi: 9,
        mandatory: 0,
        reference: 1,
        maximum: 0,
    },
];

// Interface 4 with MTU 1500.
pub const IMAGE: [u8; 33] = [
    2, 1, 0, 0, 0, 0, 0, 0, 4, 0, 0, 0, 0, 0, 0, 0, 0, 2, 0, 0, 0, 0, 0, 0, 4, 0, 0, 0, 0, 0, 0, 5,
    220,
];
