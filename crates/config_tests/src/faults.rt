// The layers of the refusal numbers, and the report of a refusal.
use fault::{Layer, Report, layer_of};
use std::test::Fail;

// The number of the layer of each number from 0 to 40, 0 where the number is no refusal number.
const LAYERS: [u32; 41] = [
    0, 2, 2, 2, 2, 2, 3, 3, 3, 3, // 0 to 9
    2, 3, 3, 2, 3, 0, 0, 0, 0, 0, // 10 to 19
    2, 2, 2, 2, 2, 2, 2, 2, 2, 3, // 20 to 29
    2, 2, 3, 3, 3, 4, 5, 4, 0, 0, // 30 to 39
    0,
];

// By hand: the test asks no number of what it tests.
fn told(layer: Option<Layer>) -> u32 {
    match layer {
        Some(Layer::Session) => 2,
        Some(Layer::Configuration) => 3,
        Some(Layer::Store) => 4,
        Some(Layer::Device) => 5,
        None => 0,
    }
}

#[test]
fn layers(rt: HostRuntime) {
    for (i, &layer) in LAYERS.iter().enumerate() {
        let number = i as u32;
        assert_eq!(rt; told(layer_of(number)), layer, "number {number}");
        assert_eq!(rt;
            Report::plain(number).fields(),
            [number, layer, 0, 0, 0, 0, 0, 0]
        );
    }
    assert_eq!(rt; LAYERS.len(), 41);
    assert_eq!(rt; told(layer_of(u32::MAX)), 0);
}

#[test]
fn reports_as_text(rt: HostRuntime) -> Result<(), Fail> {
    let none = Report::plain(0).to_string(rt.alloc())?;
    assert_eq!(rt; none.as_str(), "0 0 0 0 0 0 0 0");
    let schema = Report::plain(11).at_path(4, 0, 0).to_string(rt.alloc())?;
    assert_eq!(rt; schema.as_str(), "11 3 0 0 0 4 0 0");
    let all = Report::plain(34)
        .because(6)
        .in_item(7, 8)
        .at_path(9, 10, 4294967295);
    assert_eq!(rt;
        all.to_string(rt.alloc())?.as_str(),
        "34 3 6 7 8 9 10 4294967295"
    );
    Ok(())
}
