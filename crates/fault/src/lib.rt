// The refusal numbers with their layers, and the report of a refusal.
//
// A refusal is told by eight plain numbers: the refusal number, the layer that it belongs to, a cause, the item of an edit
// list, how many items were kept, and a path. A field without use is 0.
#![tactic(auto)]

ghost use Rattle.fault.specs.Numbers.{OneLayer, layer_at, layer_number};
ghost use Rattle.fault.specs.Rows.{looked_up};
ghost use Rattle.fault.specs.Reports.{at_path, because, in_item, plain};
ghost use Rattle.fault.specs.Text.{fields, spaced};
ghost use Rattle.std.specs.Prelude.{◌≡◌, Some};

use std::fmt;

// The part of the engine that a refusal number belongs to.
#[derive(Clone, Copy, PartialEq, Eq, Debug)]
pub enum Layer {
    Session = 2,
    Configuration = 3,
    Store = 4,
    Device = 5,
}

impl Layer {
    // A method and no From, which is no plainer: the conversion is the cast alone.
    pub fn number(self) -> u32
        ensures { result ≡ layer_number self }
    {
        self as u32
    }
}

// A refusal number with its layer.
#[derive(Clone, Copy)]
struct Numbered(u32, Layer);

const NUMBERS: [Numbered; 32] = [
    Numbered(1, Layer::Session),
    Numbered(2, Layer::Session),
    Numbered(3, Layer::Session),
    Numbered(4, Layer::Session),
    Numbered(5, Layer::Session),
    Numbered(6, Layer::Configuration),
    Numbered(7, Layer::Configuration),
    Numbered(8, Layer::Configuration),
    Numbered(9, Layer::Configuration),
    Numbered(10, Layer::Session),
    Numbered(11, Layer::Configuration),
    Numbered(12, Layer::Configuration),
    Numbered(13, Layer::Session),
    Numbered(14, Layer::Configuration),
    Numbered(20, Layer::Session),
    Numbered(21, Layer::Session),
    Numbered(22, Layer::Session),
    Numbered(23, Layer::Session),
    Numbered(24, Layer::Session),
    Numbered(25, Layer::Session),
    Numbered(26, Layer::Session),
    Numbered(27, Layer::Session),
    Numbered(28, Layer::Session),
    Numbered(29, Layer::Configuration),
    Numbered(30, Layer::Session),
    Numbered(31, Layer::Session),
    Numbered(32, Layer::Configuration),
    Numbered(33, Layer::Configuration),
    Numbered(34, Layer::Configuration),
    Numbered(35, Layer::Store),
    Numbered(36, Layer::Device),
    Numbered(37, Layer::Store),
];

// The layer that the first row of this number has. The table is the form that the project asks for here.
fn look_up(rows: &[Numbered], number: u32) -> Option<Layer>
    ensures { result ≡ looked_up rows.now number }
{
    for row in rows {
        if row.0 == number {
            return Some(row.1);
        }
    }
    None
}

// The layer of a refusal number, or none where the number is no refusal number.
pub fn layer_of(number: u32) -> Option<Layer>
    ensures { OneLayer number result }
{
    look_up(&NUMBERS, number)
}

// The number of the layer of a refusal number; 0 where the number is no refusal number, as a report tells it.
fn layer_number(number: u32) -> u32
    ensures { result ≡ layer_at number }
{
    layer_of(number).map_or(0, |layer| layer.number())
}

// How a refusal is told. A field without use is 0. All are plain numbers, as the rules tell them.
#[derive(Clone, Copy, PartialEq, Eq, Debug)]
pub struct Report {
    pub number: u32,
    pub layer: u32,
    pub cause: u32,
    pub item: u32,
    pub kept: u32,
    pub node: u32,
    pub k1: u32,
    pub k2: u32,
}

impl Report {
    // A refusal by this number, with its layer and nothing else to tell. The number is plain: each fault's type knows its own.
    pub fn plain(number: u32) -> Self
        ensures { result ≡ plain number }
    {
        Report {
            number,
            layer: layer_number(number),
            cause: 0,
            item: 0,
            kept: 0,
            node: 0,
            k1: 0,
            k2: 0,
        }
    }

    // The same refusal with its cause.
    pub fn because(self, cause: u32) -> Self
        ensures { result ≡ because self cause }
    {
        Report { cause, ..self }
    }

    // The same refusal at an item of an edit list, of whose items `kept` were kept.
    pub fn in_item(self, item: u32, kept: u32) -> Self
        ensures { result ≡ in_item self item kept }
    {
        Report { item, kept, ..self }
    }

    // The same refusal at a path.
    pub fn at_path(self, node: u32, k1: u32, k2: u32) -> Self
        ensures { result ≡ at_path self node k1 k2 }
    {
        Report {
            node,
            k1,
            k2,
            ..self
        }
    }

    // The eight numbers in their order.
    pub fn fields(self) -> [u32; 8]
        ensures { result ≡ fields self }
    {
        let Report {
            number,
            layer,
            cause,
            item,
            kept,
            node,
            k1,
            k2,
        } = self;
        [number, layer, cause, item, kept, node, k1, k2]
    }
}

// The eight numbers, one space between them.
impl fmt::Display for Report {
    ghost output = { λ r. Some (spaced (fields r)) };

    fn fmt<W: fmt::Write>(&self, f: &mut fmt::Formatter<W>) -> fmt::Result {
        let Report {
            number,
            layer,
            cause,
            item,
            kept,
            node,
            k1,
            k2,
        } = *self;
        write!(f, "{number} {layer} {cause} {item} {kept} {node} {k1} {k2}")
    }
}
