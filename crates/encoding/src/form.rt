// A form of 16 bytes.
ghost use Rattle.std.specs.Prelude.{◌≡◌};
ghost use Rattle.encoding.specs.Forms.{FormRead, form_bytes};

// Four head bytes, then two keys and a value.
#[derive(Clone, Copy)]
pub struct Form {
    pub a: u8,
    pub b: u8,
    pub c: u8,
    pub d: u8,
    pub k1: u32,
    pub k2: u32,
    pub value: u32,
}

impl Form {
    // The form's bytes. A method and no From, which is no plainer: its name says what comes of a form.
    pub fn to_bytes(self) -> [u8; 16]
        ensures { result ≡ form_bytes self }
    {
        let [e, f, g, h] = self.k1.to_be_bytes();
        let [i, j, k, l] = self.k2.to_be_bytes();
        let [m, n, o, p] = self.value.to_be_bytes();
        [
            self.a, self.b, self.c, self.d, e, f, g, h, i, j, k, l, m, n, o, p,
        ]
    }

    // The form of these bytes; none unless there are 16. TryFrom is no plainer: its error could tell no more than this.
    pub fn from_bytes(bytes: &[u8]) -> Option<Self>
        ensures { FormRead bytes.now result }
    {
        let &[a, b, c, d, e, f, g, h, i, j, k, l, m, n, o, p] = bytes else {
            return None;
        };
        Some(Form {
            a,
            b,
            c,
            d,
            k1: u32::from_be_bytes([e, f, g, h]),
            k2: u32::from_be_bytes([i, j, k, l]),
            value: u32::from_be_bytes([m, n, o, p]),
        })
    }
}
