// The devices whose byte writes are counted, new for each trial.
use crate::pairs::Pair;
use crate::rule::Left;
use crate::trial::{Trial, try_pair};
use flash::Flash;
use image::Image;
use mirror::Mirror;
use schema::Schema;
use std::alloc::{AllocError, Global};

// More byte writes than any trial has.
const LASTING: u32 = 1_000_000;

// An image of so many bytes: each power-up lasts as many byte writes as the next of the cuts says.
pub(crate) fn image(heap: Global, bytes: usize, cuts: &[u32]) -> Result<Image, AllocError> {
    Ok(Image::new(vec![in heap; 0; bytes]?, cuts.to_vec(heap)?))
}

// The same of an erased flash.
pub(crate) fn flash(heap: Global, bytes: usize, cuts: &[u32]) -> Result<Flash, AllocError> {
    Ok(Flash::new(vec![in heap; 255; bytes]?, cuts.to_vec(heap)?))
}

// An image of 51 blocks. Its first power-up lasts so many byte writes past those of a format, its second so many.
fn image_past(heap: Global, first: u32, second: u32) -> Result<Image, AllocError> {
    image(heap, 51 * 34, &Side::Image.past_format(first, second))
}

// The same of a flash.
fn flash_past(heap: Global, first: u32, second: u32) -> Result<Flash, AllocError> {
    flash(heap, 51 * 33, &Side::Flash.past_format(first, second))
}

// A device that fails at a byte write, or the side of a mirror that does.
#[derive(Clone, Copy)]
pub(crate) enum Side {
    Image,
    Flash,
}

impl Side {
    // The byte writes of a block.
    pub(crate) fn width(self) -> u32 {
        match self {
            Side::Image => 34,
            Side::Flash => 66,
        }
    }

    // So many byte writes past those of a format, and then so many.
    fn past_format(self, first: u32, second: u32) -> [u32; 2] {
        [
            first.saturating_add(self.width().saturating_mul(26)),
            second,
        ]
    }
}

// A device of one kind, or a mirror of an image and a flash with the side that fails in the replacement and the one that fails in
// the recovery.
#[derive(Clone, Copy)]
pub(crate) enum Kind {
    One(Side),
    Mirror(Side, Side),
}

impl Kind {
    pub(crate) fn name(self) -> &'static str {
        match self {
            Kind::One(Side::Image) => "image",
            Kind::One(Side::Flash) => "flash",
            Kind::Mirror(Side::Image, Side::Image) => "mirror, image and image fail",
            Kind::Mirror(Side::Image, Side::Flash) => "mirror, image and flash fail",
            Kind::Mirror(Side::Flash, Side::Image) => "mirror, flash and image fail",
            Kind::Mirror(Side::Flash, Side::Flash) => "mirror, flash and flash fail",
        }
    }

    // What fails in the replacement.
    pub(crate) fn first(self) -> Side {
        match self {
            Kind::One(side) => side,
            Kind::Mirror(first, _) => first,
        }
    }

    // What fails in the recovery.
    pub(crate) fn second(self) -> Side {
        match self {
            Kind::One(side) => side,
            Kind::Mirror(_, second) => second,
        }
    }

    // What a write leaves of a good block if power fails after so many of its byte writes. A mirror writes its flash first, so a
    // cut of the flash leaves the image's block, and a cut of the image the flash's.
    pub(crate) fn leaves(self, bytes: u32) -> Left {
        match self {
            Kind::One(_) if bytes > 0 => Left::Damaged,
            Kind::Mirror(Side::Image, _) if bytes > 0 => Left::New,
            _ => Left::Before,
        }
    }

    // A trial with power that fails after so many byte writes of the replacement, and then of the recovery.
    pub(crate) fn trial(
        self,
        heap: Global,
        schema: &Schema,
        pair: &Pair,
        cuts: (u32, u32),
    ) -> Result<Trial, AllocError> {
        let (p, q) = cuts;
        let (a, b) = match self.first() {
            Side::Image => (p, LASTING),
            Side::Flash => (LASTING, p),
        };
        let (c, d) = match self.second() {
            Side::Image => (q, LASTING),
            Side::Flash => (LASTING, q),
        };
        Ok(match self {
            Kind::One(Side::Image) => try_pair(&mut image_past(heap, p, q)?, schema, pair),
            Kind::One(Side::Flash) => try_pair(&mut flash_past(heap, p, q)?, schema, pair),
            Kind::Mirror(_, _) => {
                let mut mirror = Mirror::new(image_past(heap, a, c)?, flash_past(heap, b, d)?);
                try_pair(&mut mirror, schema, pair)
            }
        })
    }
}
