// Counted lists of records.
ghost use Rattle.encoding.specs.Counts.{CountRead, Decoded, Encoded, FormsKnown, OfForm, RecordRead};
ghost use Rattle.encoding.specs.declared.form.Form.{Form};
ghost use Rattle.std.specs.Prelude.{◌≡◌};

use crate::form::Form;

// A record that has a form. From and TryFrom have no law that a record is known by its form, so the conversions are its own.
pub trait Coded: Copy {
    ghost form: { Self → Form };

    fn to_form(&self) -> Form
        ensures { result ≡ form self.now };

    // The record of a form, if it is a record's.
    fn from_form(of: Form) -> Option<Self>
        ensures { OfForm form of result };

    // A record is known by its form.
    ghost known: { (x y : Self) → form x ≡ form y → x ≡ y };
}

// The output has no room for the counted list, or there are more records than a count byte can tell.
#[derive(Clone, Copy, PartialEq, Eq, Debug)]
pub struct NoRoom;

// Writes the counted list of the records to the front of the output, and answers its length.
pub fn encode<T: Coded>(records: &[T], out: &mut [u8]) -> Result<usize, NoRoom>
    ensures { Encoded T.form records.now out.old out.new result }
{
    let count = records.len();
    if count > 255 || out.len() < 1 + 16 * count {
        return Err(NoRoom);
    }
    out[0] = count as u8;
    // A proof knows only the length of what writes through chunks_exact_mut or as_chunks_mut leave, so ranges are written.
    for (i, record) in records.iter().enumerate() {
        let at = 1 + 16 * i;
        out[at..at + 16].copy_from_slice(&record.to_form().to_bytes());
    }
    Ok(1 + 16 * count)
}

// The count, if the bytes have the length that it asks for and it is not above `most`.
fn count_of(bytes: &[u8], most: usize) -> Option<usize>
    ensures { CountRead bytes.now most result }
{
    let count = usize::from(*bytes.first()?);
    if count > most || bytes.len() != 1 + 16 * count {
        return None;
    }
    Some(count)
}

// The record of a form's bytes, if it is a record's.
fn read<T: Coded>(bytes: &[u8]) -> Option<T>
    ensures { RecordRead T.form bytes.now result }
{
    T::from_form(Form::from_bytes(bytes)?)
}

// Each of the forms is a record's.
fn all_known<T: Coded>(forms: &[[u8; 16]]) -> bool
    ensures { FormsKnown T.form forms.now result }
{
    forms.iter().all(|form| read::<T>(form).is_some())
}

// Reads a counted list into the front of the slots, and answers the count. Where the bytes are no counted list of as many
// records as there are slots at most, nothing is written.
pub fn decode<T: Coded>(bytes: &[u8], slots: &mut [T]) -> Option<usize>
    ensures { Decoded T.form bytes.now slots.old slots.new result }
{
    let count = count_of(bytes, slots.len())?;
    let (forms, _) = bytes[1..].as_chunks::<16>();
    if !all_known::<T>(forms) {
        return None;
    }
    // A proof knows only the length of what a zip of iter_mut with the forms leaves, so the slots are written by index.
    for (i, form) in forms.iter().enumerate() {
        if let Some(record) = read(form) {
            slots[i] = record;
        }
    }
    Some(count)
}
