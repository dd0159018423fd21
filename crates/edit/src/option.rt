// The error options.
ghost use Rattle.edit.specs.Options.{option_number};
ghost use Rattle.fault.specs.Codes.{Named};

// What a refused item does to the others: those before it are kept, or all that can be performed, or none.
#[derive(Clone, Copy, PartialEq, Eq, Debug)]
pub enum ErrorOption {
    Stop = 1,
    Continue = 2,
    Rollback = 3,
}

// A number that no option has.
#[derive(Clone, Copy, PartialEq, Eq, Debug)]
pub struct UnknownOption(pub u32);

// The option of a number.
impl TryFrom<u32> for ErrorOption {
    type Error = UnknownOption;

    ghost try_from_gives = { Named option_number (λ e. e.0) };

    fn try_from(number: u32) -> Result<Self, UnknownOption> {
        match number {
            1 => Ok(ErrorOption::Stop),
            2 => Ok(ErrorOption::Continue),
            3 => Ok(ErrorOption::Rollback),
            _ => Err(UnknownOption(number)),
        }
    }
}
