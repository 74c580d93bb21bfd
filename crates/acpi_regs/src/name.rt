ghost use Rattle.std.specs.Prelude.{◌≡◌, ◌<◌, IfSome};
ghost use Rattle.std.specs.Result.{result_ok};
ghost use Rattle.acpi_regs.specs.Names.{IsName, byte_of, digit, digit_of, lettered, name_in, spelling};

/// The name of a method that handles an event (ACPI 6.5, section 5.6.4.1).
#[derive(Clone, Copy, Debug, PartialEq, Eq)]
pub enum MethodName {
    /// `_Lxx`: a GPE by its number, level-triggered.
    Level(u8),
    /// `_Exx`: a GPE by its number, edge-triggered.
    Edge(u8),
    /// `_Qxx`: a query code of the embedded controller, which is not 0.
    Query(u8),
}

/// The error for a text that is not the name of a method that handles an event.
#[derive(Clone, Copy, Debug, PartialEq, Eq)]
pub struct NotAName;

impl MethodName {
    /// Reads `_Lxx`, `_Exx` or `_Qxx`, where xx is two upper-case hexadecimal digits (ACPI 6.5, section 5.6.4.1).
    ///
    /// # Errors
    /// `NotAName` for every other text, and for `_Q00`: query code 0 means that no event is outstanding.
    pub fn parse(text: &[u8]) -> Result<MethodName, NotAName>
        ensures { result_ok result ≡ name_in text.now }
    {
        match text {
            [b'_', letter, high, low] => match byte_named(*high, *low) {
                Some(number) => named(*letter, number),
                None => Err(NotAName),
            },
            _ => Err(NotAName),
        }
    }

    /// The text of the name. Requires that a query's code is not 0.
    pub fn spell(self) -> [u8; 4]
        requires { IsName self }
        ensures { result ≡ spelling self }
    {
        let (letter, number) = match self {
            MethodName::Level(number) => (b'L', number),
            MethodName::Edge(number) => (b'E', number),
            MethodName::Query(code) => (b'Q', code),
        };
        [
            b'_',
            letter,
            digit_byte(number / 16),
            digit_byte(number % 16),
        ]
    }
}

/// The name with this letter and number.
fn named(letter: u8, number: u8) -> Result<MethodName, NotAName>
    ensures { result_ok result ≡ lettered letter number }
{
    match letter {
        b'L' => Ok(MethodName::Level(number)),
        b'E' => Ok(MethodName::Edge(number)),
        b'Q' if number != 0 => Ok(MethodName::Query(number)),
        _ => Err(NotAName),
    }
}

/// The byte of two upper-case hexadecimal digits; `None` exactly if one of the two is not such a digit.
pub fn byte_named(high: u8, low: u8) -> Option<u8>
    ensures { result ≡ byte_of high low }
{
    let high = digit_value(high)?;
    let low = digit_value(low)?;
    Some(16 * high + low)
}

/// The value of an upper-case hexadecimal digit, by its ASCII code.
fn digit_value(byte: u8) -> Option<u8>
    ensures value { result ≡ digit_of byte }
    ensures bound { IfSome result (λ n. n < 16) }
{
    match byte {
        b'0'..=b'9' => Some(byte - b'0'),
        b'A'..=b'F' => Some(byte - b'A' + 10),
        _ => None,
    }
}

/// The upper-case hexadecimal digit of a number, as its ASCII code. Requires a number below 16.
pub fn digit_byte(number: u8) -> u8
    requires { number < 16 }
    ensures { result ≡ digit number }
{
    if number < 10 {
        b'0' + number
    } else {
        b'A' + (number - 10)
    }
}
