// A number as it is written in a page description: digits, and perhaps a point and more digits.
ghost use Rattle.std.specs.Prelude.{◌≡◌};
ghost use Rattle.page_words.specs.Decimals.{appended, with_digit, with_point, after, quotient, number_read, decimal};

// What has been read: nothing, digits, digits and a point, or digits on both sides of a point.
#[derive(Clone, Copy)]
enum Decimal {
    Empty,
    Whole(u32),
    Point(u32),
    // All digits as one whole number, and the power of ten of those after the point.
    Fraction { value: u32, scale: u32 },
}

fn appended(value: u32, digit: u8) -> Option<u32>
    ensures { result ≡ appended value digit }
{
    (value <= 999_999).then(|| value * 10 + u32::from(digit))
}

fn quotient(value: u32, scale: u32) -> f32
    ensures { result ≡ quotient value scale }
{
    std::num::nearest_u64_to_f32(u64::from(value)) / std::num::nearest_u64_to_f32(u64::from(scale))
}

impl Decimal {
    fn with_digit(self, digit: u8) -> Option<Decimal>
        ensures { result ≡ with_digit self digit }
    {
        match self {
            Decimal::Empty => Some(Decimal::Whole(u32::from(digit))),
            Decimal::Whole(value) => appended(value, digit).map(Decimal::Whole),
            Decimal::Point(value) => {
                let value = appended(value, digit)?;
                Some(Decimal::Fraction { value, scale: 10 })
            }
            Decimal::Fraction { value, scale } if scale <= 100_000 => {
                let value = appended(value, digit)?;
                Some(Decimal::Fraction {
                    value,
                    scale: scale * 10,
                })
            }
            Decimal::Fraction { .. } => None,
        }
    }

    fn with_point(self) -> Option<Decimal>
        ensures { result ≡ with_point self }
    {
        match self {
            Decimal::Whole(value) => Some(Decimal::Point(value)),
            Decimal::Empty | Decimal::Point(_) | Decimal::Fraction { .. } => None,
        }
    }

    fn after(self, byte: u8) -> Option<Decimal>
        ensures { result ≡ after self byte }
    {
        match byte {
            b'0'..=b'9' => self.with_digit(byte - b'0'),
            b'.' => self.with_point(),
            _ => None,
        }
    }

    fn number(self) -> Option<f32>
        ensures { result ≡ number_read self }
    {
        match self {
            Decimal::Whole(value) => Some(quotient(value, 1)),
            Decimal::Fraction { value, scale } => Some(quotient(value, scale)),
            Decimal::Empty | Decimal::Point(_) => None,
        }
    }
}

// The number that a word is, if it is one of at most seven digits. Not `str::parse`, which takes signs, exponents and any number of digits as well.
pub fn read_decimal(word: &str) -> Option<f32>
    ensures { result ≡ decimal word.now }
{
    word.bytes()
        .try_fold(Decimal::Empty, Decimal::after)?
        .number()
}
