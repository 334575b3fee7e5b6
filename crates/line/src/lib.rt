// Reads a line: tells what it says, a message or nothing.
#![tactic(auto)]

ghost use Rattle.std.specs.Prelude.{◌≡◌};
ghost use Rattle.line.specs.Format.{read_digits, read_number, read_field, read_line};
ghost use Rattle.line.specs.Fields.{digit_in, reading};

use locks::Message;

// Reads a digit.
fn digit(b: u8) -> Option<u64>
    ensures { result ≡ digit_in b }
{
    match b {
        b'0'..=b'9' => Some(u64::from(b - b'0')),
        0..=47 | 58..=255 => None,
    }
}

// What is left of a line, from which one field after the other is taken.
#[derive(Drop)]
struct Fields<'a> {
    rest: &'a [u8],
}

impl<'a> Fields<'a> {
    // Takes the digits in front, which go on with the number `front`.
    fn digits(&mut self, front: u64) -> Option<u64>
        ensures { reading result self.new.rest.now ≡ read_digits front self.old.rest.now }
    {
        let mut v = front;
        while let Some((b, rest)) = self.rest.split_first() {
            let Some(d) = digit(*b) else {
                break;
            };
            v = v.checked_mul(10)?.checked_add(d)?;
            self.rest = rest;
        }
        Some(v)
    }

    // Takes a number: 0 alone, or digits that start with another.
    fn number(&mut self) -> Option<u64>
        ensures { reading result self.new.rest.now ≡ read_number self.old.rest.now }
    {
        let (b, rest) = self.rest.split_first()?;
        let d = digit(*b)?;
        self.rest = rest;
        if d == 0 {
            return Some(0);
        }
        self.digits(d)
    }

    // Takes a field: a comma and a number.
    fn next(&mut self) -> Option<u64>
        ensures { reading result self.new.rest.now ≡ read_field self.old.rest.now }
    {
        let (b, rest) = self.rest.split_first()?;
        if *b != b',' {
            return None;
        }
        self.rest = rest;
        self.number()
    }
}

// Reads a line, without its break.
pub fn read_line(s: &[u8]) -> Option<Message>
    ensures { result ≡ read_line s.now }
{
    if 128 < s.len() {
        return None;
    }
    let (letter, rest) = s.split_first()?;
    let mut fields = Fields { rest };
    let client = fields.next()?;
    let second = fields.next()?;
    let m = match *letter {
        b'A' => Message::Acknowledge {
            client,
            handle: second,
        },
        b'D' => Message::Downgrade {
            client,
            handle: second,
        },
        b'F' => Message::Release {
            client,
            handle: second,
        },
        b'R' => Message::Request {
            client,
            stripe: second,
            mode: fields.next()?,
            first: fields.next()?,
            last: fields.next()?,
            marked: false,
        },
        0..=64 | 66..=67 | 69 | 71..=81 | 83..=255 => return None,
    };
    fields.rest.is_empty().then_some(m)
}
