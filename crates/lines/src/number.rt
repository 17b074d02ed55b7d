// Numbers in decimal, read off a line. (`str::parse` would take a plus sign and needless zeros too.)
ghost use Rattle.std.specs.Prelude.{◌≡◌};
ghost use Rattle.lines.specs.Reading.{read_on♯, read_number♯, read_field♯};
ghost use Rattle.lines.specs.Values.{number_value};

// The digits that a line begins with, after others that make v; and what follows them.
fn read_on(line: &[u8], v: u32) -> Option<(u32, &[u8])>
    ensures { number_value result ≡ read_on♯ v line.now }
{
    let mut value = v;
    for (i, b) in line.iter().enumerate() {
        if !b.is_ascii_digit() {
            return Some((value, &line[i..]));
        }
        value = value.checked_mul(10)?.checked_add(u32::from(*b - b'0'))?;
    }
    Some((value, &[]))
}

// The number that a line begins with. Nothing is taken after a leading 0: a digit there is no end of the field, and so the line is turned away.
fn read_number(line: &[u8]) -> Option<(u32, &[u8])>
    ensures { number_value result ≡ read_number♯ line.now }
{
    match line {
        [b'0', rest @ ..] => Some((0, rest)),
        [b @ b'1'..=b'9', rest @ ..] => read_on(rest, u32::from(*b - b'0')),
        _ => None,
    }
}

// A comma, and the number after it.
pub fn read_field(line: &[u8]) -> Option<(u32, &[u8])>
    ensures { number_value result ≡ read_field♯ line.now }
{
    match line {
        [b',', rest @ ..] => read_number(rest),
        _ => None,
    }
}
